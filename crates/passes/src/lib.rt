// The verdict on an endless word of letters, by tuple numbers: nothing is asked of a tracker's tables but next numbers and colours.
#![tactic(auto)]

ghost use Rattle.std.specs.Prelude.{◌≡◌, ◌+◌, ◌*◌, ◌<◌, ◌≤◌, length, get_or};
ghost use Rattle.passes.specs.Passes.{LeastOf, AnswerIs, is_yes};
ghost use Rattle.passes.specs.TableRun.{AllBelow, TablesFit, LettersFit, word_of, Passing, TableJudges};

#[derive(Clone, Copy)]
pub enum Answer {
    Yes,
    No,
}

// Whether the answer is yes.
pub fn is_yes(answer: Answer) -> bool
    ensures { result ≡ is_yes answer }
{
    matches!(answer, Answer::Yes)
}

// "yes or no with least colour and passes"
#[derive(Clone, Copy)]
pub struct Verdict {
    pub answer: Answer,
    pub least: u16,
    pub passes: usize,
}

// Where a pass of some letters ends, and the least colour that it entered.
#[derive(Clone, Copy)]
struct Pass {
    at: usize,
    least: u16,
}

// Letter i of a plan.
fn letter(letters: &[u8], i: usize) -> usize
    requires { (i < length letters.now) × AllBelow letters.now 8 }
    ensures { (result ≡ get_or letters.now i 0) × (result < 8) }
{
    letters[i] as usize
}

// The next number of tuple `at` on a letter.
fn next(nexts: &[u16], count: usize, at: usize, letter: usize) -> usize
    requires { (8 * count ≤ length nexts.now) × AllBelow nexts.now count × (at < count) × (letter < 8) }
    ensures { (result ≡ get_or nexts.now (8 * at + letter) 0) × (result < count) }
{
    nexts[8 * at + letter] as usize
}

// The letters from place `from` on, `size` of them, followed through the tables from tuple `start`.
fn follow(
    tuples: &[u16],
    nexts: &[u16],
    count: usize,
    letters: &[u8],
    from: usize,
    size: usize,
    start: usize,
) -> Pass
    requires tables_fit { TablesFit tuples.now nexts.now count × (start < count) }
    requires size_in_bounds { (from + size ≤ length letters.now) × AllBelow letters.now 8 }
    ensures { Passing tuples.now nexts.now count start (λ i. get_or letters.now (from + i) 0) size result }
{
    let mut at = start;
    let mut least: u16 = 65535;
    for i in 0..size {
        at = next(nexts, count, at, letter(letters, from + i));
        least = least.min(tuples[tuple_record::RECORD * at + tuple_record::COLOUR]);
    }
    Pass { at, least }
}

// The least of the cells from `first` up to and with `last`.
fn least_of(cells: &[u16], first: usize, last: usize) -> u16
    requires { (first ≤ last) × (last < length cells.now) }
    ensures { LeastOf (λ i. get_or cells.now i 0) first (last + 1) result }
{
    let mut least = cells[first];
    for i in first + 1..last + 1 {
        least = least.min(cells[i]);
    }
    least
}

// "The plan is passed, and the answer is yes, if the least colour .. is even; else the answer is no."
fn answer_of(least: u16) -> Answer
    ensures { AnswerIs least result }
{
    if least % 2 == 0 {
        return Answer::Yes;
    }
    Answer::No
}

// Passes of the cycle until one ends where an earlier one did: `seen` tells of each tuple how many passes were run when it
// stood at an end for the first time, and one more; `leasts` has the least colour of each pass.
pub fn judge_letters(
    tuples: &[u16],
    nexts: &[u16],
    count: usize,
    letters: &[u8],
    lead: usize,
    cycle: usize,
) -> Verdict
    requires { TablesFit tuples.now nexts.now count × LettersFit letters.now lead cycle }
    ensures { TableJudges tuples.now nexts.now count (word_of letters.now lead cycle) lead cycle result }
{
    let mut seen = [0u16; 1024];
    let mut leasts = [0u16; 1025];
    let mut passes: usize = 0;
    let mut at = follow(tuples, nexts, count, letters, 0, lead, 0).at;
    while seen[at] == 0 {
        passes += 1;
        seen[at] = passes as u16;
        let end = follow(tuples, nexts, count, letters, lead, cycle, at);
        leasts[passes] = end.least;
        at = end.at;
    }
    let least = least_of(&leasts, seen[at] as usize, passes);
    Verdict {
        answer: answer_of(least),
        least,
        passes,
    }
}
