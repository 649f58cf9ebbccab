// The transition lines of a sheet and its end: questions 8, 16 and 9.
#![tactic(auto)]

ghost use Rattle.std.specs.Prelude.{◌≡◌, ◌+◌, ◌<◌, ◌≤◌, ◌^◌, length, take};
ghost use Rattle.superseding.specs.Superseding.{superseding_in};
ghost use Rattle.automaton.specs.Automaton.{transition_sets};
ghost use Rattle.automaton.specs.declared.Edition.TheVariants.{StateBased, TransitionBased};
ghost use Rattle.format.specs.Format.{most_sheet};
ghost use Rattle.format.specs.Numbers.{inserted_where};
ghost use Rattle.transition_lines.specs.TransitionLines.{transition_of, line_from, transition_line_at, transitions_at, TransitionFits, FillsTable};

use automaton::Edition;
use frame::end_line;
use gate::Refusal;

// From, letter, to and mark, if the transition is in range and not below the place `least`.
fn transition_of(
    n: usize,
    k: usize,
    least: usize,
    from: usize,
    letter: usize,
    to: usize,
    mark: usize,
) -> Option<(usize, usize, usize, usize)>
    requires { (n ≤ 16) × (k ≤ 8) × (mark ≤ 1) }
    ensures { (result ≡ transition_of n k least from letter to mark) × TransitionFits result }
{
    if from >= n {
        return None;
    }
    if letter >= k {
        return None;
    }
    if to >= n {
        return None;
    }
    if (8 * from + letter) * 16 + to < least {
        return None;
    }
    Some((from, letter, to, mark))
}

// The line at `at` of a SHEET file, behind its first number: letter and to. The mark is 0.
fn unmarked_line(
    s: &[u8],
    at: usize,
    n: usize,
    k: usize,
    least: usize,
    from: usize,
) -> Option<(usize, usize, usize, usize)>
    requires { (at < 2 ^ 30) × (n ≤ 16) × (k ≤ 8) }
    ensures { (result ≡ line_from StateBased s.now at n k least from) × TransitionFits result }
{
    let (letter, to) = columns::pair_at(s, at + 4)?;
    transition_of(n, k, least, from, letter, to, 0)
}

// The line at `at` of an SHT-2 file, behind its first number: letter, to and mark.
#[tactic(auto, using(std::proofs::lemmas::Bool::Decides::nat_tests), unfolding(crate::specs::TransitionLines::line_from, crate::specs::TransitionLines::marked_one))]
fn marked_line(
    s: &[u8],
    at: usize,
    n: usize,
    k: usize,
    least: usize,
    from: usize,
) -> Option<(usize, usize, usize, usize)>
    requires { (at < 2 ^ 30) × (n ≤ 16) × (k ≤ 8) }
    ensures { (result ≡ line_from TransitionBased s.now at n k least from) × TransitionFits result }
{
    let letter = columns::number_at(s, at + 4)?;
    let (to, mark) = columns::pair_at(s, at + 7)?;
    if 1 < mark {
        return None;
    }
    transition_of(n, k, least, from, letter, to, mark)
}

// The line at `at`, which begins with T, of its edition's form.
fn transition_line(
    edition: Edition,
    s: &[u8],
    at: usize,
    n: usize,
    k: usize,
    least: usize,
) -> Option<(usize, usize, usize, usize)>
    requires { (at < 2 ^ 30) × (n ≤ 16) × (k ≤ 8) }
    ensures { (result ≡ transition_line_at edition s.now at n k least) × TransitionFits result }
{
    let from = columns::number_at(s, at + 1)?;
    match edition {
        Edition::StateBased => unmarked_line(s, at, n, k, least, from),
        Edition::TransitionBased => marked_line(s, at, n, k, least, from),
    }
}

// State `to` into a cell of the table, where the bit is 1.
fn insert_where(bit: usize, table: &mut [u16], cell: usize, to: usize)
    requires { (bit ≤ 1) × (cell < length table.old) × (to < 16) }
    ensures { table.new ≡ inserted_where bit table.old cell to }
{
    if bit == 1 {
        table[cell] = sets::insert(table[cell], to);
    }
}

// The transition lines, the first of which is line `first` and stands at `start`, and the end. Each transition goes into its set, and into the set of
// marked successors where it is marked. The rows have the superseding letters. A refusal leaves both tables all zero.
pub fn read_transitions(
    edition: Edition,
    s: &[u8],
    rows: &[u8],
    n: usize,
    k: usize,
    first: usize,
    start: usize,
    table: &mut [u16],
    marks: &mut [u16],
) -> Result<(), Refusal>
    requires { (length s.now ≤ most_sheet) × (224 ≤ length rows.now) × (first ≤ 33) × (start ≤ 500) × (n ≤ 16) × (k ≤ 8)
        × (128 ≤ length table.old) × (128 ≤ length marks.old) }
    ensures { FillsTable (transitions_at edition s.now (superseding_in rows.now) n k first start 0
        (transition_sets (take 128 table.old) (take 128 marks.old)) (length s.now + 1))
        (transition_sets table.old marks.old) (transition_sets table.new marks.new) result }
{
    let size = format::transition_width(edition);
    let mut line = first;
    let mut at = start;
    let mut least = 0;
    // A while: how many lines there are, the lines tell.
    while text::reader::opening(s, at) == b'T' {
        let Some((from, letter, to, mark)) = transition_line(edition, s, at, n, k, least) else {
            lent::clear_sets(table, marks);
            return Err(Refusal {
                number: 8,
                line,
                length: 0,
            });
        };
        if superseding::superseding(rows, letter) != 0 {
            lent::clear_sets(table, marks);
            return Err(Refusal {
                number: 16,
                line,
                length: 0,
            });
        }
        let cell = 8 * from + letter;
        table[cell] = sets::insert(table[cell], to);
        insert_where(mark, marks, cell, to);
        least = cell * 16 + to + 1;
        line += 1;
        at += size;
    }
    if let Err(r) = end_line(s, 9, line, at) {
        lent::clear_sets(table, marks);
        return Err(r);
    }
    Ok(())
}
