// The first and the last line, which a sheet file and a plan file share: a word with two numbers, and END.
#![tactic(auto)]

ghost use Rattle.std.specs.Prelude.{◌≡◌, [], ◌<◌, ◌^◌, length};
ghost use Rattle.columns.specs.Pair.{word_and_pair};
ghost use Rattle.frame.specs.Phase.{first_phase, end_at};
ghost use Rattle.frame.specs.Answers.{first_answer, FirstFits, end_answer};

use gate::Refusal;

// What the two numbers of a first line may be: the first from `least` to `most`, the second from `low` to `high`.
#[derive(Clone, Copy)]
pub struct Bounds {
    pub least: usize,
    pub most: usize,
    pub low: usize,
    pub high: usize,
}

// The next line's position and number.
#[derive(Clone, Copy)]
pub struct Position {
    pub at: usize,
    pub line: usize,
}

// A word and two numbers within bounds, or else a refusal: `form` is its number for a line of another form, `range` for numbers out of bounds.
pub fn first_line(
    s: &[u8],
    word: &[u8],
    bounds: Bounds,
    form: u8,
    range: u8,
) -> Result<(usize, usize), Refusal>
    requires { length word.now < 2 ^ 30 }
    ensures { (result ≡ first_answer (first_phase (word_and_pair s.now word.now) bounds (λ a b. (a, b)) form range))
        × FirstFits bounds result }
{
    let Some((a, b)) = columns::word_and_pair(s, word) else {
        return Err(Refusal {
            number: form,
            line: 1,
            length: 0,
        });
    };
    if columns::are_between(a, bounds.least, bounds.most, b, bounds.low, bounds.high) {
        return Ok((a, b));
    }
    Err(Refusal {
        number: range,
        line: 1,
        length: 0,
    })
}

// END, with nothing after it.
pub fn end_line(s: &[u8], number: u8, line: usize, at: usize) -> Result<(), Refusal>
    requires { (line < 2 ^ 30) × (at < 2 ^ 30) }
    ensures { result ≡ end_answer (end_at number s.now line at []) }
{
    if !text::starts_at(s, at, b"END\n") {
        return Err(Refusal {
            number,
            line,
            length: 0,
        });
    }
    if s.len() != at + 4 {
        return Err(Refusal {
            number,
            line: line + 1,
            length: 0,
        });
    }
    Ok(())
}
