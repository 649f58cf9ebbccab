// The state lines of a sheet: question 7.
#![tactic(auto)]

ghost use Rattle.std.specs.Prelude.{◌≡◌, ◌<◌, ◌≤◌, ◌^◌};
ghost use Rattle.automaton.specs.declared.Edition.TheVariants.{StateBased, TransitionBased};
ghost use Rattle.state_lines.specs.StateLines.{state_line_at, states_at, FlagsFit, states_answer, SetsFit};

use automaton::Edition;
use gate::Refusal;

// The initial and the must-recur set of the state lines, and the next line's position and number.
#[derive(Clone, Copy)]
pub struct Sets {
    pub initial: u16,
    pub recurring: u16,
    pub at: usize,
    pub line: usize,
}

// The line of state q in a SHEET file: its initial and its must-recur flag, each 0 or 1.
#[tactic(auto, using(std::proofs::lemmas::Grind::common_steps), unfolding(crate::specs::StateLines::state_line_at))]
fn flags_line(s: &[u8], at: usize, q: usize) -> Option<(usize, usize)>
    requires { at < 2 ^ 30 }
    ensures { (result ≡ state_line_at StateBased s.now at q) × FlagsFit result }
{
    if !columns::is_numbered(s, at, b'S', q) {
        return None;
    }
    let (i, r) = columns::pair_at(s, at + 4)?;
    if columns::are_between(i, 0, 1, r, 0, 1) {
        return Some((i, r));
    }
    None
}

// The line of state q in an SHT-2 file: its one flag, 0 or 1, and 0 for the other.
#[tactic(auto, using(std::proofs::lemmas::Grind::common_steps), unfolding(crate::specs::StateLines::state_line_at))]
fn flag_line(s: &[u8], at: usize, q: usize) -> Option<(usize, usize)>
    requires { at < 2 ^ 30 }
    ensures { (result ≡ state_line_at TransitionBased s.now at q) × FlagsFit result }
{
    if text::reader::opening(s, at) != b'S' {
        return None;
    }
    let (p, i) = columns::pair_at(s, at + 1)?;
    if columns::are_between(p, q, q, i, 0, 1) {
        return Some((i, 0));
    }
    None
}

// The line of state q, of its edition's form.
fn state_line(edition: Edition, s: &[u8], at: usize, q: usize) -> Option<(usize, usize)>
    requires { at < 2 ^ 30 }
    ensures { (result ≡ state_line_at edition s.now at q) × FlagsFit result }
{
    match edition {
        Edition::StateBased => flags_line(s, at, q),
        Edition::TransitionBased => flag_line(s, at, q),
    }
}

// The lines of n states, the first of which is line `first` and stands at `start`.
pub fn read_states(
    edition: Edition,
    s: &[u8],
    first: usize,
    start: usize,
    n: usize,
) -> Result<Sets, Refusal>
    requires { (first ≤ 17) × (start ≤ 308) × (n ≤ 16) }
    ensures { (result ≡ states_answer (states_at edition s.now first start 0 0 0 n)) × SetsFit result }
{
    let size = format::state_width(edition);
    let mut line = first;
    let mut at = start;
    let mut bit = 1;
    let mut initial = 0;
    let mut recurring = 0;
    for q in 0..n {
        let Some((i, r)) = state_line(edition, s, at, q) else {
            return Err(Refusal {
                number: 7,
                line,
                length: 0,
            });
        };
        initial += i * bit;
        recurring += r * bit;
        bit *= 2;
        line += 1;
        at += size;
    }
    Ok(Sets {
        initial: initial as u16,
        recurring: recurring as u16,
        at,
        line,
    })
}
