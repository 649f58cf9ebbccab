// The state lines.
ghost use Rattle.std.specs.Prelude.{◌≡◌, ◌+◌, ◌≤◌, length};
ghost use Rattle.std.proofs.lemmas.List.Edits.{sets};
ghost use Rattle.format.specs.Format.{state_lines};
ghost use Rattle.format.specs.Written.{states_of};

use automaton::Edition;

// The lines of n states, from `start` on. The answer is the place behind them.
pub fn put_states(
    out: &mut [u8],
    start: usize,
    edition: Edition,
    n: usize,
    initial: u16,
    recurring: u16,
) -> usize
    requires { (n ≤ 16) × (start + length (state_lines edition 0 (states_of initial recurring 0 n)) ≤ length out.old) }
    ensures { (result ≡ start + length (state_lines edition 0 (states_of initial recurring 0 n)))
        × (out.new ≡ sets out.old start (state_lines edition 0 (states_of initial recurring 0 n))) }
{
    let width = format::state_width(edition);
    let mut at = start;
    for q in 0..n {
        sheet_lines::put_state(out, at, edition, q, initial, recurring);
        at += width;
    }
    at
}
