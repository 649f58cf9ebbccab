// The transition lines of a table with its marks, in the order of their places.
ghost use Rattle.std.specs.Prelude.{◌≡◌, ℕ, ◌+◌, ◌≤◌, List, length};
ghost use Rattle.std.proofs.lemmas.List.Edits.{sets};
ghost use Rattle.format.specs.Format.{transition_lines};
ghost use Rattle.format.specs.Written.{most_transitions, transitions_of};
ghost use Rattle.sheet_sections.specs.Places.{NextPlace};

use automaton::Edition;

// The first place from `start` on at which a transition stands, or 2048. An empty cell is passed at once.
fn next_place(table: &[u16], start: usize) -> usize
    requires { (128 ≤ length table.now) × (start ≤ most_transitions) }
    ensures { NextPlace table.now start result }
{
    let mut i = start;
    // A while: a turn passes one place, or all that are left of an empty cell.
    while i < 2048 {
        let c = i / 16;
        let set = table[c];
        if set == 0 {
            i = 16 * c + 16;
        } else {
            if sets::contains(set, i % 16) {
                return i;
            }
            i += 1;
        }
    }
    i
}

// How many transitions there are.
pub fn count_transitions(table: &[u16]) -> usize
    requires { 128 ≤ length table.now }
    ensures { ((marks : List ℕ) → result ≡ length (transitions_of table.now marks 0 most_transitions)) × (result ≤ most_transitions) }
{
    let mut count = 0;
    let mut i = next_place(table, 0);
    // A while: from one transition to the next.
    while i < 2048 {
        count += 1;
        i = next_place(table, i + 1);
    }
    count
}

// The lines of all transitions, from `start` on. The answer is the place behind them.
pub fn put_transitions(
    out: &mut [u8],
    start: usize,
    edition: Edition,
    table: &[u16],
    marks: &[u16],
) -> usize
    requires { (128 ≤ length table.now) × (128 ≤ length marks.now)
        × (start + length (transition_lines edition (transitions_of table.now marks.now 0 most_transitions)) ≤ length out.old) }
    ensures { (result ≡ start + length (transition_lines edition (transitions_of table.now marks.now 0 most_transitions)))
        × (out.new ≡ sets out.old start (transition_lines edition (transitions_of table.now marks.now 0 most_transitions))) }
{
    let width = format::transition_width(edition);
    let mut at = start;
    let mut i = next_place(table, 0);
    // A while: from one transition to the next.
    while i < 2048 {
        sheet_lines::put_transition(out, at, edition, marks, i);
        at += width;
        i = next_place(table, i + 1);
    }
    at
}
