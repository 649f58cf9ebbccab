// One step of the tuple, on its row: the sets, the non-empty ones first, and the colour.
#![tactic(auto)]

ghost use Rattle.std.specs.Prelude.{◌≡◌, ◌+◌, ◌≤◌, ◌<◌, length};
ghost use Rattle.tuple_record.specs.Record.{row_cells};
ghost use Rattle.automaton.specs.Automaton.{automaton};
ghost use Rattle.tuple.specs.Step.{is_marked, next};
ghost use Rattle.tuple.specs.Parts.{out_of, Advanced, recurrent_from, Unions, Swept, Placed, settled};
ghost use Rattle.tuple.specs.Row.{row, tuple_of, Steps};

use automaton::{Edition, Numbers};
use colour::Colour;

// Is a place with set x marked, where the later places have the members given?
fn is_marked(x: u16, later: u16) -> bool
    ensures { result ≡ is_marked x later }
{
    x != 0 && sets::within(x, later)
}

// What is removed from all later places, after the turn of a place with set x.
fn out_of(mark: bool, out: u16, x: u16) -> u16
    ensures { result ≡ out_of mark out x }
{
    if mark { sets::union(out, x) } else { out }
}

// The targets of the recurrent transitions from set 0, which was `old` before the step and is `first`.
fn recurrent_of(a: Numbers, marks: &[u16], letter: usize, old: u16, first: u16) -> u16
    requires { letter < 8 }
    ensures { result ≡ recurrent_from a.edition a.recurring marks.now letter old first }
{
    let edition = a.edition;
    match edition {
        Edition::StateBased => sets::inter(first, a.recurring),
        Edition::TransitionBased => automaton::marked_successors(marks, letter, old),
    }
}

// Replaces each set by its successors, and gives the count of sets.
fn advance(table: &[u16], letter: usize, w: &mut [u16]) -> usize
    requires { (letter < 8) × (length w.old ≡ row_cells) }
    ensures { Advanced table.now letter w.old w.new result }
{
    for i in 0..tuple_record::SETS {
        let x = w[i];
        if x == 0 {
            return i;
        }
        w[i] = automaton::successors(table, letter, x);
    }
    tuple_record::SETS
}

// The members of the places behind each of the first count places.
fn unions(w: &[u16], count: usize, later: &mut [u16])
    requires { (count ≤ length w.now) × (count ≤ length later.old) }
    ensures { Unions count w.now later.new }
{
    let mut all: u16 = 0;
    for i in (0..count).rev() {
        later[i] = all;
        all = sets::union(w[i], all);
    }
}

// The marking pass over the places 0 to p, closing up as it goes, and the least colour of a place. Mark and colour go by the place before closing
// up: by i, and by x, its set.
fn sweep(n: usize, p: usize, later: &[u16], w: &mut [u16]) -> Colour
    requires { (n ≤ 16) × (p ≤ 16) × (length w.old ≡ row_cells) × (length later.now ≡ row_cells) × Unions (p + 1) w.old later.now }
    ensures { Swept n p (p + 1) w.old w.new result.0 }
{
    let mut colour = Colour::neutral(n);
    let mut out: u16 = 0;
    let mut j: usize = 0;
    for i in 0..p + 1 {
        let x = sets::minus(w[i], out);
        w[i] = 0;
        if x != 0 {
            w[j] = x;
            j += 1;
        }
        let mark = is_marked(x, later[i]);
        colour = colour.least(colour::colour_at(n, i, p, x, mark));
        out = out_of(mark, out, x);
    }
    colour
}

// Points 1 and 2 of the step: the successors of each set, and behind them the new set. Gives the count of sets before the step.
fn place_sets(a: Numbers, table: &[u16], marks: &[u16], letter: usize, w: &mut [u16]) -> usize
    requires { Steps (automaton a table.now marks.now) letter w.old }
    ensures { Placed (automaton a table.now marks.now) letter w.old w.new result }
{
    let old = w[0];
    let p = advance(table, letter, w);
    let first = w[0];
    w[p] = recurrent_of(a, marks, letter, old, first);
    p
}

// Points 3 to 5 over the places 0 to p, and the colour in the last cell.
fn settle(n: usize, p: usize, w: &mut [u16])
    requires { (n ≤ 16) × (p ≤ 16) × (length w.old ≡ row_cells) }
    ensures { w.new ≡ settled n p w.old }
{
    let mut later = [0u16; tuple_record::ROW];
    unions(w, p + 1, &mut later);
    let first = w[0];
    let colour = colour::dead_or(first, sweep(n, p, &later, w));
    w[tuple_record::COLOUR] = colour.0;
}

// The step on a letter from the tuple whose row is given. The colour's cell serves as the spare place until the colour is known.
pub fn step(a: Numbers, table: &[u16], marks: &[u16], letter: usize, w: &mut [u16])
    requires { Steps (automaton a table.now marks.now) letter w.old }
    ensures { w.new ≡ row (next (automaton a table.now marks.now) letter (tuple_of w.old)) }
{
    let p = place_sets(a, table, marks, letter, w);
    settle(a.n, p, w);
}
