// The states that begin an endless path of transitions: the only ones at which a meeting of walks counts.
#![tactic(auto)]

ghost use Rattle.std.specs.Prelude.{◌≤◌, ◌<◌, length};
ghost use Rattle.gate.specs.Gate.{Decides};
ghost use Rattle.automaton.specs.Graph.{graph, GraphFits};
ghost use Rattle.endless.specs.Closed.{EndlessStates, StepsInto, Stays};

use automaton::GraphNumbers;

// Has q a transition into the set?
fn steps_into(g: GraphNumbers, table: &[u16], set: u16, q: usize) -> bool
    requires { GraphFits (graph g table.now) × (128 ≤ length table.now) × (q < g.n) }
    ensures { Decides result (StepsInto (graph g table.now) set q) }
{
    for l in 0..g.k {
        if sets::inter(table[8 * q + l], set) != 0 {
            return true;
        }
    }
    false
}

// Is q no member of the set, or has it a transition into it?
fn stays(g: GraphNumbers, table: &[u16], set: u16, q: usize) -> bool
    requires { GraphFits (graph g table.now) × (128 ≤ length table.now) × (q < g.n) }
    ensures { Decides result (Stays (graph g table.now) set q) }
{
    !sets::contains(set, q) || steps_into(g, table, set, q)
}

// The states that begin an endless path. A state that does not stay is taken away, and then all are asked anew.
pub fn states(g: GraphNumbers, table: &[u16]) -> u16
    requires { GraphFits (graph g table.now) × (128 ≤ length table.now) }
    ensures { EndlessStates (graph g table.now) result }
{
    let mut set = sets::below(g.n);
    let mut q = 0;
    // A while: q starts again.
    while q < g.n {
        if stays(g, table, set, q) {
            q += 1;
        } else {
            set = sets::minus(set, sets::single(q));
            q = 0;
        }
    }
    set
}
