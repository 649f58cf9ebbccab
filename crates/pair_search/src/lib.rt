// A breadth-first search among the pairs of states in which two walks on one word end, for the first that joins.
#![tactic(auto)]

ghost use Rattle.std.specs.Prelude.{suc, ◌<◌, ◌≤◌, length};
ghost use Rattle.sets.specs.Sets.{Member};
ghost use Rattle.pairs.specs.Joining.{Backwards};
ghost use Rattle.automaton.specs.Graph.{graph, GraphFits};
ghost use Rattle.queue.specs.Queue.{pair, depth};
ghost use Rattle.pair_search.specs.Search.{Empty, Grown, Started, Guarded, Ready, Closed, Common, Joining, SearchAnswers};

use automaton::GraphNumbers;

// The set y where p is a member of x, and else the empty set.
fn guarded(x: u16, p: usize, y: u16) -> u16
    requires { p < 16 }
    ensures { Guarded x p y result }
{
    if sets::contains(x, p) {
        return y;
    }
    0
}

// The pairs of initial states, from an empty queue.
fn begin(g: GraphNumbers, table: &[u16], queue: &mut [u16]) -> usize
    requires { GraphFits (graph g table.now) × Empty queue.old }
    ensures { Started (graph g table.now) queue.new result 16 }
{
    let mut count = 0;
    for p in 0..16 {
        count = queue::add_row(queue, count, 0, p, guarded(g.initial, p, g.initial), 0);
    }
    count
}

// The pairs to which a pair steps.
fn expand(g: GraphNumbers, table: &[u16], queue: &mut [u16], count: usize, head: usize) -> usize
    requires { Ready (graph g table.now) queue.old count head }
    ensures { Grown (graph g table.now) queue.old count (suc (depth (pair queue.old head))) queue.new result
        × Closed (graph g table.now) queue.new result head }
{
    let e = queue::number(queue, head);
    let d = e / 256 + 1;
    let p = e / 16 % 16;
    let q = e % 16;
    let mut reached = count;
    for j in 0..16 * g.k {
        let l = j / 16;
        let x = j % 16;
        let next = guarded(table[8 * p + l], x, table[8 * q + l]);
        reached = queue::add_row(queue, reached, d, x, next, 8 * head + l);
    }
    reached
}

// The states that count to which p and q both step on a letter.
pub fn common(table: &[u16], counts: u16, p: usize, q: usize, letter: usize) -> u16
    requires { (p < 16) × (q < 16) × (letter < 8) × (128 ≤ length table.now) }
    ensures { Common table.now counts p q letter result }
{
    sets::inter(
        sets::inter(table[8 * p + letter], table[8 * q + letter]),
        counts,
    )
}

// The least letter on which both states of a pair step to one that counts, if there is one.
pub fn joining(table: &[u16], counts: u16, e: usize) -> Option<usize>
    requires { 128 ≤ length table.now }
    ensures { Joining table.now counts e result }
{
    let p = e / 16 % 16;
    let q = e % 16;
    if p == q {
        return None;
    }
    for l in 0..8 {
        if common(table, counts, p, q, l) != 0 {
            return Some(l);
        }
    }
    None
}

// The first pair in the order of the search that joins, if one does.
pub fn explore(g: GraphNumbers, table: &[u16], counts: u16, queue: &mut [u16]) -> Option<usize>
    requires { GraphFits (graph g table.now) × (128 ≤ length table.now) × Backwards (graph g table.now) (Member counts) × Empty queue.old }
    ensures { SearchAnswers (graph g table.now) counts queue.new result }
{
    let mut count = begin(g, table, queue);
    let mut head = 0;
    // A while: the queue grows.
    while head < count {
        if joining(table, counts, queue::number(queue, head)).is_some() {
            return Some(head);
        }
        count = expand(g, table, queue, count, head);
        head += 1;
    }
    None
}
