// Meeting walks: whether there are any, and a shortest pair of them, traced back from where the search among pairs ends.
#![tactic(auto)]

ghost use Rattle.std.specs.Prelude.{◌≡◌, ℕ, ◌<◌, length};
ghost use Rattle.sets.specs.Sets.{Member};
ghost use Rattle.pairs.specs.Joining.{Backwards};
ghost use Rattle.automaton.specs.Graph.{graph};
ghost use Rattle.automaton.specs.Meeting.{Witness};
ghost use Rattle.lent.specs.Lent.{witness_tables};
ghost use Rattle.meeting.specs.Answer.{Asked, Answered};
ghost use Rattle.pair_search.specs.Search.{MeetingFound};
ghost use Rattle.meeting.specs.Trace.{noted, Traceable, Leads};

use automaton::GraphNumbers;

// The least member of a set that has one.
fn member(set: u16) -> usize
    requires { set ≡ 0 → ⊥ }
    ensures { (result < 16) × Member set result }
{
    for q in 0..15 {
        if sets::contains(set, q) {
            return q;
        }
    }
    15
}

// Letter l and the states of pair e at time t.
fn note(word: &mut [u16], one: &mut [u16], other: &mut [u16], t: usize, l: usize, e: usize)
    requires { (l < 8) × (t < length word.old) × (t < length one.old) × (t < length other.old) }
    ensures { witness_tables word.new one.new other.new ≡ noted
        (witness_tables word.old one.old other.old) t l e }
{
    word[t] = l as u16;
    one[t] = (e / 16 % 16) as u16;
    other[t] = (e % 16) as u16;
}

// From pair head, d letters deep, back to a pair of initial states.
fn trace(queue: &[u16], head: usize, d: usize, word: &mut [u16], one: &mut [u16], other: &mut [u16])
    requires { Traceable queue.now head d (witness_tables word.old one.old other.old) }
    ensures { (i : ℕ) × Leads queue.now head d 0 i (witness_tables word.old one.old other.old)
        (witness_tables word.new one.new other.new) }
{
    let mut i = head;
    for t in (0..d).rev() {
        let o = queue::number(queue, 256 + i);
        i = o / 8;
        note(word, one, other, t, o % 8, queue::number(queue, i));
    }
}

// A shortest meeting by way of pair `head`, which joins: its word and walks, in the tables. The answer is its length.
fn witness(
    g: GraphNumbers,
    table: &[u16],
    counts: u16,
    queue: &[u16],
    head: usize,
    word: &mut [u16],
    one: &mut [u16],
    other: &mut [u16],
) -> usize
    requires { Asked (graph g table.now) (witness_tables word.old one.old other.old) × MeetingFound (graph g table.now) counts queue.now head }
    ensures { (0 < result) × Witness (graph g table.now) (Member counts) result word.new one.new other.new }
{
    let e = queue::number(queue, head);
    let d = e / 256;
    let p = e / 16 % 16;
    let q = e % 16;
    let l = pair_search::joining(table, counts, e).unwrap();
    let z = member(pair_search::common(table, counts, p, q, l)) as u16;
    note(word, one, other, d, l, e);
    one[d + 1] = z;
    other[d + 1] = z;
    trace(queue, head, d, word, one, other);
    d + 1
}

// Question 10 where a meeting counts at the states of a set: the length of a shortest word with meeting walks, if there are any.
pub fn search(
    g: GraphNumbers,
    table: &[u16],
    counts: u16,
    word: &mut [u16],
    one: &mut [u16],
    other: &mut [u16],
) -> Option<usize>
    requires { Asked (graph g table.now) (witness_tables word.old one.old other.old) × Backwards (graph g table.now) (Member counts) }
    ensures { Answered (graph g table.now) (Member counts) (witness_tables word.old one.old other.old)
        (witness_tables word.new one.new other.new) result }
{
    let mut queue = [0u16; 528];
    let head = pair_search::explore(g, table, counts, &mut queue)?;
    Some(witness(g, table, counts, &queue, head, word, one, other))
}
