// The queue of a breadth-first search among pairs of states, in one table: Queue.antt says where what stands.
#![tactic(auto)]

ghost use Rattle.std.specs.Prelude.{◌≡◌, ◌<◌, length, get_or};
ghost use Rattle.queue.specs.Queue.{Open, Longer, Only, Below};

pub fn number(table: &[u16], i: usize) -> usize
    requires { i < length table.now }
    ensures { result ≡ get_or table.now i 0 }
{
    table[i] as usize
}

// The pair of p and q, if q is a member of the set and the pair is not in the queue. The answer is the new count of pairs.
fn add(
    queue: &mut [u16],
    count: usize,
    depth: usize,
    p: usize,
    set: u16,
    q: usize,
    origin: usize,
) -> usize
    requires { Open queue.old count depth p × (q < 16) × (origin < 2048) }
    ensures { Longer queue.old count depth p (Only set q) origin queue.new result }
{
    let companions = queue[512 + p];
    if sets::contains(sets::minus(set, companions), q) {
        queue[count] = (256 * depth + 16 * p + q) as u16;
        queue[256 + count] = origin as u16;
        queue[512 + p] = sets::insert(companions, q);
        return count + 1;
    }
    count
}

// The pairs of p and the members of a set that are not in the queue.
pub fn add_row(
    queue: &mut [u16],
    count: usize,
    depth: usize,
    p: usize,
    set: u16,
    origin: usize,
) -> usize
    requires { Open queue.old count depth p × (origin < 2048) }
    ensures { Longer queue.old count depth p (Below set 16) origin queue.new result }
{
    if sets::within(set, queue[512 + p]) {
        return count;
    }
    let mut reached = count;
    for q in 0..16 {
        reached = add(queue, reached, depth, p, set, q, origin);
    }
    reached
}
