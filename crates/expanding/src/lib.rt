// One step of a tracker: step c is from tuple c / 8 on letter c % 8.
#![tactic(auto)]

ghost use Rattle.std.specs.Prelude.{◌≡◌, ◌<◌, ◌+◌, ◌/◌, ◌%◌};
ghost use Rattle.tuple_record.specs.Record.{row_at};
ghost use Rattle.automaton.specs.Automaton.{automaton};
ghost use Rattle.tuple.specs.Step.{next};
ghost use Rattle.tuple.specs.Row.{row, tuple_of, Steps};
ghost use Rattle.expanding.specs.Expand.{Entering, Filled, Goes};

use automaton::Numbers;
use tuple_record::WayBack;

// The row that step c enters, from tuple c / 8 on letter c % 8.
fn enter(a: Numbers, table: &[u16], marks: &[u16], tuples: &[u16], c: usize, w: &mut [u16])
    requires { Steps (automaton a table.now marks.now) (c % 8) (row_at tuples.now (c / 8)) × Entering c tuples.now w.old }
    ensures { w.new ≡ row (next (automaton a table.now marks.now) (c % 8) (tuple_of (row_at tuples.now (c / 8)))) }
{
    tuple_record::load(tuples, c / 8, w);
    tuple::step(a, table, marks, c % 8, w);
}

// Step c: the number of the tuple that it enters is noted, and the tuple added, with the step as its way back, where it is new and there is room.
pub fn expand(
    a: Numbers,
    table: &[u16],
    marks: &[u16],
    room: usize,
    c: usize,
    m: usize,
    tuples: &mut [u16],
    nexts: &mut [u16],
    head: &mut [u16],
    link: &mut [u16],
) -> usize
    requires { Filled (automaton a table.now marks.now) room c m tuples.old nexts.old head.old link.old × (c / 8 < m) }
    ensures { Goes (automaton a table.now marks.now) room (c + 1) result tuples.new nexts.new head.new link.new }
{
    if a.k <= c % 8 {
        return m;
    }
    let mut w = [0u16; tuple_record::ROW];
    enter(a, table, marks, tuples, c, &mut w);
    let way = WayBack {
        from: (c / 8) as u16,
        letter: (c % 8) as u16,
    };
    let t = rows::find_or_add(tuples, m, room, &w, way, head, link);
    let over = room <= t;
    if over {
        return m + 1;
    }
    nexts[c] = t as u16;
    if t < m {
        return m;
    }
    m + 1
}
