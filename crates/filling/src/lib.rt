// The tables of a tracker, filled step by step, and cleared.
#![tactic(auto)]

ghost use Rattle.std.specs.Prelude.{◌≡◌, ◌≤◌, length};
ghost use Rattle.tuple_record.specs.Record.{record_cells};
ghost use Rattle.row_index.specs.Index.{Added};
ghost use Rattle.automaton.specs.Automaton.{automaton};
ghost use Rattle.filling.specs.TrackerTables.{tracker_tables, cleared_tracker};
ghost use Rattle.filling.specs.Fill.{first_cells, first_way, NoRows, Filling, Fills};

use automaton::Numbers;
use tuple_record::WayBack;

// The first tuple becomes tuple 0: its way back is its own number, and 0.
fn begin(a: Numbers, tuples: &mut [u16], head: &mut [u16], link: &mut [u16])
    requires { (a.n ≤ 16) × (record_cells ≤ length tuples.old) × NoRows head.old link.old }
    ensures { Added tuples.old tuples.new 0 (first_cells a.n a.initial) first_way head.new link.new }
{
    let mut w = [0u16; tuple_record::ROW];
    w[0] = a.initial;
    let neutral = colour::Colour::neutral(a.n);
    w[tuple_record::COLOUR] = neutral.0;
    let way = WayBack { from: 0, letter: 0 };
    rows::find_or_add(tuples, 0, 1, &w, way, head, link);
}

// All steps from the first tuple on, in cleared tables: the count of tuples, or none where they are too many for the room.
pub fn fill(
    a: Numbers,
    table: &[u16],
    marks: &[u16],
    room: usize,
    tuples: &mut [u16],
    nexts: &mut [u16],
) -> Option<usize>
    requires { Filling (automaton a table.now marks.now) room (tracker_tables tuples.old nexts.old) }
    ensures { Fills (automaton a table.now marks.now) room (tracker_tables tuples.old nexts.old) (tracker_tables tuples.new nexts.new) result }
{
    let mut head = [0u16; row_index::DIGESTS];
    let mut link = [0u16; row_index::MOST];
    begin(a, tuples, &mut head, &mut link);
    let mut m: usize = 1;
    let mut c: usize = 0;
    // A while: m grows.
    while c < 8 * m {
        m = expanding::expand(
            a, table, marks, room, c, m, tuples, nexts, &mut head, &mut link,
        );
        if room < m {
            return None;
        }
        c += 1;
    }
    Some(m)
}

// Both tables become zero.
pub fn clear(tuples: &mut [u16], nexts: &mut [u16])
    ensures { tracker_tables tuples.new nexts.new ≡ cleared_tracker (tracker_tables tuples.old nexts.old) }
{
    gate::clear(tuples);
    gate::clear(nexts);
}
