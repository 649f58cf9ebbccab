// Building the tracker of a sheet file in lent tables that are long enough: its questions, its successor sets and marks, and every tuple that some word reaches.
#![tactic(auto)]

ghost use Rattle.std.specs.Prelude.{◌≤◌, length};
ghost use Rattle.automaton.specs.Automaton.{transition_sets};
ghost use Rattle.lent.specs.Lent.{witness_tables};
ghost use Rattle.filling.specs.TrackerTables.{tracker_tables};
ghost use Rattle.tracker.specs.Build.{build_tables, EnoughToBuild};
ghost use Rattle.building.specs.FileBuild.{BuildsNamed};

use gate::Refusal;
use reading::read_long;
use tracker::Tracker;

// Questions 2 to 11 on a sheet file, in tables that are long enough: its tracker, and its composed names in rows. A refusal leaves the rows all zero.
pub fn build_long(
    sheet: &[u8],
    room: usize,
    table: &mut [u16],
    marks: &mut [u16],
    rows: &mut [u8],
    tuples: &mut [u16],
    nexts: &mut [u16],
    word: &mut [u16],
    one: &mut [u16],
    other: &mut [u16],
) -> Result<Tracker, Refusal>
    requires { EnoughToBuild room (build_tables (transition_sets table.old marks.old) (witness_tables word.old one.old other.old) (tracker_tables tuples.old nexts.old)) × (224 ≤ length rows.old) }
    ensures { BuildsNamed sheet.now room
        (build_tables (transition_sets table.old marks.old) (witness_tables word.old one.old other.old) (tracker_tables tuples.old nexts.old))
        (build_tables (transition_sets table.new marks.new) (witness_tables word.new one.new other.new) (tracker_tables tuples.new nexts.new))
        rows.old rows.new result }
{
    match read_long(sheet, table, marks, rows, word, one, other) {
        Err(r) => {
            filling::clear(tuples, nexts);
            Err(r)
        }
        Ok(a) => {
            let built = tracker::track(a, &table[..128], &marks[..128], room, tuples, nexts);
            if let Err(_) = built {
                lent::clear_sets(table, marks);
                gate::clear_bytes(rows);
            }
            built
        }
    }
}
