// The tracker of a sheet file: its questions, its successor sets and marks, and every tuple that some word reaches, in lent tables.
#![tactic(auto)]

ghost use Rattle.automaton.specs.Automaton.{transition_sets};
ghost use Rattle.lent.specs.Lent.{witness_tables};
ghost use Rattle.filling.specs.TrackerTables.{tracker_tables};
ghost use Rattle.tracker.specs.Build.{build_tables};
ghost use Rattle.building.specs.FileBuild.{Builds};

use building::build_long;
use gate::Refusal;
use tracker::Tracker;

// A tracker from a sheet file.
pub fn build(
    sheet: &[u8],
    room: usize,
    table: &mut [u16],
    marks: &mut [u16],
    tuples: &mut [u16],
    nexts: &mut [u16],
    word: &mut [u16],
    one: &mut [u16],
    other: &mut [u16],
) -> Result<Tracker, Refusal>
    ensures { Builds sheet.now room
        (build_tables (transition_sets table.old marks.old) (witness_tables word.old one.old other.old) (tracker_tables tuples.old nexts.old))
        (build_tables (transition_sets table.new marks.new) (witness_tables word.new one.new other.new) (tracker_tables tuples.new nexts.new)) result }
{
    if !tracker::enough(room, table, marks, tuples, nexts, word, one, other) {
        return Err(Refusal {
            number: 1,
            line: 0,
            length: 0,
        });
    }
    let mut rows = [0u8; 224];
    build_long(
        sheet, room, table, marks, &mut rows, tuples, nexts, word, one, other,
    )
}
