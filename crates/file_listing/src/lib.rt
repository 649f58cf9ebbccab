// The listing of a tracker from a sheet file.
#![tactic(auto)]

ghost use Rattle.std.specs.Prelude.{◌≡◌};
ghost use Rattle.automaton.specs.Automaton.{transition_sets};
ghost use Rattle.lent.specs.Lent.{witness_tables, cleared_sets};
ghost use Rattle.filling.specs.TrackerTables.{tracker_tables};
ghost use Rattle.tracker.specs.Build.{build_tables};
ghost use Rattle.listing.specs.List.{Left};
ghost use Rattle.file_listing.specs.FileList.{list_tables, Lists};

use gate::Refusal;

// With a refusal of the last question the successor sets and the marks are cleared too. The answer stays.
fn clear_refused(
    listed: Result<usize, Refusal>,
    table: &mut [u16],
    marks: &mut [u16],
) -> Result<usize, Refusal>
    ensures { (result ≡ listed) × Left (cleared_sets (transition_sets table.old marks.old)) (transition_sets table.old marks.old)
        (transition_sets table.new marks.new) result }
{
    if let Err(_) = listed {
        lent::clear_sets(table, marks);
    }
    listed
}

// The listing of the tracker of a sheet file.
pub fn list(
    sheet: &[u8],
    room: usize,
    table: &mut [u16],
    marks: &mut [u16],
    tuples: &mut [u16],
    nexts: &mut [u16],
    word: &mut [u16],
    one: &mut [u16],
    other: &mut [u16],
    out: &mut [u8],
) -> Result<usize, Refusal>
    ensures { Lists sheet.now room
        (list_tables (build_tables (transition_sets table.old marks.old) (witness_tables word.old one.old other.old)
        (tracker_tables tuples.old nexts.old)) out.old)
        (list_tables (build_tables (transition_sets table.new marks.new) (witness_tables word.new one.new other.new)
        (tracker_tables tuples.new nexts.new)) out.new) result }
{
    match file_tracker::build(sheet, room, table, marks, tuples, nexts, word, one, other) {
        Err(r) => gate::refuse(r, out),
        Ok(x) => {
            let listed = listing::finish(x.numbers.n, x.numbers.k, x.tuples, tuples, nexts, out);
            clear_refused(listed, table, marks)
        }
    }
}
