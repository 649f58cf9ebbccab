// How one gets to a tuple of the tracker of a sheet file: a shortest word to it, in lent letters.
#![tactic(auto)]

ghost use Rattle.gate.specs.Gate.{Decides};
ghost use Rattle.automaton.specs.Automaton.{transition_sets};
ghost use Rattle.lent.specs.Lent.{witness_tables};
ghost use Rattle.filling.specs.TrackerTables.{tracker_tables};
ghost use Rattle.tracker.specs.Build.{build_tables};
ghost use Rattle.file_way.specs.FileWay.{way_tables, EnoughForWay, ShowsWay};
ghost use Rattle.file_way.specs.Finish.{Followable, Finished};

use gate::Refusal;
use tracker::Tracker;

// Question 1: the tables of building, and a letter for each tuple of the room.
fn enough(
    room: usize,
    table: &[u16],
    marks: &[u16],
    tuples: &[u16],
    nexts: &[u16],
    word: &[u16],
    one: &[u16],
    other: &[u16],
    letters: &[u16],
) -> bool
    ensures { Decides result (EnoughForWay room (way_tables
        (build_tables (transition_sets table.now marks.now) (witness_tables word.now one.now other.now) (tracker_tables tuples.now nexts.now))
        letters.now)) }
{
    if letters.len() < room {
        return false;
    }
    tracker::enough(room, table, marks, tuples, nexts, word, one, other)
}

// Behind building: how long the word to tuple t is, if there is a tracker and it has this tuple. Else the letters become all zero.
fn finish(
    built: Result<Tracker, Refusal>,
    t: usize,
    tuples: &[u16],
    letters: &mut [u16],
) -> Result<Option<usize>, Refusal>
    requires { Followable built tuples.now letters.old }
    ensures { Finished built t tuples.now letters.old letters.new result }
{
    match built {
        Err(r) => {
            gate::clear(letters);
            Err(r)
        }
        Ok(x) => {
            if x.tuples <= t {
                gate::clear(letters);
                return Ok(None);
            }
            Ok(Some(ways::spell(tuples, x.tuples, t, letters)))
        }
    }
}

// How long a shortest word to tuple t of the tracker of a sheet file is, with the word in the letters; none where the tracker has no tuple t.
// Lent are, for the room R, what building is lent, and R letters.
pub fn way_to(
    sheet: &[u8],
    room: usize,
    t: usize,
    table: &mut [u16],
    marks: &mut [u16],
    tuples: &mut [u16],
    nexts: &mut [u16],
    word: &mut [u16],
    one: &mut [u16],
    other: &mut [u16],
    letters: &mut [u16],
) -> Result<Option<usize>, Refusal>
    ensures { ShowsWay sheet.now room t
        (way_tables (build_tables (transition_sets table.old marks.old) (witness_tables word.old one.old other.old)
        (tracker_tables tuples.old nexts.old)) letters.old)
        (way_tables (build_tables (transition_sets table.new marks.new) (witness_tables word.new one.new other.new)
        (tracker_tables tuples.new nexts.new)) letters.new) result }
{
    if !enough(room, table, marks, tuples, nexts, word, one, other, letters) {
        return Err(Refusal {
            number: 1,
            line: 0,
            length: 0,
        });
    }
    let built = file_tracker::build(sheet, room, table, marks, tuples, nexts, word, one, other);
    finish(built, t, tuples, letters)
}
