// The tracker: every tuple that some word reaches, numbered as found, in lent tables.
#![tactic(auto)]

ghost use Rattle.automaton.specs.Automaton.{transition_sets, automaton, Fits};
ghost use Rattle.gate.specs.Gate.{Decides};
ghost use Rattle.lent.specs.Lent.{witness_tables};
ghost use Rattle.filling.specs.TrackerTables.{tracker_tables, EnoughForTracker};
ghost use Rattle.tracker.specs.Build.{build_numbers_tables, build_tables, EnoughToBuild, Tracks, BuildsNumbers};

use automaton::Numbers;
use gate::Refusal;

// A tracker that was built: the sheet's numbers, and how many tuples the tables hold.
#[derive(Clone, Copy)]
pub struct Tracker {
    pub numbers: Numbers,
    pub tuples: usize,
}

// Question 1 of a call that takes a sheet and a room.
pub fn enough(
    room: usize,
    table: &[u16],
    marks: &[u16],
    tuples: &[u16],
    nexts: &[u16],
    word: &[u16],
    one: &[u16],
    other: &[u16],
) -> bool
    ensures { Decides result (EnoughToBuild room
        (build_tables (transition_sets table.now marks.now) (witness_tables word.now one.now other.now) (tracker_tables tuples.now nexts.now))) }
{
    if room < 1 {
        return false;
    }
    if 1024 < room {
        return false;
    }
    if tuples.len() < tuple_record::RECORD * room {
        return false;
    }
    if nexts.len() < 8 * room {
        return false;
    }
    lent::long_enough(table, marks, word, one, other)
}

// Question 11 on an automaton that fits, in tables with any contents.
pub fn track(
    a: Numbers,
    table: &[u16],
    marks: &[u16],
    room: usize,
    tuples: &mut [u16],
    nexts: &mut [u16],
) -> Result<Tracker, Refusal>
    requires { Fits (automaton a table.now marks.now) × EnoughForTracker room (tracker_tables tuples.old nexts.old) }
    ensures { Tracks (automaton a table.now marks.now) room
        (tracker_tables tuples.old nexts.old) (tracker_tables tuples.new nexts.new) result }
{
    filling::clear(tuples, nexts);
    let Some(m) = filling::fill(a, table, marks, room, tuples, nexts) else {
        filling::clear(tuples, nexts);
        return Err(Refusal {
            number: 11,
            line: 0,
            length: 0,
        });
    };
    Ok(Tracker {
        numbers: a,
        tuples: m,
    })
}

// A tracker from a sheet as numbers.
pub fn build_numbers(
    a: Numbers,
    table: &[u16],
    marks: &[u16],
    room: usize,
    tuples: &mut [u16],
    nexts: &mut [u16],
    word: &mut [u16],
    one: &mut [u16],
    other: &mut [u16],
) -> Result<Tracker, Refusal>
    ensures { BuildsNumbers (automaton a table.now marks.now) room
        (build_numbers_tables (witness_tables word.old one.old other.old) (tracker_tables tuples.old nexts.old))
        (build_numbers_tables (witness_tables word.new one.new other.new) (tracker_tables tuples.new nexts.new)) result }
{
    if !enough(room, table, marks, tuples, nexts, word, one, other) {
        return Err(Refusal {
            number: 1,
            line: 0,
            length: 0,
        });
    }
    if let Err(r) = walks::check_long(a, table, marks, word, one, other) {
        filling::clear(tuples, nexts);
        return Err(r);
    }
    track(a, table, marks, room, tuples, nexts)
}
