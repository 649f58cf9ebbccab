// A plan file judged on the tracker of a sheet file, in lent tables that are long enough.
#![tactic(auto)]

ghost use Rattle.automaton.specs.Automaton.{transition_sets};
ghost use Rattle.lent.specs.Lent.{witness_tables};
ghost use Rattle.filling.specs.TrackerTables.{tracker_tables};
ghost use Rattle.tracker.specs.Build.{build_tables, EnoughToBuild};
ghost use Rattle.plan_verdict.specs.Verdict.{SizesFit, Judgement};

use building::build_long;
use gate::Refusal;
use passes::Verdict;
use plan_verdict::{clear_refused, judge_plan};

// Questions 3 to 14, and the verdict, in tables that are long enough and on files that are not too long.
pub fn judge_long(
    sheet: &[u8],
    plan: &[u8],
    room: usize,
    table: &mut [u16],
    marks: &mut [u16],
    tuples: &mut [u16],
    nexts: &mut [u16],
    word: &mut [u16],
    one: &mut [u16],
    other: &mut [u16],
) -> Result<Verdict, Refusal>
    requires { EnoughToBuild room (build_tables (transition_sets table.old marks.old) (witness_tables word.old one.old other.old) (tracker_tables tuples.old nexts.old)) × SizesFit sheet.now plan.now }
    ensures { Judgement sheet.now plan.now room
        (build_tables (transition_sets table.old marks.old) (witness_tables word.old one.old other.old) (tracker_tables tuples.old nexts.old))
        (build_tables (transition_sets table.new marks.new) (witness_tables word.new one.new other.new) (tracker_tables tuples.new nexts.new)) result }
{
    let mut rows = [0u8; 224];
    let x = build_long(
        sheet, room, table, marks, &mut rows, tuples, nexts, word, one, other,
    )?;
    let judged = judge_plan(plan, &mut rows, x.numbers.k, tuples, nexts, x.tuples);
    clear_refused(judged, table, marks, tuples, nexts)
}
