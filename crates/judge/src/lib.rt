// The verdict from two files: a plan judged on the tracker of a sheet.
#![tactic(auto)]

ghost use Rattle.gate.specs.Gate.{Decides};
ghost use Rattle.automaton.specs.Automaton.{transition_sets};
ghost use Rattle.lent.specs.Lent.{witness_tables};
ghost use Rattle.filling.specs.TrackerTables.{tracker_tables};
ghost use Rattle.tracker.specs.Build.{build_tables};
ghost use Rattle.plan_verdict.specs.Verdict.{SizesFit, Judgement};

use gate::Refusal;
use judging::judge_long;
use passes::Verdict;

// Question 2, of both files.
fn sizes_fit(sheet: &[u8], plan: &[u8]) -> bool
    ensures { Decides result (SizesFit sheet.now plan.now) }
{
    if parser::MOST < sheet.len() {
        return false;
    }
    if plan::MOST < plan.len() {
        return false;
    }
    true
}

// The verdict on a plan file, from a sheet file: all questions in their order, then the passes of the cycle on the sheet's tracker.
// Lent are, for the room, what building is lent: successor sets, sets of marked successors, tuple numbers, next numbers, and a witness.
pub fn verdict(
    sheet: &[u8],
    plan: &[u8],
    room: usize,
    table: &mut [u16],
    marks: &mut [u16],
    tuples: &mut [u16],
    nexts: &mut [u16],
    word: &mut [u16],
    one: &mut [u16],
    other: &mut [u16],
) -> Result<Verdict, Refusal>
    ensures { Judgement sheet.now plan.now room
        (build_tables (transition_sets table.old marks.old) (witness_tables word.old one.old other.old) (tracker_tables tuples.old nexts.old))
        (build_tables (transition_sets table.new marks.new) (witness_tables word.new one.new other.new) (tracker_tables tuples.new nexts.new)) result }
{
    if !tracker::enough(room, table, marks, tuples, nexts, word, one, other) {
        return Err(Refusal {
            number: 1,
            line: 0,
            length: 0,
        });
    }
    if !sizes_fit(sheet, plan) {
        lent::clear_sets(table, marks);
        filling::clear(tuples, nexts);
        lent::clear_witness(word, one, other);
        return Err(Refusal {
            number: 2,
            line: 0,
            length: 0,
        });
    }
    judge_long(
        sheet, plan, room, table, marks, tuples, nexts, word, one, other,
    )
}
