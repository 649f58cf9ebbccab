// The call that judges a plan.
ghost use Rattle.automaton.specs.Automaton.{transition_sets};
ghost use Rattle.lent.specs.Lent.{witness_tables};
ghost use Rattle.filling.specs.TrackerTables.{tracker_tables};
ghost use Rattle.tracker.specs.Build.{build_tables};
ghost use Rattle.plan_verdict.specs.Verdict.{Judgement};
ghost use Rattle.cells.specs.Cells.{InNumbers};
ghost use Rattle.answers.specs.Answer.{outcome_cells};

// `judge::verdict`
#[unsafe(no_mangle)]
pub extern "C" fn lunthomi_verdict(
    sheet: &[u8],
    plan: &[u8],
    room: usize,
    table: &mut [u16],
    marks: &mut [u16],
    tuples: &mut [u16],
    nexts: &mut [u16],
    word: &mut [u16],
    one: &mut [u16],
    other: &mut [u16],
    answer: &mut [usize],
)
    ensures { InNumbers (Judgement sheet.now plan.now room
        (build_tables (transition_sets table.old marks.old) (witness_tables word.old one.old other.old) (tracker_tables tuples.old nexts.old))
        (build_tables (transition_sets table.new marks.new) (witness_tables word.new one.new other.new) (tracker_tables tuples.new nexts.new)))
        outcome_cells answer.old answer.new }
{
    let r = judge::verdict(
        sheet, plan, room, table, marks, tuples, nexts, word, one, other,
    );
    answers::put_outcome(r, answer);
}
