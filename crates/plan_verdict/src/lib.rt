// A plan file judged on a tracker's tables.
#![tactic(auto)]

ghost use Rattle.std.specs.Prelude.{◌≡◌, ◌≤◌, length};
ghost use Rattle.name_rows.specs.Rows.{OnlyRow};
ghost use Rattle.automaton.specs.Automaton.{transition_sets};
ghost use Rattle.format.specs.Format.{Sheet};
ghost use Rattle.parser.specs.LettersOf.{LettersIn};
ghost use Rattle.plan_lines.specs.PlanLines.{most_plan};
ghost use Rattle.filling.specs.TrackerTables.{tracker_tables};
ghost use Rattle.passes.specs.TableRun.{TablesFit};
ghost use Rattle.plan_verdict.specs.Parts.{PlanJudged, PlanLeft};

use gate::Refusal;
use passes::{Verdict, judge_letters};
use plan::whole_file::read_plan;

// Questions 12 to 14 on a plan over the sheet whose k names the rows hold, and the verdict.
pub fn judge_plan(
    plan: &[u8],
    rows: &mut [u8],
    k: usize,
    tuples: &[u16],
    nexts: &[u16],
    count: usize,
) -> Result<Verdict, Refusal>
    requires plan_len_bound { (length plan.now ≤ most_plan) × TablesFit tuples.now nexts.now count }
    requires in_bounds { (224 ≤ length rows.old) × (k ≤ 8) × ((σ : Sheet) × LettersIn σ k rows.old) }
    ensures { ((σ : Sheet) → LettersIn σ k rows.old
        → PlanJudged σ plan.now tuples.now nexts.now count result) × OnlyRow k rows.old rows.new }
{
    let mut letters = [0u8; 400];
    let z = read_plan(plan, rows, k, &mut letters)?;
    Ok(judge_letters(tuples, nexts, count, &letters, z.lead, z.cycle))
}

// With a refusal of the plan the successor sets, the marks and the tracker's tables become zero. The answer stays.
pub fn clear_refused(
    judged: Result<Verdict, Refusal>,
    table: &mut [u16],
    marks: &mut [u16],
    tuples: &mut [u16],
    nexts: &mut [u16],
) -> Result<Verdict, Refusal>
    ensures { (result ≡ judged) × PlanLeft (transition_sets table.old marks.old) (transition_sets table.new marks.new)
        (tracker_tables tuples.old nexts.old) (tracker_tables tuples.new nexts.new) result }
{
    if judged.is_err() {
        lent::clear_sets(table, marks);
        filling::clear(tuples, nexts);
    }
    judged
}
