// A whole plan file: questions 12 to 14.
ghost use Rattle.std.specs.Prelude.{◌≤◌, length};
ghost use Rattle.name_rows.specs.Rows.{OnlyRow};
ghost use Rattle.format.specs.Format.{Sheet};
ghost use Rattle.plan_lines.specs.PlanLines.{most_plan};
ghost use Rattle.plan.specs.Answers.{LengthsFit};
ghost use Rattle.parser.specs.LettersOf.{LettersIn};
ghost use Rattle.plan.specs.Read.{ReadsPlan};

use super::PlanLengths;
use frame::{Bounds, end_line, first_line};
use gate::Refusal;
use plan_lines::read_letters;

// The plan, over the letters whose composed names the first k rows hold, with the superseding letters behind the rows: they stand there
// still. Only row k is written, whatever the rows hold. A refusal leaves the letters all zero.
pub fn read_plan(
    p: &[u8],
    rows: &mut [u8],
    k: usize,
    letters: &mut [u8],
) -> Result<PlanLengths, Refusal>
    requires { (length p.now ≤ most_plan) × (k ≤ 8) × (224 ≤ length rows.old) × (400 ≤ length letters.old) }
    ensures { LengthsFit result × ((σ : Sheet) → LettersIn σ k rows.old
        → LettersIn σ k rows.new × ReadsPlan σ p.now letters.old letters.new result)
        × OnlyRow k rows.old rows.new }
{
    let bounds = Bounds {
        least: 0,
        most: 200,
        low: 1,
        high: 200,
    };
    let (lead, cycle) = match first_line(p, b"PLAN", bounds, 12, 13) {
        Ok(lengths) => lengths,
        Err(r) => {
            gate::clear_bytes(letters);
            return Err(r);
        }
    };
    let place = read_letters(p, rows, k, lead + cycle, letters)?;
    if let Err(r) = end_line(p, 12, place.line, place.at) {
        gate::clear_bytes(letters);
        return Err(r);
    }
    Ok(PlanLengths { lead, cycle })
}
