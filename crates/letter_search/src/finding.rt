// Question 14 on a sheet whose letters stand in rows.
ghost use Rattle.std.specs.Prelude.{◌≤◌, length};
ghost use Rattle.name_rows.specs.Rows.{OnlyRow};
ghost use Rattle.format.specs.Format.{Sheet};
ghost use Rattle.parser.specs.LettersOf.{LettersIn};
ghost use Rattle.letter_search.specs.Find.{LetterOf};

use gate::Refusal;
use name_rows::letter_of;

// The letter that finally stands for the one whose name is the same after composing. Only row k is written.
pub fn letter_named(name: &[u8], rows: &mut [u8], k: usize) -> Result<usize, Refusal>
    requires { (k ≤ 8) × (224 ≤ length rows.old) }
    ensures { ((σ : Sheet) → LettersIn σ k rows.old → LetterOf σ name.now result)
        × OnlyRow k rows.old rows.new }
{
    let unknown = Refusal {
        number: 14,
        line: 0,
        length: 0,
    };
    if !names::is_name(name) {
        return Err(unknown);
    }
    let l = letter_of(rows, k, name, 0, name.len());
    if l < k {
        Ok(superseding::final_letter(rows, l))
    } else {
        Err(unknown)
    }
}
