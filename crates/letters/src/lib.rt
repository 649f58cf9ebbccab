// The name of a letter in a sheet file, and the number for which it has none.
#![tactic(auto)]

mod spelling;

ghost use Rattle.letters.specs.Letters.{NameIs, NumberIs};

use gate::Refusal;

// The name of a letter, as that very stretch of the sheet file, in the spelling found there; empty where there is none.
pub fn name(sheet: &[u8], letter: usize) -> &[u8]
    ensures { NameIs sheet.now letter result.now }
{
    let mut rows = [0u8; 224];
    match spelling::read_rows(sheet, &mut rows) {
        Ok(a) if letter < a.k => spelling::spelled(sheet, letter),
        _ => &sheet[..0],
    }
}

// The number for which a letter has no name, with the line; 0 and 0 where it has one.
pub fn name_number(sheet: &[u8], letter: usize) -> Refusal
    ensures { NumberIs sheet.now letter result }
{
    let mut rows = [0u8; 224];
    match spelling::read_rows(sheet, &mut rows) {
        Err(r) => r,
        Ok(a) if letter < a.k => Refusal {
            number: 0,
            line: 0,
            length: 0,
        },
        Ok(_) => Refusal {
            number: 14,
            line: 0,
            length: 0,
        },
    }
}
