// The letter of a name in a sheet file.
#![tactic(auto)]

mod finding;

ghost use Rattle.lent.specs.Lent.{witness_tables};
ghost use Rattle.letter_search.specs.Find.{Finds};

use gate::Refusal;

// The letter that finally stands for a name: questions 1 to 10 on a sheet file, then 14. The witness is lent; it is all zero but with
// 1, which touches nothing, and with 10.
pub fn find(
    sheet: &[u8],
    name: &[u8],
    word: &mut [u16],
    one: &mut [u16],
    other: &mut [u16],
) -> Result<usize, Refusal>
    ensures { Finds sheet.now name.now
        (witness_tables word.old one.old other.old) (witness_tables word.new one.new other.new) result }
{
    let mut table = [0u16; 128];
    let mut marks = [0u16; 128];
    if !lent::long_enough(&table, &marks, word, one, other) {
        return Err(Refusal {
            number: 1,
            line: 0,
            length: 0,
        });
    }
    let mut rows = [0u8; 224];
    let a = reading::read_long(sheet, &mut table, &mut marks, &mut rows, word, one, other)?;
    finding::letter_named(name, &mut rows, a.k)
}
