// The sheet file, read.
#![tactic(auto)]

ghost use Rattle.automaton.specs.Automaton.{transition_sets};
ghost use Rattle.lent.specs.Lent.{witness_tables};
ghost use Rattle.sheet.specs.Read.{sheet_tables, Reads};

use automaton::Numbers;
use gate::Refusal;
use reading::read_long;

// Questions 1 to 10 on a sheet file. Question 1 touches nothing; with 10 the last three tables hold a shortest word with
// meeting walks, with zeros behind; what a table has no meaning for is zero.
pub fn read_sheet(
    sheet: &[u8],
    table: &mut [u16],
    marks: &mut [u16],
    word: &mut [u16],
    one: &mut [u16],
    other: &mut [u16],
) -> Result<Numbers, Refusal>
    ensures { Reads sheet.now
        (sheet_tables (transition_sets table.old marks.old) (witness_tables word.old one.old other.old))
        (sheet_tables (transition_sets table.new marks.new) (witness_tables word.new one.new other.new)) result }
{
    if !lent::long_enough(table, marks, word, one, other) {
        return Err(Refusal {
            number: 1,
            line: 0,
            length: 0,
        });
    }
    let mut rows = [0u8; 224];
    read_long(sheet, table, marks, &mut rows, word, one, other)
}
