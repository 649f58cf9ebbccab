// Writing a sheet file anew.
#![tactic(auto)]

ghost use Rattle.lent.specs.Lent.{witness_tables};
ghost use Rattle.writer.specs.Write.{write_tables};
ghost use Rattle.file_writer.specs.FileWrite.{Writes};

use gate::Refusal;
use reading::read_long;

// A sheet file written anew, with composed letters: questions 1 to 10, and last of all whether the output is long enough.
pub fn write(
    sheet: &[u8],
    word: &mut [u16],
    one: &mut [u16],
    other: &mut [u16],
    out: &mut [u8],
) -> Result<usize, Refusal>
    ensures { Writes sheet.now
        (write_tables (witness_tables word.old one.old other.old) out.old)
        (write_tables (witness_tables word.new one.new other.new) out.new) result }
{
    let mut table = [0u16; 128];
    let mut marks = [0u16; 128];
    if !lent::long_enough(&table, &marks, word, one, other) {
        return Err(Refusal {
            number: 1,
            line: 0,
            length: 0,
        });
    }
    let mut rows = [0u8; 224];
    match read_long(sheet, &mut table, &mut marks, &mut rows, word, one, other) {
        Err(r) => {
            gate::clear_bytes(out);
            Err(r)
        }
        Ok(a) => writer::finish(a, &table, &marks, &rows, out),
    }
}
