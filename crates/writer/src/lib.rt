// Writing a sheet file from numbers.
#![tactic(auto)]

ghost use Rattle.std.specs.Prelude.{◌≤◌, length};
ghost use Rattle.automaton.specs.Automaton.{automaton};
ghost use Rattle.gate.specs.Gate.{Put};
ghost use Rattle.lent.specs.Lent.{witness_tables};
ghost use Rattle.writer.specs.Write.{write_tables, WritesNumbers};
ghost use Rattle.sheet_text.specs.Text.{rows_text, Writable};

use automaton::Numbers;
use gate::Refusal;
use sheet_text::{put_text, text_length};

// The last question, whether the output is long enough, and the text with zeros behind it. The letters are in rows.
pub fn finish(
    a: Numbers,
    table: &[u16],
    marks: &[u16],
    rows: &[u8],
    out: &mut [u8],
) -> Result<usize, Refusal>
    requires { Writable (automaton a table.now marks.now) × (224 ≤ length rows.now) }
    ensures { Put (rows_text (automaton a table.now marks.now) rows.now) out.old out.new result }
{
    let count = text_length(a, table, rows);
    if out.len() < count {
        gate::clear_bytes(out);
        return Err(Refusal {
            number: 1,
            line: 0,
            length: 0,
        });
    }
    put_text(a, table, marks, rows, out);
    gate::clear_bytes(&mut out[count..]);
    Ok(count)
}

// A sheet as numbers written as a file, with the names of a sheet file: question 1, the questions on both, and last of all whether the
// output is long enough.
pub fn write_numbers(
    a: Numbers,
    table: &[u16],
    marks: &[u16],
    names: &[u8],
    word: &mut [u16],
    one: &mut [u16],
    other: &mut [u16],
    out: &mut [u8],
) -> Result<usize, Refusal>
    ensures { WritesNumbers (automaton a table.now marks.now) names.now
        (write_tables (witness_tables word.old one.old other.old) out.old)
        (write_tables (witness_tables word.new one.new other.new) out.new) result }
{
    if !lent::long_enough(table, marks, word, one, other) {
        return Err(Refusal {
            number: 1,
            line: 0,
            length: 0,
        });
    }
    let mut rows = [0u8; 224];
    match named_numbers::ask(a, table, marks, names, &mut rows, word, one, other) {
        Err(r) => {
            gate::clear_bytes(out);
            Err(r)
        }
        Ok(()) => finish(a, table, marks, &rows, out),
    }
}
