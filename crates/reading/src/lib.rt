// Questions 2 to 10 on a sheet file, which is read once: its numbers, its successor sets, its marks and its composed names.
#![tactic(auto)]

ghost use Rattle.std.specs.Prelude.{◌≡◌, ◌≤◌, length};
ghost use Rattle.automaton.specs.Automaton.{transition_sets};
ghost use Rattle.lent.specs.Lent.{witness_tables, EnoughForSheet, cleared_witness, cleared_sets};
ghost use Rattle.reading.specs.Read.{read_tables, ReadsNamed};

use automaton::Numbers;
use gate::Refusal;
use parser::whole_file::read_file;

// The questions in tables that are long enough, with those of the successor sets and marks and the witness all zero. With 10 the former and the
// names are cleared again.
fn read_cleared(
    sheet: &[u8],
    table: &mut [u16],
    marks: &mut [u16],
    rows: &mut [u8],
    word: &mut [u16],
    one: &mut [u16],
    other: &mut [u16],
) -> Result<Numbers, Refusal>
    requires { EnoughForSheet (transition_sets table.old marks.old) (witness_tables word.old one.old other.old) × (224 ≤ length rows.old)
        × (transition_sets table.old marks.old ≡ cleared_sets (transition_sets table.old marks.old))
        × (witness_tables word.old one.old other.old ≡ cleared_witness (witness_tables word.old one.old other.old)) }
    ensures { ReadsNamed sheet.now
        (read_tables (transition_sets table.old marks.old) rows.old
        (witness_tables word.old one.old other.old))
        (read_tables (transition_sets table.new marks.new) rows.new
        (witness_tables word.new one.new other.new)) result }
{
    let a = read_file(sheet, table, marks, rows)?;
    if let Some(length) = walks::ask(automaton::graph_of(a), &table[..128], word, one, other) {
        lent::clear_sets(table, marks);
        gate::clear_bytes(rows);
        return Err(Refusal {
            number: 10,
            line: 0,
            length,
        });
    }
    Ok(a)
}

// The questions in tables that are long enough. The composed names go into rows, with zeros behind; a refusal leaves the rows all zero.
pub fn read_long(
    sheet: &[u8],
    table: &mut [u16],
    marks: &mut [u16],
    rows: &mut [u8],
    word: &mut [u16],
    one: &mut [u16],
    other: &mut [u16],
) -> Result<Numbers, Refusal>
    requires { EnoughForSheet (transition_sets table.old marks.old) (witness_tables word.old one.old other.old) × (224 ≤ length rows.old) }
    ensures { ReadsNamed sheet.now
        (read_tables (transition_sets table.old marks.old) rows.old
        (witness_tables word.old one.old other.old))
        (read_tables (transition_sets table.new marks.new) rows.new
        (witness_tables word.new one.new other.new)) result }
{
    lent::clear_sets(table, marks);
    lent::clear_witness(word, one, other);
    read_cleared(sheet, table, marks, rows, word, one, other)
}
