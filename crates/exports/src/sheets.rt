// The calls on a whole sheet: checked, read, written.
ghost use Rattle.automaton.specs.Automaton.{transition_sets};
ghost use Rattle.lent.specs.Lent.{witness_tables};
ghost use Rattle.walks.specs.Check.{Checks};
ghost use Rattle.sheet.specs.Read.{sheet_tables, Reads};
ghost use Rattle.writer.specs.Write.{write_tables, WritesNumbers};
ghost use Rattle.file_writer.specs.FileWrite.{Writes};
ghost use Rattle.cells.specs.Cells.{InNumbers, written_cells};
ghost use Rattle.answers.specs.Answer.{edition_numbered, as_numbers, checked_cells, read_cells};

// `walks::check`
#[unsafe(no_mangle)]
pub extern "C" fn lunthomi_check(
    edition: usize,
    n: usize,
    k: usize,
    initial: u16,
    recurring: u16,
    table: &[u16],
    marks: &[u16],
    word: &mut [u16],
    one: &mut [u16],
    other: &mut [u16],
    answer: &mut [usize],
)
    ensures { InNumbers (Checks (as_numbers (edition_numbered edition) n k initial recurring table.now marks.now)
        (witness_tables word.old one.old other.old) (witness_tables word.new one.new other.new))
        checked_cells answer.old answer.new }
{
    let a = answers::numbers_of(edition, n, k, initial, recurring);
    let r = walks::check(a, table, marks, word, one, other);
    answers::put_checked(r, answer);
}

// `sheet::read_sheet`
#[unsafe(no_mangle)]
pub extern "C" fn lunthomi_read_sheet(
    sheet: &[u8],
    table: &mut [u16],
    marks: &mut [u16],
    word: &mut [u16],
    one: &mut [u16],
    other: &mut [u16],
    answer: &mut [usize],
)
    ensures { InNumbers (Reads sheet.now
        (sheet_tables (transition_sets table.old marks.old) (witness_tables word.old one.old other.old))
        (sheet_tables (transition_sets table.new marks.new) (witness_tables word.new one.new other.new)))
        read_cells answer.old answer.new }
{
    let r = sheet::read_sheet(sheet, table, marks, word, one, other);
    answers::put_read(r, answer);
}

// `file_writer::write`
#[unsafe(no_mangle)]
pub extern "C" fn lunthomi_write(
    sheet: &[u8],
    word: &mut [u16],
    one: &mut [u16],
    other: &mut [u16],
    out: &mut [u8],
    answer: &mut [usize],
)
    ensures { InNumbers (Writes sheet.now
        (write_tables (witness_tables word.old one.old other.old) out.old)
        (write_tables (witness_tables word.new one.new other.new) out.new))
        written_cells answer.old answer.new }
{
    let r = file_writer::write(sheet, word, one, other, out);
    cells::put_written(r, answer);
}

// `writer::write_numbers`
#[unsafe(no_mangle)]
pub extern "C" fn lunthomi_write_numbers(
    edition: usize,
    n: usize,
    k: usize,
    initial: u16,
    recurring: u16,
    table: &[u16],
    marks: &[u16],
    names: &[u8],
    word: &mut [u16],
    one: &mut [u16],
    other: &mut [u16],
    out: &mut [u8],
    answer: &mut [usize],
)
    ensures { InNumbers (WritesNumbers (as_numbers (edition_numbered edition) n k initial recurring table.now marks.now) names.now
        (write_tables (witness_tables word.old one.old other.old) out.old)
        (write_tables (witness_tables word.new one.new other.new) out.new))
        written_cells answer.old answer.new }
{
    let a = answers::numbers_of(edition, n, k, initial, recurring);
    let r = writer::write_numbers(a, table, marks, names, word, one, other, out);
    cells::put_written(r, answer);
}
