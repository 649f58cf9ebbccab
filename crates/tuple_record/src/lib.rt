// The record of a tuple in a lent table: its row, which is what is compared, and behind it the way back. No other crate's code knows the widths, or which
// cell holds what.
#![tactic(auto)]

ghost use Rattle.std.specs.Prelude.{◌≡◌, ◌<◌, ◌≤◌, ◌+◌, length};
ghost use Rattle.std.proofs.lemmas.List.Edits.{sets};
ghost use Rattle.tuple_record.specs.Record.{row_cells, record_cells, record_start, row_at, Stored};

// How many sets a row has; they stand first.
pub const SETS: usize = 16;

// The cell of the colour, behind the sets.
pub const COLOUR: usize = 16;

// How many cells a row has, which is what is compared.
pub const ROW: usize = 17;

// The cell of the tuple, and the cell of the letter, that a tuple was first found from.
pub const FROM: usize = 17;

pub const LETTER: usize = 18;

// How many cells a record has.
pub const RECORD: usize = 19;

// The way back from a tuple: the tuple and the letter that it was first found from.
#[derive(Clone, Copy)]
pub struct WayBack {
    pub from: u16,
    pub letter: u16,
}

// A row is written into the cells from `at` on.
fn put(table: &mut [u16], at: usize, row: &[u16])
    requires { (at + row_cells ≤ length table.old) × (length row.now ≡ row_cells) }
    ensures { table.new ≡ sets table.old at row.now }
{
    table[at..at + ROW].copy_from_slice(row);
}

// The row of tuple t, copied.
pub fn load(table: &[u16], t: usize, row: &mut [u16])
    requires { (t < 1024) × (record_start t + record_cells ≤ length table.now) × (length row.old ≡ row_cells) }
    ensures { row.new ≡ row_at table.now t }
{
    let at = RECORD * t;
    row.copy_from_slice(&table[at..at + ROW]);
}

// The record of tuple t: a row, and the way back.
pub fn store(table: &mut [u16], t: usize, row: &[u16], way: WayBack)
    requires { (t < 1024) × (record_start t + record_cells ≤ length table.old) × (length row.now ≡ row_cells) }
    ensures { Stored table.old table.new t row.now way }
{
    let at = RECORD * t;
    put(table, at, row);
    table[at + FROM] = way.from;
    table[at + LETTER] = way.letter;
}
