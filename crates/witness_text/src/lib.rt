// The word and the two walks of a 10, line by line.
#![tactic(auto)]

ghost use Rattle.std.specs.Prelude.{◌+◌, ◌≤◌, ◌≡◌, ◌∷◌, length};
ghost use Rattle.text.specs.Bytes.{space};
ghost use Rattle.columns.specs.Column.{column};
ghost use Rattle.lent.specs.Lent.{witness_tables, EnoughForWitness};
ghost use Rattle.witness_text.specs.WitnessText.{spaced, cells_line, witness_text};
ghost use Rattle.witness_text.specs.Put.{spaced_cells, WrittenAt, CellsThere};

// In how many columns a letter or a state stands: one or two.
#[tactic(auto, using(crate::specs::PutLaws::spaced_in))]
fn digits(v: usize) -> usize
    ensures { (spaced v ≡ space ∷ column result v) × (result ≤ 2) }
{
    if v < 10 { 1 } else { 2 }
}

// A letter or a state behind a space. The answer is the place behind it.
fn put_cell(out: &mut [u8], at: usize, v: usize) -> usize
    requires { at + length (spaced v) ≤ length out.old }
    ensures { WrittenAt (spaced v) out.old at out.new result }
{
    let w = digits(v);
    text::put_bytes(out, at, b" ");
    columns::put_column(out, at + 1, w, v);
    at + 1 + w
}

// The first `count` cells of a table. The answer is the place behind them.
fn put_cells(out: &mut [u8], start: usize, table: &[u16], count: usize) -> usize
    requires { CellsThere table.now count (spaced_cells table.now count) start out.old }
    ensures { WrittenAt (spaced_cells table.now count) out.old start out.new result }
{
    let mut at = start;
    for cell in &table[..count] {
        at = put_cell(out, at, *cell as usize);
    }
    at
}

// A line: a word, and the first `count` cells of a table. The answer is the place behind it.
fn put_cells_line(out: &mut [u8], at: usize, name: &[u8], table: &[u16], count: usize) -> usize
    requires { CellsThere table.now count (cells_line name.now table.now count) at out.old }
    ensures { WrittenAt (cells_line name.now table.now count) out.old at out.new result }
{
    text::put_bytes(out, at, name);
    let end = put_cells(out, at + name.len(), table, count);
    text::put_bytes(out, end, b"\n");
    end + 1
}

// The word of t letters, and the two walks. The answer is the place behind them.
pub fn put(out: &mut [u8], at: usize, word: &[u16], one: &[u16], other: &[u16], t: usize) -> usize
    requires { EnoughForWitness (witness_tables word.now one.now other.now) × (t ≤ 136)
        × (at + length (witness_text (witness_tables word.now one.now other.now) t) ≤ length out.old) }
    ensures { WrittenAt (witness_text (witness_tables word.now one.now other.now) t) out.old at out.new result }
{
    let first = put_cells_line(out, at, b"WORD", word, t);
    let second = put_cells_line(out, first, b"WALK", one, t + 1);
    put_cells_line(out, second, b"WALK", other, t + 1)
}
