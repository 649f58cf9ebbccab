// One line of a listing, of each kind, at a position of the output.
#![tactic(auto)]

ghost use Rattle.std.specs.Prelude.{◌≡◌, ◌+◌, ◌≤◌, length};
ghost use Rattle.std.proofs.lemmas.List.Edits.{sets};
ghost use Rattle.listing_lines.specs.ListingLine.{columns, track_line, tuple_line};
ghost use Rattle.listing_lines.specs.PutLine.{cells_from, ColumnsThere, line_bytes, Sized};

// The first line.
pub fn put_first(out: &mut [u8], n: usize, k: usize, count: usize)
    requires { 17 ≤ length out.old }
    ensures { out.new ≡ sets out.old 0 (track_line n k count) }
{
    text::put_bytes(out, 0, b"TRACK");
    columns::put_column(out, 5, 3, n);
    columns::put_column(out, 8, 3, k);
    columns::put_column(out, 11, 5, count);
    text::put_bytes(out, 16, b"\n");
}

// The numbers in a table's cells from `from` on, each in w columns.
fn put_cells(out: &mut [u8], at: usize, w: usize, table: &[u16], from: usize, count: usize)
    requires { ColumnsThere out.old at w table.now from count }
    ensures { out.new ≡ sets out.old at (columns w (cells_from table.now from) count) }
{
    let mut p = at;
    for i in 0..count {
        columns::put_column(out, p, w, table[from + i] as usize);
        p += w;
    }
}

// The line of tuple t.
pub fn put_tuple(
    out: &mut [u8],
    at: usize,
    n: usize,
    k: usize,
    tuples: &[u16],
    nexts: &[u16],
    t: usize,
)
    requires { Sized n k (t + 1) tuples.now nexts.now × (at + line_bytes n k ≤ length out.old) }
    ensures { out.new ≡ sets out.old at (tuple_line n k tuples.now nexts.now t) }
{
    let next = at + 9 + 6 * n;
    text::put_bytes(out, at, b"Q");
    columns::put_column(out, at + 1, 5, t);
    columns::put_column(
        out,
        at + 6,
        3,
        tuples[tuple_record::RECORD * t + tuple_record::COLOUR] as usize,
    );
    put_cells(out, at + 9, 6, tuples, tuple_record::RECORD * t, n);
    put_cells(out, next, 5, nexts, 8 * t, k);
    text::put_bytes(out, next + 5 * k, b"\n");
}
