// The name lines, from names in rows of 24 bytes with zeros behind them.
ghost use Rattle.std.specs.Prelude.{◌≡◌, ◌+◌, ◌≤◌, length};
ghost use Rattle.std.proofs.lemmas.List.Edits.{sets};
ghost use Rattle.format.specs.Format.{name_lines};
ghost use Rattle.sheet_sections.specs.RowNames.{row_names};

// How many bytes the lines of k names have.
pub fn names_length(rows: &[u8], k: usize) -> usize
    requires { (k ≤ 8) × (192 ≤ length rows.now) }
    ensures { (result ≡ length (name_lines 0 (row_names rows.now 0 k))) × (result ≤ 240) }
{
    let mut count = 0;
    for l in 0..k {
        count += 6 + sheet_lines::name_length(rows, l);
    }
    count
}

// The lines of k names, from `start` on. The answer is the place behind them.
pub fn put_names(out: &mut [u8], start: usize, rows: &[u8], k: usize) -> usize
    requires { (k ≤ 8) × (192 ≤ length rows.now) × (start + length (name_lines 0 (row_names rows.now 0 k)) ≤ length out.old) }
    ensures { (result ≡ start + length (name_lines 0 (row_names rows.now 0 k)))
        × (out.new ≡ sets out.old start (name_lines 0 (row_names rows.now 0 k))) }
{
    let mut at = start;
    for l in 0..k {
        at = sheet_lines::put_row(out, at, rows, l);
    }
    at
}
