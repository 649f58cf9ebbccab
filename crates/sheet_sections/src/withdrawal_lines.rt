// The withdrawal lines, from the superseding letters behind the rows of names.
ghost use Rattle.std.specs.Prelude.{◌≡◌, ◌+◌, ◌≤◌, ◌<◌, length};
ghost use Rattle.std.proofs.lemmas.List.Edits.{sets};
ghost use Rattle.superseding.specs.Superseding.{superseding_in};
ghost use Rattle.format.specs.Format.{withdrawal_lines};
ghost use Rattle.sheet_sections.specs.RowWithdrawals.{withdrawals_of, withdrawal_text};

use superseding::superseding;

// How many bytes the withdrawal lines of k letters have.
pub fn withdrawals_length(rows: &[u8], k: usize) -> usize
    requires { (k ≤ 8) × (224 ≤ length rows.now) }
    ensures { (result ≡ length (withdrawal_lines (withdrawals_of (superseding_in rows.now) 0 k))) × (result ≤ 64) }
{
    let mut count = 0;
    for l in 0..k {
        if superseding(rows, l) != 0 {
            count += 8;
        }
    }
    count
}

// The line of letter l, where it is withdrawn. The answer is the place behind it.
fn put_letter(out: &mut [u8], at: usize, rows: &[u8], l: usize) -> usize
    requires { (l < 8) × (224 ≤ length rows.now) × (at + length (withdrawal_text (superseding_in rows.now) l) ≤ length out.old) }
    ensures { (result ≡ at + length (withdrawal_text (superseding_in rows.now) l))
        × (out.new ≡ sets out.old at (withdrawal_text (superseding_in rows.now) l)) }
{
    let by = superseding(rows, l);
    if by == 0 {
        return at;
    }
    sheet_lines::put_withdrawal(out, at, l, by);
    at + 8
}

// The withdrawal lines of k letters, from `start` on. The answer is the place behind them.
pub fn put_withdrawals(out: &mut [u8], start: usize, rows: &[u8], k: usize) -> usize
    requires { (k ≤ 8) × (224 ≤ length rows.now)
        × (start + length (withdrawal_lines (withdrawals_of (superseding_in rows.now) 0 k)) ≤ length out.old) }
    ensures { (result ≡ start + length (withdrawal_lines (withdrawals_of (superseding_in rows.now) 0 k)))
        × (out.new ≡ sets out.old start (withdrawal_lines (withdrawals_of (superseding_in rows.now) 0 k))) }
{
    let mut at = start;
    for l in 0..k {
        at = put_letter(out, at, rows, l);
    }
    at
}
