// The withdrawal lines of a sheet: question 15.
#![tactic(auto)]

ghost use Rattle.std.specs.Prelude.{◌≡◌, ◌+◌, ◌<◌, ◌≤◌, ◌^◌, length};
ghost use Rattle.superseding.specs.Superseding.{superseding_in};
ghost use Rattle.withdrawal_lines.specs.WithdrawalLines.{withdrawal_line_at, withdrawals_at, WithdrawalFits, WithdrawalsRead};

use frame::Position;
use gate::Refusal;

// The line at `at`, which begins with W: a letter not below `least` and a larger one, which supersedes it, both below k.
fn withdrawal_line(s: &[u8], at: usize, k: usize, least: usize) -> Option<(usize, usize)>
    requires { (at < 2 ^ 30) × (k ≤ 8) }
    ensures { (result ≡ withdrawal_line_at s.now at k least) × WithdrawalFits least result }
{
    let (letter, by) = columns::pair_at(s, at + 1)?;
    if letter < least {
        return None;
    }
    if by <= letter {
        return None;
    }
    if k <= by {
        return None;
    }
    Some((letter, by))
}

// The withdrawal lines behind the names, the first of which, where there is one, is line `first` and stands at `start`. Each superseding
// letter goes into its cell; with a refusal some may stand there.
pub fn read_withdrawals(
    s: &[u8],
    k: usize,
    first: usize,
    start: usize,
    rows: &mut [u8],
) -> Result<Position, Refusal>
    requires { (first ≤ 10) × (start ≤ 252) × (k ≤ 8) × (224 ≤ length rows.old) }
    ensures { WithdrawalsRead (withdrawals_at s.now k first start 0 (superseding_in rows.old) (length s.now + 1))
        rows.old rows.new result }
{
    let mut line = first;
    let mut at = start;
    let mut least = 0;
    // A while: how many lines there are, the lines tell.
    while text::reader::opening(s, at) == b'W' {
        let Some((letter, by)) = withdrawal_line(s, at, k, least) else {
            return Err(Refusal {
                number: 15,
                line,
                length: 0,
            });
        };
        superseding::withdraw(rows, letter, by);
        least = letter + 1;
        line += 1;
        at += 8;
    }
    Ok(Position { at, line })
}
