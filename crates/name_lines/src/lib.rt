// The name lines of a sheet: questions 5 and 6.
#![tactic(auto)]

ghost use Rattle.std.specs.Prelude.{◌≡◌, ◌+◌, ◌<◌, ◌≤◌, ◌^◌, [], length};
ghost use Rattle.names.specs.Scan.{name_fits};
ghost use Rattle.name_lines.specs.NameLines.{name_line_at, names_at, NamesRead};

use frame::Position;
use gate::Refusal;

// The line of letter l: where its LF stands.
#[tactic(auto, using(std::proofs::lemmas::Grind::common_steps), unfolding(crate::specs::NameLines::name_line_at))]
fn name_line(s: &[u8], at: usize, l: usize) -> Option<usize>
    requires { at < 2 ^ 30 }
    ensures { (result ≡ name_line_at s.now at l) × name_fits (length s.now) (at + 5) result }
{
    if columns::is_numbered(s, at, b'N', l) && text::byte_at(s, at + 4) == b' ' {
        return names::name_end(s, at + 5);
    }
    None
}

// The lines of k names, from the second line on. Each name is composed into its row. A refusal leaves the rows all zero.
pub fn read_names(s: &[u8], k: usize, rows: &mut [u8]) -> Result<Position, Refusal>
    requires { (k ≤ 8) × (192 ≤ length rows.old) }
    ensures { NamesRead k (names_at s.now 2 12 [] k) rows.old rows.new result }
{
    let mut line = 2;
    let mut at = 12;
    for l in 0..k {
        let Some(e) = name_line(s, at, l) else {
            gate::clear_bytes(rows);
            return Err(Refusal {
                number: 5,
                line,
                length: 0,
            });
        };
        name_rows::compose_into(s, at + 5, e, rows, 24 * l);
        if name_rows::first_like(rows, l) != l {
            gate::clear_bytes(rows);
            return Err(Refusal {
                number: 6,
                line,
                length: 0,
            });
        }
        line += 1;
        at = e + 1;
    }
    Ok(Position { at, line })
}
