// The name lines of a plan: questions 12 and 14.
#![tactic(auto)]

ghost use Rattle.std.specs.Prelude.{◌≡◌, List, [], ℕ, ◌<◌, ◌≤◌, ◌^◌, length};
ghost use Rattle.name_rows.specs.Rows.{HoldNames, OnlyRow};
ghost use Rattle.superseding.specs.Superseding.{superseding_in};
ghost use Rattle.plan_lines.specs.PlanLines.{most_plan};
ghost use Rattle.plan_lines.specs.LetterLines.{letter_line_at, letters_at, LineFits, LettersRead, PlaceFits};

use frame::Position;
use gate::Refusal;
use name_rows::letter_of;

// Why no letter stands for a line.
#[derive(Clone, Copy)]
enum NotALetter {
    // It is no letter's name.
    Unknown,
    // It is no name.
    Bad,
}

// The line at `at`: the letter that finally stands for its name, and the position of its LF. Where the first k rows hold the composed names
// of k letters, they hold them still; the superseding letters stand behind the rows. The line's own name goes into row k, and no other byte
// changes, whatever the rows hold.
fn letter_line(p: &[u8], at: usize, rows: &mut [u8], k: usize) -> Result<(usize, usize), NotALetter>
    requires { (at < 2 ^ 30) × (k ≤ 8) × (224 ≤ length rows.old) }
    ensures { LineFits (length p.now) result × ((names : List (List ℕ)) → length names ≡ k → HoldNames names rows.old
        → (result ≡ letter_line_at names (superseding_in rows.old) p.now at) × HoldNames names rows.new)
        × OnlyRow k rows.old rows.new }
{
    let Some(e) = names::name_end(p, at) else {
        return Err(NotALetter::Bad);
    };
    let l = letter_of(rows, k, p, at, e);
    if l < k {
        return Ok((superseding::final_letter(rows, l), e));
    }
    Err(NotALetter::Unknown)
}

// The lines of `count` names: the letters that finally stand for them go into the buffer, which a refusal leaves all zero. Names that the
// first k rows hold they hold still; only row k is written, whatever the rows hold.
pub fn read_letters(
    p: &[u8],
    rows: &mut [u8],
    k: usize,
    count: usize,
    letters: &mut [u8],
) -> Result<Position, Refusal>
    requires { (length p.now ≤ most_plan) × (k ≤ 8) × (224 ≤ length rows.old) × (count ≤ length letters.old) × (count ≤ 400) }
    ensures { PlaceFits result × ((names : List (List ℕ)) → length names ≡ k → HoldNames names rows.old
        → HoldNames names rows.new
        × LettersRead (letters_at names (superseding_in rows.old) p.now 2 11 [] count) count letters.old letters.new result)
        × OnlyRow k rows.old rows.new }
{
    let mut line = 2;
    let mut at = 11;
    for i in 0..count {
        match letter_line(p, at, rows, k) {
            Ok((l, e)) => {
                letters[i] = l as u8;
                line += 1;
                at = e + 1;
            }
            Err(why) => {
                gate::clear_bytes(letters);
                let number = match why {
                    NotALetter::Unknown => 14,
                    NotALetter::Bad => 12,
                };
                return Err(Refusal {
                    number,
                    line,
                    length: 0,
                });
            }
        }
    }
    Ok(Position { at, line })
}
