// The names of letters in a sheet file.
ghost use Rattle.std.specs.Prelude.{◌≡◌, ◌<◌, ◌≤◌, length};
ghost use Rattle.letters.specs.Answers.{RowsRead};
ghost use Rattle.letters.specs.Spelling.{line_below, spelling};

use automaton::Numbers;
use gate::Refusal;
use parser::whole_file::read_file;

// The questions 2 to 9 on a sheet file, and its composed names in rows, with zeros behind. A refusal leaves the rows all zero.
pub fn read_rows(s: &[u8], rows: &mut [u8]) -> Result<Numbers, Refusal>
    requires { 224 ≤ length rows.old }
    ensures { RowsRead s.now rows.old rows.new result }
{
    let mut table = [0u16; 128];
    let mut marks = [0u16; 128];
    read_file(s, &mut table, &mut marks, rows)
}

// Where the name line of a letter stands.
fn line_of(s: &[u8], letter: usize) -> usize
    requires { letter < 8 }
    ensures { (result ≡ line_below s.now 12 letter) × (result ≤ 252) }
{
    let mut at = 12;
    for _ in 0..letter {
        let Some(e) = names::name_end(s, at + 5) else {
            return at;
        };
        at = e + 1;
    }
    at
}

// The name of a letter, as that very stretch of the file.
pub fn spelled(s: &[u8], letter: usize) -> &[u8]
    requires { letter < 8 }
    ensures { result.now ≡ spelling s.now letter }
{
    let at = line_of(s, letter);
    let start = at + 5;
    let Some(end) = names::name_end(s, start) else {
        return &s[..0];
    };
    &s[start..end]
}
