// The names of letters: what a name is, and where one ends.
#![tactic(auto)]

ghost use Rattle.std.specs.Prelude.{◌≡◌, ◌+◌, ◌<◌, ◌≤◌, ◌^◌, length};
ghost use Rattle.gate.specs.Gate.{Decides};
ghost use Rattle.names.specs.Name.{one_of, is_umlaut, is_vowel, is_decomposed, IsName};
ghost use Rattle.names.specs.Scan.{width_of, parts_end, name_end_at, name_fits};

// Whether b is one of some bytes.
fn one_of(bytes: &[u8], b: u8) -> bool
    ensures { result ≡ one_of bytes.now b }
{
    bytes.contains(&b)
}

// The second byte of ä ö ü Ä Ö Ü ß, behind C3.
fn is_umlaut(b: u8) -> bool
    ensures { result ≡ is_umlaut b }
{
    one_of(b"\xA4\xB6\xBC\x84\x96\x9C\x9F", b)
}

fn is_vowel(b: u8) -> bool
    ensures { result ≡ is_vowel b }
{
    one_of(b"aouAOU", b)
}

// Whether three bytes are a vowel and CC 88.
pub fn is_decomposed(a: u8, b: u8, c: u8) -> bool
    ensures { result ≡ is_decomposed a b c }
{
    if !is_vowel(a) {
        return false;
    }
    if b != 0xCC {
        return false;
    }
    c == 0x88
}

// How many of three bytes are the name part that they start with; 0 where they start with none.
fn part_width(a: u8, b: u8, c: u8) -> usize
    ensures { (result ≡ width_of a b c) × (result ≤ 3) }
{
    if a == 0xC3 {
        if is_umlaut(b) {
            return 2;
        }
        return 0;
    }
    if a < 0x21 {
        return 0;
    }
    if a > 0x7E {
        return 0;
    }
    if is_decomposed(a, b, c) {
        return 3;
    }
    1
}

// Where the name parts from `start` on end, or 25 of them.
fn parts_end(s: &[u8], start: usize) -> usize
    requires { start < 2 ^ 31 }
    ensures { (result ≡ parts_end s.now start 25) × (start ≤ result) × (result ≤ start + 75) }
{
    let mut at = start;
    for turn in 0..25usize {
        let w = part_width(
            text::byte_at(s, at),
            text::byte_at(s, at + 1),
            text::byte_at(s, at + 2),
        );
        if w == 0 {
            return at;
        }
        at += w;
    }
    at
}

// Where the name that starts at `start` ends: the position of the LF behind it.
pub fn name_end(s: &[u8], start: usize) -> Option<usize>
    requires { start < 2 ^ 31 }
    ensures { (result ≡ name_end_at s.now start) × name_fits (length s.now) start result }
{
    let end = parts_end(s, start);
    if end == start {
        return None;
    }
    if end > start + 24 {
        return None;
    }
    if text::byte_at(s, end) != 10 {
        return None;
    }
    Some(end)
}

// Whether a slice is a name, with nothing behind it.
pub fn is_name(name: &[u8]) -> bool
    ensures { Decides result (IsName name.now) }
{
    let n = name.len();
    if n < 1 {
        return false;
    }
    if n > 24 {
        return false;
    }
    if parts_end(name, 0) != n {
        return false;
    }
    true
}
