// Numbers in columns, and the lines made of them: read and written.
#![tactic(auto)]

ghost use Rattle.std.specs.Prelude.{◌≡◌, ◌&&◌, ◌+◌, ◌<◌, ◌≤◌, ◌^◌, length};
ghost use Rattle.std.proofs.lemmas.List.Edits.{sets};
ghost use Rattle.columns.specs.Column.{digit_byte, column};
ghost use Rattle.columns.specs.Number.{digit_of, number_of, number_at, is_numbered, is_between};
ghost use Rattle.columns.specs.Pair.{pair_at, word_and_pair};

// The digit that a byte is, and 0 for any other byte.
#[tactic(auto, using(std::proofs::lemmas::Bool::Decides::nat_tests), unfolding(crate::specs::Number::digit_of))]
fn digit(b: u8) -> usize
    ensures { (result ≡ digit_of b) × (result < 10) }
{
    if b < 48 {
        return 0;
    }
    if b < 58 { (b - 48) as usize } else { 0 }
}

// The byte of v at place i, whose power is p, 10 to the i.
fn digit_byte(i: usize, p: usize, v: usize) -> u8
    requires { (p ≡ 10 ^ i) × (0 < p) }
    ensures { result ≡ digit_byte i v }
{
    if i == 0 {
        return (48 + v % 10) as u8;
    }
    if v < p {
        return 32;
    }
    (48 + v / p % 10) as u8
}

// The number that three bytes are, if they are what it is written with.
fn number_of(a: u8, b: u8, c: u8) -> Option<usize>
    ensures { result ≡ number_of a b c }
{
    let ones = digit(c);
    let v = digit(a) * 100 + digit(b) * 10 + ones;
    if a != digit_byte(2, 100, v) {
        return None;
    }
    if b != digit_byte(1, 10, v) {
        return None;
    }
    // What the last digit of v is, is known.
    if c as usize != 48 + ones {
        return None;
    }
    Some(v)
}

// The number in the three columns from `at`.
pub fn number_at(s: &[u8], at: usize) -> Option<usize>
    requires { at < 2 ^ 31 }
    ensures { result ≡ number_at s.now at }
{
    number_of(
        text::byte_at(s, at),
        text::byte_at(s, at + 1),
        text::byte_at(s, at + 2),
    )
}

// Whether the line at `at` opens with the byte `kind` and then v, in three columns.
pub fn is_numbered(s: &[u8], at: usize, kind: u8, v: usize) -> bool
    requires { at < 2 ^ 30 }
    ensures { result ≡ is_numbered s.now at kind v }
{
    if text::reader::opening(s, at) != kind {
        return false;
    }
    match number_at(s, at + 1) {
        Some(n) => n == v,
        None => false,
    }
}

// Whether v is from `least` to `most`.
fn is_between(v: usize, least: usize, most: usize) -> bool
    ensures { result ≡ is_between least most v }
{
    least <= v && v <= most
}

// Whether a is from `least` to `most` and b from `low` to `high`.
pub fn are_between(a: usize, least: usize, most: usize, b: usize, low: usize, high: usize) -> bool
    ensures { result ≡ is_between least most a && is_between low high b }
{
    is_between(a, least, most) && is_between(b, low, high)
}

// The two numbers that a line ends with, in three columns each from `at`.
pub fn pair_at(s: &[u8], at: usize) -> Option<(usize, usize)>
    requires { at + 6 < 2 ^ 31 }
    ensures { result ≡ pair_at s.now at }
{
    // The LF first: then each byte before it is known to be there.
    if text::byte_at(s, at + 6) != 10 {
        return None;
    }
    let a = number_at(s, at)?;
    let b = number_at(s, at + 3)?;
    Some((a, b))
}

// The two numbers of a first line that opens with a word.
pub fn word_and_pair(s: &[u8], word: &[u8]) -> Option<(usize, usize)>
    requires { length word.now < 2 ^ 30 }
    ensures { result ≡ word_and_pair s.now word.now }
{
    if text::starts_at(s, 0, word) {
        return pair_at(s, word.len());
    }
    None
}

// 10 to the power w.
fn power(w: usize) -> usize
    requires { w ≤ 6 }
    ensures { result ≡ 10 ^ w }
{
    10usize.pow(w as u32)
}

// v in the w columns from `at` on.
pub fn put_column(out: &mut [u8], at: usize, w: usize, v: usize)
    requires { (w ≤ 6) × (at + w ≤ length out.old) }
    ensures { out.new ≡ sets out.old at (column w v) }
{
    let mut p = power(w);
    for k in (0..w).rev() {
        p /= 10;
        out[at + w - 1 - k] = digit_byte(k, p, v);
    }
}
