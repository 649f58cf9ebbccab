// Names composed into rows of 24 cells, and the search for one among them.
#![tactic(auto)]

ghost use Rattle.std.specs.Prelude.{◌≡◌, ℕ, ◌+◌, ◌-◌, ◌*◌, ◌≤◌, List, length};
ghost use Rattle.std.proofs.lemmas.List.Edits.{sets};
ghost use Rattle.gate.specs.Gate.{Decides, padded};
ghost use Rattle.text.specs.Bytes.{stretch};
ghost use Rattle.names.specs.Name.{umlaut_of, IsName, compose};
ghost use Rattle.name_rows.specs.Rows.{HoldNames, FirstLike, FirstName};
ghost use Rattle.name_rows.specs.Row.{diaeresis_at, name_row, Stretches};

// The second byte of a vowel's composed letter.
fn umlaut_of(v: u8) -> u8
    ensures { result ≡ umlaut_of v }
{
    if v == b'a' {
        return 0xA4;
    }
    if v == b'o' {
        return 0xB6;
    }
    if v == b'u' {
        return 0xBC;
    }
    if v == b'A' {
        return 0x84;
    }
    if v == b'O' {
        return 0x96;
    }
    0x9C
}

// Whether the stretch from i to `end` starts with a vowel and CC 88.
fn diaeresis_at(s: &[u8], i: usize, end: usize) -> bool
    requires { Stretches s.now i end }
    ensures { result ≡ diaeresis_at s.now i end }
{
    if end - i < 3 {
        return false;
    }
    names::is_decomposed(s[i], s[i + 1], s[i + 2])
}

// The composed bytes of the stretch from `start` to `end`, from `at` on. The answer is how many they are.
fn put_composed(s: &[u8], start: usize, end: usize, out: &mut [u8], at: usize) -> usize
    requires { Stretches s.now start end × (at + length (compose (stretch s.now start end)) ≤ length out.old) }
    ensures { (out.new ≡ sets out.old at (compose (stretch s.now start end)))
        × (result ≡ length (compose (stretch s.now start end))) × (result ≤ end - start) }
{
    let mut i = start;
    let mut n = 0;
    // A while: a turn passes three bytes or one.
    while i < end {
        if diaeresis_at(s, i, end) {
            out[at + n] = 0xC3;
            out[at + n + 1] = umlaut_of(s[i]);
            n += 2;
            i += 3;
        } else {
            out[at + n] = s[i];
            n += 1;
            i += 1;
        }
    }
    n
}

// The same in the 24 cells of a row from `at` on, with zeros behind.
pub fn compose_into(s: &[u8], start: usize, end: usize, rows: &mut [u8], at: usize)
    requires { Stretches s.now start end × (end - start ≤ 24) × (at + 24 ≤ length rows.old) }
    ensures { rows.new ≡ sets rows.old at (padded 24 (compose (stretch s.now start end))) }
{
    let n = put_composed(s, start, end, rows, at);
    rows[at + n..at + 24].fill(0);
}

// Whether the rows at a and at b are equal.
fn same_row(rows: &[u8], a: usize, b: usize) -> bool
    requires { (a + 24 ≤ length rows.now) × (b + 24 ≤ length rows.now) }
    ensures { Decides result (name_row rows.now a ≡ name_row rows.now b) }
{
    rows[a..a + 24] == rows[b..b + 24]
}

// The first row that is like row `count`.
pub fn first_like(rows: &[u8], count: usize) -> usize
    requires { (count ≤ 8) × (24 * count + 24 ≤ length rows.now) }
    ensures { FirstLike rows.now count result }
{
    for l in 0..count {
        if same_row(rows, 24 * l, 24 * count) {
            return l;
        }
    }
    count
}

// The letter whose name, in one of `count` rows, is that of a stretch after composing; `count` where there is none.
// The row behind holds that stretch then.
pub fn letter_of(rows: &mut [u8], count: usize, s: &[u8], start: usize, end: usize) -> usize
    requires { (count ≤ 8) × (24 * count + 24 ≤ length rows.old) × Stretches s.now start end × (end - start ≤ 24) }
    ensures { (rows.new ≡ sets rows.old (24 * count) (padded 24 (compose (stretch s.now start end))))
        × ((names : List (List ℕ)) → length names ≡ count → HoldNames names rows.old → IsName (stretch s.now start end)
        → FirstName names (compose (stretch s.now start end)) result × HoldNames names rows.new) }
{
    compose_into(s, start, end, rows, 24 * count);
    first_like(rows, count)
}
