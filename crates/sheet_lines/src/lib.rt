// One line of a sheet file, of each kind, at a position of the output.
#![tactic(auto)]

ghost use Rattle.std.specs.Prelude.{◌≡◌, ◌+◌, ◌*◌, ◌≤◌, ◌<◌, length};
ghost use Rattle.std.proofs.lemmas.List.Edits.{sets};
ghost use Rattle.columns.specs.Line.{numbers_line};
ghost use Rattle.sets.specs.Sets.{bit};
ghost use Rattle.format.specs.Format.{head_line, name_line, withdrawal_line, state_line, transition_line, state_width, transition_width};
ghost use Rattle.format.specs.Withdrawals.{withdrawn_by};
ghost use Rattle.format.specs.Written.{state_of, placed, most_transitions};
ghost use Rattle.sheet_lines.specs.RowName.{row_name};

use automaton::Edition;

// A line of numbers: what it opens with, the numbers in three columns each, and its end.
fn put_numbers(out: &mut [u8], at: usize, opening: &[u8], numbers: &[usize])
    requires { at + (length opening.now + (3 * length numbers.now + 1)) ≤ length out.old }
    ensures { out.new ≡ sets out.old at (numbers_line opening.now numbers.now) }
{
    text::put_bytes(out, at, opening);
    let first = at + opening.len();
    for (i, v) in numbers.iter().enumerate() {
        columns::put_column(out, first + 3 * i, 3, *v);
    }
    out[first + 3 * numbers.len()] = 10;
}

// The first line.
pub fn put_head(out: &mut [u8], at: usize, edition: Edition, n: usize, k: usize)
    requires { at + 12 ≤ length out.old }
    ensures { out.new ≡ sets out.old at (head_line edition n k) }
{
    match edition {
        Edition::StateBased => put_numbers(out, at, b"SHEET", &[n, k]),
        Edition::TransitionBased => put_numbers(out, at, b"SHT-2", &[n, k]),
    }
}

// The line of a letter's name. The answer is the place behind it.
fn put_name(out: &mut [u8], at: usize, letter: usize, name: &[u8]) -> usize
    requires { at + (6 + length name.now) ≤ length out.old }
    ensures { (result ≡ at + (6 + length name.now))
        × (out.new ≡ sets out.old at (name_line letter name.now)) }
{
    out[at] = b'N';
    columns::put_column(out, at + 1, 3, letter);
    out[at + 4] = b' ';
    text::put_bytes(out, at + 5, name);
    let behind = at + 5 + name.len();
    out[behind] = 10;
    behind + 1
}

// How many bytes the name in row l has.
pub fn name_length(rows: &[u8], l: usize) -> usize
    requires { (l < 8) × (192 ≤ length rows.now) }
    ensures { (result ≡ length (row_name rows.now l)) × (result ≤ 24) }
{
    for i in 0..24 {
        if rows[24 * l + i] == 0 {
            return i;
        }
    }
    24
}

// The line of the name in row l. The answer is the place behind it.
pub fn put_row(out: &mut [u8], at: usize, rows: &[u8], l: usize) -> usize
    requires { (l < 8) × (192 ≤ length rows.now) × (at + (6 + length (row_name rows.now l)) ≤ length out.old) }
    ensures { (result ≡ at + (6 + length (row_name rows.now l)))
        × (out.new ≡ sets out.old at (name_line l (row_name rows.now l))) }
{
    let start = 24 * l;
    let end = start + name_length(rows, l);
    put_name(out, at, l, &rows[start..end])
}

// The line of a withdrawn letter: `by` supersedes it.
pub fn put_withdrawal(out: &mut [u8], at: usize, letter: usize, by: usize)
    requires { at + 8 ≤ length out.old }
    ensures { out.new ≡ sets out.old at (withdrawal_line (withdrawn_by letter by)) }
{
    put_numbers(out, at, b"W", &[letter, by]);
}

// 1 where q is a member of the set, and 0 where it is not.
fn flag(set: u16, q: usize) -> usize
    requires { q < 16 }
    ensures { result ≡ bit set q }
{
    usize::from(sets::contains(set, q))
}

// The line of state q.
pub fn put_state(
    out: &mut [u8],
    at: usize,
    edition: Edition,
    q: usize,
    initial: u16,
    recurring: u16,
)
    requires { (q < 16) × (at + state_width edition ≤ length out.old) }
    ensures { out.new ≡ sets out.old at (state_line edition q (state_of initial recurring q)) }
{
    let begins = flag(initial, q);
    let recurs = flag(recurring, q);
    match edition {
        Edition::StateBased => put_numbers(out, at, b"S", &[q, begins, recurs]),
        Edition::TransitionBased => put_numbers(out, at, b"S", &[q, begins]),
    }
}

// The line of the transition at place i, with its mark.
pub fn put_transition(out: &mut [u8], at: usize, edition: Edition, marks: &[u16], i: usize)
    requires { (i < most_transitions) × (128 ≤ length marks.now) × (at + transition_width edition ≤ length out.old) }
    ensures { out.new ≡ sets out.old at (transition_line edition (placed marks.now i)) }
{
    let (from, letter, to) = (i / 128, i / 16 % 8, i % 16);
    match edition {
        Edition::StateBased => put_numbers(out, at, b"T", &[from, letter, to]),
        Edition::TransitionBased => {
            let mark = flag(marks[i / 16], to);
            put_numbers(out, at, b"T", &[from, letter, to, mark]);
        }
    }
}
