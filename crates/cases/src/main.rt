// Runs the library on each case: the files 000, 001, .. of data/, up to the first that is not there. Each gets a line: the verdict, the
// listing's length and sum, the length and sum of the sheet written out, and those of a word to one of the tuples; or refusals in their places.
#![tactic(auto)]

ghost use Rattle.std.specs.Prelude.{◌<◌, ◌≤◌, length};

use passes::Verdict;
use std::io::{Print, Stdout};
use std::{fs, io};

fn say(screen: Stdout, text: &[u8]) -> io::Result<()> {
    screen.write_all(text)
}

// The first n bytes of a text.
fn show(screen: Stdout, out: &[u8], n: usize) -> io::Result<()> {
    if n <= out.len() {
        return say(screen, &out[..n]);
    }
    Ok(())
}

// A line of 12 bytes without its LF; no Display, since the bytes are those that the programs print.
fn say_line(screen: Stdout, line: [u8; 12]) -> io::Result<()> {
    show(screen, &line, 11)
}

fn say_verdict(screen: Stdout, v: Verdict) -> io::Result<()> {
    let answer = v.answer;
    let line = report::verdict_line(passes::is_yes(answer), v.least as usize, v.passes);
    say_line(screen, line)
}

// One more byte, or letter, of a sum that tells a text, or a word, from its neighbours.
fn add(sum: usize, b: u16) -> usize {
    (sum % 65521 * 31 + b as usize) % 65521
}

// A name, and the count of the first n items of a text or a word, with their sum.
fn say_counted<T: Copy + Into<u16>>(
    screen: Stdout,
    name: &[u8],
    items: &[T],
    n: usize,
) -> io::Result<()> {
    let mut sum = 0;
    for item in items.iter().take(n) {
        sum = add(sum, (*item).into());
    }
    say(screen, name)?;
    say(screen, b" ")?;
    print!(screen; "{n:6}{sum:6}")
}

fn say_listing(screen: Stdout, sheet: &[u8], room: usize) -> io::Result<()> {
    let mut table = [0u16; 128];
    let mut marks = [0u16; 128];
    let mut tuples = [0u16; 1024 * tuple_record::RECORD];
    let mut nexts = [0u16; 8192];
    let mut word = [0u16; 136];
    let mut one = [0u16; 137];
    let mut other = [0u16; 137];
    let mut out = [0u8; 149525];
    match file_listing::list(
        sheet,
        room,
        &mut table,
        &mut marks,
        &mut tuples,
        &mut nexts,
        &mut word,
        &mut one,
        &mut other,
        &mut out,
    ) {
        Ok(n) => say_counted(screen, b"LIST", &out, n),
        Err(r) => say_line(screen, report::refusal_line(r)),
    }
}

fn say_copy(screen: Stdout, sheet: &[u8]) -> io::Result<()> {
    let mut word = [0u16; 136];
    let mut one = [0u16; 137];
    let mut other = [0u16; 137];
    let mut out = [0u8; 32768];
    match file_writer::write(sheet, &mut word, &mut one, &mut other, &mut out) {
        Ok(n) => say_counted(screen, b"COPY", &out, n),
        Err(r) => say_line(screen, report::refusal_line(r)),
    }
}

fn say_way(screen: Stdout, sheet: &[u8], room: usize, t: usize) -> io::Result<()> {
    let mut table = [0u16; 128];
    let mut marks = [0u16; 128];
    let mut tuples = [0u16; 1024 * tuple_record::RECORD];
    let mut nexts = [0u16; 8192];
    let mut word = [0u16; 136];
    let mut one = [0u16; 137];
    let mut other = [0u16; 137];
    let mut letters = [0u16; 1024];
    match file_way::way_to(
        sheet,
        room,
        t,
        &mut table,
        &mut marks,
        &mut tuples,
        &mut nexts,
        &mut word,
        &mut one,
        &mut other,
        &mut letters,
    ) {
        Ok(Some(n)) => say_counted(screen, b"WAY ", &letters, n),
        Ok(None) => say(screen, b"NONE"),
        Err(r) => say_line(screen, report::refusal_line(r)),
    }
}

fn say_judgement(screen: Stdout, sheet: &[u8], plan: &[u8], room: usize) -> io::Result<()> {
    let mut table = [0u16; 128];
    let mut marks = [0u16; 128];
    let mut tuples = [0u16; 1024 * tuple_record::RECORD];
    let mut nexts = [0u16; 8192];
    let mut word = [0u16; 136];
    let mut one = [0u16; 137];
    let mut other = [0u16; 137];
    match judge::verdict(
        sheet,
        plan,
        room,
        &mut table,
        &mut marks,
        &mut tuples,
        &mut nexts,
        &mut word,
        &mut one,
        &mut other,
    ) {
        Ok(v) => say_verdict(screen, v),
        Err(r) => say_line(screen, report::refusal_line(r)),
    }
}

// A digit of a case's own first line, which is no number of a file.
fn digit(b: u8) -> usize
    ensures { result < 16 }
{
    (b % 16) as usize
}

// The room of a case, in five digits from the fifth byte on.
fn room_of(case: &[u8]) -> usize
    requires { 10 ≤ length case.now }
{
    digit(case[4]) * 10000
        + digit(case[5]) * 1000
        + digit(case[6]) * 100
        + digit(case[7]) * 10
        + digit(case[8])
}

// The four answers on a sheet and a plan, in a room, and for a tuple's number.
fn say_answers(screen: Stdout, sheet: &[u8], plan: &[u8], room: usize, t: usize) -> io::Result<()> {
    say_judgement(screen, sheet, plan, room)?;
    say(screen, b" ")?;
    say_listing(screen, sheet, room)?;
    say(screen, b" ")?;
    say_copy(screen, sheet)?;
    say(screen, b" ")?;
    say_way(screen, sheet, room, t)?;
    say(screen, b"\n")
}

// The sheet, and behind its END the plan.
fn answer_in(screen: Stdout, input: &[u8], room: usize, t: usize) -> io::Result<()> {
    let e = sheet_end::sheet_end(input);
    say_answers(screen, &input[..e], &input[e..], room, t)
}

// A case: ROOM and five digits, then sheet and plan. The tuple is one of the first 16, by the case's number.
fn answer(screen: Stdout, case: &[u8], number: usize) -> io::Result<()> {
    if case.len() < 10 {
        return Ok(());
    }
    answer_in(screen, &case[10..], room_of(case), number % 16)
}

// One case that was read: its name and its answers.
fn say_case(screen: Stdout, name: &[u8], case: &[u8], number: usize) -> io::Result<()> {
    say(screen, name)?;
    say(screen, b" ")?;
    answer(screen, case, number)
}

// One case: the file of that number is read and answered. False where there is no such file.
fn run(rt: &HostRuntime, number: usize) -> io::Result<bool> {
    let name = [
        b'0' + (number / 100 % 10) as u8,
        b'0' + (number / 10 % 10) as u8,
        b'0' + (number % 10) as u8,
    ];
    let path = str::from_utf8(&name).map_err(|_| io::ErrorKind::InvalidInput)?;
    let Ok(mut file) = fs::open(rt, path) else {
        return Ok(false);
    };
    let mut buf = [0u8; 65536];
    let n = stdin::read(&mut file, &mut buf).map_err(|_| io::ErrorKind::Other)?;
    say_case(rt.stdout(), &name, &buf[..n], number)?;
    Ok(true)
}

fn main(rt: HostRuntime) -> io::Result<()> {
    for number in 0..1000 {
        if !run(&rt, number)? {
            return Ok(());
        }
    }
    Ok(())
}
