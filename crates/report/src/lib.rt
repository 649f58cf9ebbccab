// What the programs print: their lines, and the buffer that they are put into.
#![tactic(auto)]

ghost use Rattle.std.specs.Prelude.{◌≡◌, ◌≤◌, length};
ghost use Rattle.gate.specs.Gate.{cleared, lent_text};
ghost use Rattle.report.specs.Report.{report_line, line_of, verdict_line};

use gate::Refusal;

// A word of three letters and two numbers, in a line of 12 bytes.
fn line(word: &[u8], a: usize, b: usize) -> [u8; 12]
    requires { length word.now ≡ 3 }
    ensures { result ≡ report_line word.now a b }
{
    let mut out = [0u8; 12];
    text::put_bytes(&mut out, 0, word);
    columns::put_column(&mut out, 3, 3, a);
    columns::put_column(&mut out, 6, 5, b);
    out[11] = 10;
    out
}

// The line of a refusal.
pub fn refusal_line(r: Refusal) -> [u8; 12]
    ensures { result ≡ line_of r }
{
    line(b"REF", r.number as usize, r.line)
}

// The line of a verdict.
pub fn verdict_line(yes: bool, least: usize, passes: usize) -> [u8; 12]
    ensures { result ≡ verdict_line yes least passes }
{
    if yes {
        return line(b"YES", least, passes);
    }
    line(b" NO", least, passes)
}

// A line at the front of a buffer, with zeros behind it. The answer is how many bytes it has.
pub fn put_line(line: &[u8], out: &mut [u8]) -> usize
    requires { length line.now ≤ length out.old }
    ensures { (result ≡ length line.now) × (out.new ≡ lent_text line.now out.old) }
{
    let n = line.len();
    text::put_bytes(out, 0, line);
    gate::clear_bytes(&mut out[n..]);
    n
}

// The line of a refusal at the front of a buffer that is all zero.
pub fn put_refusal(r: Refusal, out: &mut [u8]) -> usize
    requires { (12 ≤ length out.old) × (out.old ≡ cleared out.old) }
    ensures { (result ≡ length (line_of r)) × (out.new ≡ lent_text (line_of r) out.old) }
{
    let line = refusal_line(r);
    text::put_bytes(out, 0, &line);
    12
}
