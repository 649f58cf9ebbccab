// The whole of program `rewrite`: from the bytes of standard input to those of standard output.
#![tactic(auto)]

ghost use Rattle.std.specs.Prelude.{◌+◌, ◌≡◌};
ghost use Rattle.lent.specs.Lent.{witness_tables};
ghost use Rattle.format.specs.Format.{most_sheet};
ghost use Rattle.report.specs.Output.{Prints};
ghost use Rattle.witness_text.specs.Put.{WrittenAt};
ghost use Rattle.rewrite_output.specs.Rewrite.{RewriteOutput, longest_rewrite};
ghost use Rattle.rewrite_output.specs.Put.{refusal_text, RefusalFits};

use gate::Refusal;

// How many bytes of the input are read: one more than a sheet may have decides question 2, whatever follows.
pub const INPUT: usize = 32769;

// The longest output: an SHT-2 of 8 names of 24 bytes, 16 states and 2,048 transitions.
pub const OUTPUT: usize = 29056;

// The line of a refusal, and with a 10 its word and walks. The answer is the count of bytes.
fn put_refusal_text(r: Refusal, word: &[u16], one: &[u16], other: &[u16], out: &mut [u8]) -> usize
    requires { RefusalFits r (witness_tables word.now one.now other.now) out.old }
    ensures { WrittenAt (refusal_text r (witness_tables word.now one.now other.now)) out.old 0 out.new result }
{
    let line = report::refusal_line(r);
    text::put_bytes(out, 0, &line);
    if r.number == 10 {
        return witness_text::put(out, 12, word, one, other, r.length);
    }
    12
}

// What the program prints for an input, with zeros behind it in the buffer. The answer is the count of its bytes: 0, with nothing touched, where the
// buffer is shorter than the longest output.
pub fn rewrite(input: &[u8], out: &mut [u8]) -> usize
    ensures prints { Prints (RewriteOutput input.now) longest_rewrite out.old out.new result }
    ensures value { INPUT ≡ most_sheet + 1 }
{
    if out.len() < OUTPUT {
        return 0;
    }
    let mut word = [0u16; 136];
    let mut one = [0u16; 137];
    let mut other = [0u16; 137];
    match file_writer::write(input, &mut word, &mut one, &mut other, out) {
        Ok(m) => m,
        Err(r) => put_refusal_text(r, &word, &one, &other, out),
    }
}
