// The whole of program `verdict`: from the bytes of standard input to those of standard output.
#![tactic(auto)]

ghost use Rattle.std.specs.Prelude.{◌≡◌, ◌+◌};
ghost use Rattle.report.specs.Output.{Prints};
ghost use Rattle.verdict_output.specs.Verdict.{longest_verdict, most_input, VerdictOutput};
ghost use Rattle.verdict_output.specs.Parts.{judged_line, outcome_line};

use gate::Refusal;
use passes::Verdict;

// How many bytes of the input are read: one more than a sheet and a plan may have together decides question 2, whatever follows.
pub const INPUT: usize = 45057;

// The longest output: a line.
pub const OUTPUT: usize = 12;

// The line of a verdict.
fn judged_line(v: Verdict) -> [u8; 12]
    ensures { result ≡ judged_line v }
{
    let answer = v.answer;
    report::verdict_line(passes::is_yes(answer), v.least as usize, v.passes)
}

// The line of an outcome.
fn outcome_line(o: Result<Verdict, Refusal>) -> [u8; 12]
    ensures { result ≡ outcome_line o }
{
    match o {
        Ok(v) => judged_line(v),
        Err(r) => report::refusal_line(r),
    }
}

// The sheet, and behind its END the plan.
fn judge_input(input: &[u8]) -> Result<Verdict, Refusal>
    ensures { VerdictOutput input.now (outcome_line result) }
{
    let e = sheet_end::sheet_end(input);
    let mut table = [0u16; 128];
    let mut marks = [0u16; 128];
    let mut tuples = [0u16; 1024 * tuple_record::RECORD];
    let mut nexts = [0u16; 8192];
    let mut word = [0u16; 136];
    let mut one = [0u16; 137];
    let mut other = [0u16; 137];
    judge::verdict(
        &input[..e],
        &input[e..],
        1024,
        &mut table,
        &mut marks,
        &mut tuples,
        &mut nexts,
        &mut word,
        &mut one,
        &mut other,
    )
}

// What `verdict` prints for an input, at the front of a buffer, and how many bytes that is.
pub fn verdict(input: &[u8], out: &mut [u8]) -> usize
    ensures prints { Prints (VerdictOutput input.now) longest_verdict out.old out.new result }
    ensures value { INPUT ≡ most_input + 1 }
{
    if out.len() < OUTPUT {
        return 0;
    }
    let line = outcome_line(judge_input(input));
    report::put_line(&line, out)
}
