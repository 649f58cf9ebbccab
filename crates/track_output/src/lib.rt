// The whole of program `track`: from the bytes of standard input to those of standard output.
#![tactic(auto)]

ghost use Rattle.std.specs.Prelude.{◌≡◌, ◌+◌, ◌≤◌, length};
ghost use Rattle.format.specs.Format.{most_sheet};
ghost use Rattle.report.specs.Output.{Prints};
ghost use Rattle.track_output.specs.Track.{longest_track, TrackOutput};
ghost use Rattle.track_output.specs.Parts.{Behind, Printing};

use gate::Refusal;

// How many bytes of the input are read: one more than a sheet may have decides question 2, whatever follows.
pub const INPUT: usize = 32769;

// The longest output: 17 + 1,024 lines of 146 + 4 bytes.
pub const OUTPUT: usize = 149525;

// The listing stands in the buffer, or a refusal's line takes its place.
fn answer(listed: Result<usize, Refusal>, out: &mut [u8]) -> usize
    requires { (12 ≤ length out.old) × Behind listed out.old }
    ensures { Printing listed out.old out.new result }
{
    match listed {
        Ok(m) => m,
        Err(r) => report::put_refusal(r, out),
    }
}

// The listing of a sheet, or its refusal, in a buffer that is long enough.
fn list(input: &[u8], out: &mut [u8]) -> usize
    requires { longest_track ≤ length out.old }
    ensures { Prints (TrackOutput input.now) longest_track out.old out.new result }
{
    let mut table = [0u16; 128];
    let mut marks = [0u16; 128];
    let mut tuples = [0u16; 1024 * tuple_record::RECORD];
    let mut nexts = [0u16; 8192];
    let mut word = [0u16; 136];
    let mut one = [0u16; 137];
    let mut other = [0u16; 137];
    let listed = file_listing::list(
        input,
        1024,
        &mut table,
        &mut marks,
        &mut tuples,
        &mut nexts,
        &mut word,
        &mut one,
        &mut other,
        out,
    );
    answer(listed, out)
}

// What `track` prints for an input, at the front of a buffer, and how many bytes that is.
pub fn track(input: &[u8], out: &mut [u8]) -> usize
    ensures prints { Prints (TrackOutput input.now) longest_track out.old out.new result }
    ensures value { INPUT ≡ most_sheet + 1 }
{
    if out.len() < OUTPUT {
        return 0;
    }
    list(input, out)
}
