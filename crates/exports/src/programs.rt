// The functions of the programs: from the bytes of standard input to those of standard output.
ghost use Rattle.report.specs.Output.{Prints};
ghost use Rattle.track_output.specs.Track.{TrackOutput, longest_track};
ghost use Rattle.verdict_output.specs.Verdict.{VerdictOutput, longest_verdict};
ghost use Rattle.rewrite_output.specs.Rewrite.{RewriteOutput, longest_rewrite};

// `track_output::track`
#[unsafe(no_mangle)]
pub extern "C" fn lunthomi_track_output(input: &[u8], out: &mut [u8]) -> usize
    ensures { Prints (TrackOutput input.now) longest_track out.old out.new result }
{
    track_output::track(input, out)
}

// `verdict_output::verdict`
#[unsafe(no_mangle)]
pub extern "C" fn lunthomi_verdict_output(input: &[u8], out: &mut [u8]) -> usize
    ensures { Prints (VerdictOutput input.now) longest_verdict out.old out.new result }
{
    verdict_output::verdict(input, out)
}

// `rewrite_output::rewrite`
#[unsafe(no_mangle)]
pub extern "C" fn lunthomi_rewrite_output(input: &[u8], out: &mut [u8]) -> usize
    ensures { Prints (RewriteOutput input.now) longest_rewrite out.old out.new result }
{
    rewrite_output::rewrite(input, out)
}
