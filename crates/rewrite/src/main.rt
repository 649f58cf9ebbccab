// Writes the sheet on standard input out again, with composed letters; or prints its refusal, with the two walks of a 10.
#![tactic(auto)]

use std::io;
use std::io::Print;

fn main(rt: HostRuntime) -> io::Result<()> {
    let mut input = [0u8; rewrite_output::INPUT];
    let mut source = rt.stdin();
    match stdin::read(&mut source, &mut input) {
        Err(_) => rt
            .stderr()
            .write_all(b"rewrite: standard input cannot be read\n"),
        Ok(n) => {
            let mut out = [0u8; rewrite_output::OUTPUT];
            let m = rewrite_output::rewrite(&input[..n], &mut out);
            rt.stdout().write_all(&out[..m])
        }
    }
}
