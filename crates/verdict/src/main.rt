// The verdict on the sheet and the plan on standard input (room 1,024), or the refusal.
#![tactic(auto)]

use std::io;
use std::io::Print;

fn main(rt: HostRuntime) -> io::Result<()> {
    let mut input = [0u8; verdict_output::INPUT];
    let mut source = rt.stdin();
    match stdin::read(&mut source, &mut input) {
        Err(_) => rt
            .stderr()
            .write_all(b"verdict: standard input cannot be read\n"),
        Ok(n) => {
            let mut out = [0u8; verdict_output::OUTPUT];
            let m = verdict_output::verdict(&input[..n], &mut out);
            rt.stdout().write_all(&out[..m])
        }
    }
}
