// Lists the tracker of the sheet on standard input (room 1,024), or prints its refusal.
#![tactic(auto)]

use std::io;
use std::io::Print;

fn main(rt: HostRuntime) -> io::Result<()> {
    let mut input = [0u8; track_output::INPUT];
    let mut source = rt.stdin();
    match stdin::read(&mut source, &mut input) {
        Err(_) => rt
            .stderr()
            .write_all(b"track: standard input cannot be read\n"),
        Ok(n) => {
            let mut out = [0u8; track_output::OUTPUT];
            let m = track_output::track(&input[..n], &mut out);
            rt.stdout().write_all(&out[..m])
        }
    }
}
