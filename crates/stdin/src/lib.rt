// Standard input, or any other reader, read into a buffer; a read that fails is told from an input that ends.
#![tactic(auto)]

ghost use Rattle.stdin.specs.Input.{ReadWithin};

use std::io;
use std::io::Read;

// Reads until the buffer is full or the input ends.
pub fn read<R: Read>(source: &mut R, buf: &mut [u8]) -> io::Result<usize>
    ensures { ReadWithin buf.new 0 result }
{
    let mut n = 0;
    // A while: how much a read brings, the reader tells.
    while n < buf.len() {
        let more = source.read(&mut buf[n..])?;
        if more == 0 {
            return Ok(n);
        }
        n += more;
    }
    Ok(n)
}
