// An input read whole, as far as the buffer goes that is lent for it.
#![tactic(auto)]

ghost use Rattle.std.specs.Prelude.{◌≤◌, length, IfOk};

use std::io::{self, Read};

// Reads until the buffer is full or the source ends, and gives how many bytes that is.
pub fn read_full(source: &mut impl Read, buffer: &mut [u8]) -> io::Result<usize>
    ensures { IfOk result (λ n. n ≤ length buffer.new) }
{
    // Stays: a source gives as many bytes at once as it likes, so the place goes on by that number and no index is counted.
    let mut done = 0;
    while done < buffer.len() {
        let n = source.read(&mut buffer[done..])?;
        if n == 0 {
            break;
        }
        done += n;
    }
    Ok(done)
}
