// The bytes of a stream, for the programs: what they read goes into a lent buffer, and nothing is allocated.
#![tactic(auto)]

ghost use Rattle.std.specs.Prelude.{◌≤◌, ◌<◌, length, take, IfOk};
ghost use Rattle.std.specs.Io.KnownBytes.{Consumes, IsAtEnd};

use std::io;
use std::io::Read;

// Reads until the buffer is full or the stream ends, and answers how many bytes were read.
pub fn read_full<R: Read>(stream: &mut R, buffer: &mut [u8]) -> io::Result<usize>
    ensures within { IfOk result (λ size. size ≤ length buffer.new) }
    ensures bytes { IfOk result (λ size. Consumes (R.remaining stream.old) (R.remaining stream.new) (take size buffer.new)) }
    ensures end { IfOk result (λ size. size < length buffer.new → IsAtEnd (R.remaining stream.new)) }
{
    let mut size = 0;
    while size < buffer.len() {
        let more = stream.read(&mut buffer[size..])?;
        if more == 0 {
            break;
        }
        size += more;
    }
    Ok(size)
}
