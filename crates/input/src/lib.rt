// Reading from a reader until a slice is full.
#![tactic(auto)]

ghost use Rattle.std.specs.Prelude.{◌≡◌, ◌≤◌, ◌<◌, length, take, IfOk};
ghost use Rattle.std.specs.Io.KnownBytes.{Consumes, IsAtEnd};

use std::io;
use std::io::Read;

// Fills a slice from its start on, and answers how many bytes there were before the input's end.
pub fn read_full<R: Read>(reader: &mut R, bytes: &mut [u8]) -> io::Result<usize>
    ensures filled { IfOk result (λ n. n ≤ length bytes.new) }
    ensures size { length bytes.new ≡ length bytes.old }
    ensures bytes { IfOk result (λ n. Consumes (R.remaining reader.old) (R.remaining reader.new) (take n bytes.new)) }
    ensures end { IfOk result (λ n. n < length bytes.new → IsAtEnd (R.remaining reader.new)) }
{
    let mut at: usize = 0;
    while at < bytes.len() {
        let n = reader.read(&mut bytes[at..])?;
        if n == 0 {
            break;
        }
        at += n;
    }
    Ok(at)
}
