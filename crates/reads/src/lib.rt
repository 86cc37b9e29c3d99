// Reading from standard input: a buffer is filled as far as the input goes. What is read no contract can say.
#![tactic(auto)]

ghost use Rattle.std.specs.Prelude.{◌≤◌, length, IfOk};

use std::io;
use std::io::Read;

// Reads until the buffer is full or the input ends, and answers how many bytes stand in the buffer. A read that fails
// is answered by its error.
pub fn read_full(from: &mut io::Stdin, buf: &mut [u8]) -> io::Result<usize>
    ensures within { IfOk result (λ n. n ≤ length buf.new) }
{
    let mut done: usize = 0;
    // No `for`: a read gives as many bytes as it likes.
    while done < buf.len() {
        let got = from.read(&mut buf[done..])?;
        if got == 0 {
            break;
        }
        done += got;
    }
    Ok(done)
}
