// Reading standard input to its end.
ghost use Rattle.std.specs.Prelude.{IfOk};
ghost use Rattle.console.specs.Input.{IsPrefixLen};

use std::io;
use std::io::{Read, Stdin};

// Reads until the buffer is full or the input ends: how many bytes came. Bytes past the buffer are not read. What came before a read that
// failed is not told: it may be a part of the text.
pub fn read_input(mut stdin: Stdin, buf: &mut [u8]) -> io::Result<usize>
    ensures { IfOk result (λ n. IsPrefixLen n buf.new) }
{
    let mut done = 0;
    while done < buf.len() {
        let came = stdin.read(&mut buf[done..])?;
        if came == 0 {
            break;
        }
        done += came;
    }
    Ok(done)
}
