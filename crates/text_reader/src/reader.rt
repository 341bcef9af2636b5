// The reading of a circuit text.
ghost use Rattle.std.specs.Prelude.{◌≡◌, length, replicate};
ghost use Rattle.text.specs.Places.{HeaderRuns, ReadIs};
ghost use Rattle.text.specs.Read.{header_at, read_text};

use super::held::lines_from;
use table::MAX_VARIABLES;
use text::answer::{Circuit, Fault, Misread};
use text::head::{match_at, ranged};
use text::limits::MAX_BYTES;
use text::number::{CLOSE, NEWLINE, byte_at};

// The numbers of variables are below this.
const VARIABLES_END: u32 = MAX_VARIABLES + 1;

// `(circuit N)` and byte 10: N, and the place past them.
fn header(s: &[u8]) -> Result<(u32, usize), Misread>
    ensures { (result ≡ header_at s.now) × HeaderRuns s.now result }
{
    let p = match_at(s, 0, b"(circuit ").map_err(|p| Misread(Fault::Shape, p))?;
    let (v, q) = ranged(s, p, 1, VARIABLES_END, CLOSE, Fault::Range)?;
    if byte_at(s, q + 1) != NEWLINE {
        return Err(Misread(Fault::Shape, q + 1));
    }
    Ok((v, q + 2))
}

// Every word becomes 0.
fn clear(words: &mut [u32])
    ensures { words.new ≡ replicate (length words.old) 0 }
{
    words.fill(0);
}

// Reads a circuit text into lent words. A refusal leaves every word 0.
pub fn read(text: &[u8], words: &mut [u32]) -> Result<Circuit, Misread>
    ensures { ReadIs result words.new (read_text text.now (length words.old)) }
{
    clear(words);
    if MAX_BYTES < text.len() {
        return Err(Misread(Fault::Length, MAX_BYTES));
    }
    let (variables, at) = header(text)?;
    let reading = lines_from(text, at, words, variables);
    if reading.is_err() {
        clear(words);
    }
    reading
}
