// Standard input, output and error for the programs.
#![tactic(auto)]

pub mod input;

use std::io;
use std::io::{ErrorKind, Print, Stderr, Stdout};

// Writes the first n bytes of a line to standard output.
pub fn write(stdout: Stdout, line: &[u8], n: usize) -> io::Result<()> {
    if line.len() < n {
        return Err(io::Error::from(ErrorKind::InvalidInput));
    }
    stdout.write_all(&line[..n])
}

// The same where nobody asks whether it went.
pub fn print(stdout: Stdout, line: &[u8], n: usize) {
    let _ = write(stdout, line, n);
}

// Writes a message to standard error.
pub fn tell(stderr: Stderr, message: &[u8]) {
    let _ = stderr.write_all(message);
}
