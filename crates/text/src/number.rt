// Bytes and numbers at a place of a text.
ghost use Rattle.std.specs.Prelude.{◌≡◌, ◌+◌, ◌≤◌, ◌<◌, length, OnSome};
ghost use Rattle.text.specs.Places.{NumeralRuns, DigitIs};
ghost use Rattle.text.specs.Read.{byte_at, digit_at, number_at};

// Stands for the byte at the end of a text, and is no byte.
pub const END: u32 = 256;

pub const NEWLINE: u32 = b'\n' as u32;

pub const SPACE: u32 = b' ' as u32;

pub const OPEN: u32 = b'(' as u32;

pub const CLOSE: u32 = b')' as u32;

pub const FIRST_DIGIT: u32 = b'0' as u32;

pub const LAST_DIGIT: u32 = b'9' as u32;

// A byte of the text as a number, or END at and past its end.
pub fn byte_at(s: &[u8], at: usize) -> u32
    ensures { result ≡ byte_at s.now at }
{
    if at < s.len() { s[at] as u32 } else { END }
}

// The value of the digit at a place.
fn digit(s: &[u8], at: usize) -> Option<u32>
    ensures { DigitIs (digit_at s.now at) result × OnSome result (at < length s.now) }
{
    match byte_at(s, at) {
        c @ FIRST_DIGIT..=LAST_DIGIT => Some(c - FIRST_DIGIT),
        _ => None,
    }
}

// One to four digits with no leading zero: the number, and the place past it.
pub fn number(s: &[u8], at: usize) -> Option<(u32, usize)>
    requires { at ≤ length s.now }
    ensures { (result ≡ number_at s.now at) × NumeralRuns s.now at result }
{
    let mut v = digit(s, at)?;
    if v == 0 {
        return Some((0, at + 1));
    }
    for k in 1..4 {
        let Some(d) = digit(s, at + k) else {
            return Some((v, at + k));
        };
        v = 10 * v + d;
    }
    Some((v, at + 4))
}
