// The held text: the reader carries the lent text itself and no copy of it.
ghost use Rattle.std.specs.Prelude.{◌≡◌, ◌≤◌, length, replicate};
ghost use Rattle.text.specs.Limits.{max_lines};
ghost use Rattle.text.specs.Places.{ReadIs};
ghost use Rattle.text.specs.Read.{lines_at, room_of};

use super::lines::lines;
use text::answer::{Circuit, Misread};

// The lent text, and a place in it.
#[derive(Clone, Copy)]
pub struct HeldText<'a> {
    pub text: &'a [u8],
    pub at: usize,
}

// Holds a text at a place.
pub fn hold<'a>(text: &'a [u8], at: usize) -> HeldText<'a>
    ensures { (result.text ≡ text.entry) × (result.at ≡ at) }
{
    HeldText { text, at }
}

// Takes the held text apart, and reads its lines, from its place on, into the lent words.
pub fn read_lines<'a, 'b>(
    held: HeldText<'a>,
    words: &'b mut [u32],
    variables: u32,
) -> Result<Circuit, Misread>
    requires { held.at ≤ length held.text.now }
    ensures { ReadIs result words.new
        (lines_at max_lines held.entry.text.now variables (room_of (length words.old)) (replicate max_lines 0) 0
        held.entry.at 0 words.old) }
{
    lines(held.text, held.at, words, variables)
}

// The same with plain parameters: the text is held at the place for the one call.
pub fn lines_from<'a, 'b>(
    text: &'a [u8],
    at: usize,
    words: &'b mut [u32],
    variables: u32,
) -> Result<Circuit, Misread>
    requires { at ≤ length text.now }
    ensures { ReadIs result words.new
        (lines_at max_lines text.now variables (room_of (length words.old)) (replicate max_lines 0) 0 at 0
        words.old) }
{
    read_lines(hold(text, at), words, variables)
}
