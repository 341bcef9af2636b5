// Bytes and numbers into a sink. A byte past the sink's end is dropped, so the same code run on an empty sink measures a text.
ghost use Rattle.std.specs.Prelude.{◌+◌, ◌≤◌, ◌<◌, [], ◌∷◌, length};
ghost use Rattle.text.specs.Syntax.{digit_text, decimal};
ghost use Rattle.text_writer.specs.Sink.{Wrote};

use text::number::FIRST_DIGIT;

// One byte, where there is room for it.
pub fn put(d: &mut [u8], at: usize, b: u8) -> usize
    requires { at < 1000000 }
    ensures { Wrote d.old at d.new result (b ∷ []) × (result ≤ at + 1) }
{
    if at < d.len() {
        d[at] = b;
    }
    at + 1
}

// The bytes of w.
pub fn put_bytes(d: &mut [u8], at: usize, w: &[u8]) -> usize
    requires { (at < 900000) × (length w.now ≤ 16) }
    ensures { Wrote d.old at d.new result w.now × (result ≤ at + 16) }
{
    let mut p = at;
    for b in w {
        p = put(d, p, *b);
    }
    p
}

// The digit of v at a unit, where v has one there.
pub fn put_digit(d: &mut [u8], at: usize, v: u64, unit: u64) -> usize
    requires { (at < 900000) × (0 < unit) }
    ensures { Wrote d.old at d.new result (digit_text unit v) × (result ≤ at + 1) }
{
    if v < unit {
        return at;
    }
    put(d, at, (FIRST_DIGIT + (v / unit % 10) as u32) as u8)
}

// A number in base ten.
pub fn put_number(d: &mut [u8], at: usize, v: u32) -> usize
    requires { at < 800000 }
    ensures { Wrote d.old at d.new result (decimal v) × (result ≤ at + 4) }
{
    let w = v as u64;
    let p = put_digit(d, at, w, 1000);
    let q = put_digit(d, p, w, 100);
    let t = put_digit(d, q, w, 10);
    put(d, t, (FIRST_DIGIT + v % 10) as u8)
}
