// The text of one output line. A byte past the sink's end is dropped; the answer is the line's length.
#![tactic(auto)]

ghost use Rattle.std.specs.Prelude.{◌+◌, ◌≤◌, ◌<◌};
ghost use Rattle.text_writer.specs.Sink.{Wrote};
ghost use Rattle.output.specs.Lines.{whole_decimal, count_line, mark_text, literals_text, term_line, refusal_line, number_line};

pub mod refusals;

use masks::has_bit;
use terms::Term;
use text::number::FIRST_DIGIT;
use text_writer::sink::{put, put_bytes, put_digit, put_number};

// A number of up to twenty digits.
fn put_whole(d: &mut [u8], at: usize, v: u64) -> usize
    requires { at < 700000 }
    ensures { Wrote d.old at d.new result (whole_decimal v) × (result ≤ at + 20) }
{
    let mut p = at;
    let mut unit: u64 = 10000000000000000000;
    for _ in 0..19u32 {
        p = put_digit(d, p, v, unit);
        unit /= 10;
    }
    put(d, p, (FIRST_DIGIT + (v % 10) as u32) as u8)
}

// A variable with its sign, where it stands in the term.
fn put_mark(d: &mut [u8], at: usize, here: bool, sign: &[u8; 2], v: u32) -> usize
    requires { at < 700000 }
    ensures { Wrote d.old at d.new result (mark_text here sign.now v) × (result ≤ at + 20) }
{
    if here {
        let p = put_bytes(d, at, sign);
        return put_number(d, p, v);
    }
    at
}

// How many prime implicants follow.
pub fn count_line(sink: &mut [u8], count: u32) -> usize
    ensures { Wrote sink.old 0 sink.new result (count_line count) }
{
    let p = put_bytes(sink, 0, b"(clearances ");
    let q = put_whole(sink, p, count as u64);
    put_bytes(sink, q, b")\n")
}

// The literals of a term, rising.
fn put_literals(d: &mut [u8], start: usize, t: Term) -> usize
    requires { start < 100 }
    ensures { Wrote d.old start d.new result (literals_text t 64) × (result < 5000) }
{
    let mut p = start;
    for v in 0..64 {
        let q = put_mark(d, p, has_bit(t.positive, v), b" +", v);
        p = put_mark(d, q, has_bit(t.negative, v), b" -", v);
    }
    p
}

// A term.
pub fn term_line(sink: &mut [u8], t: Term) -> usize
    ensures { Wrote sink.old 0 sink.new result (term_line t) }
{
    let p = put_bytes(sink, 0, b"(row");
    let q = put_literals(sink, p, t);
    put_bytes(sink, q, b")\n")
}

// A refusal's number with its place or node.
pub fn refusal_line(sink: &mut [u8], number: u32, place: u64) -> usize
    ensures { Wrote sink.old 0 sink.new result (refusal_line number place) }
{
    let p = put_bytes(sink, 0, b"(refused ");
    let q = put_number(sink, p, number);
    let t = put_bytes(sink, q, b" ");
    let u = put_whole(sink, t, place);
    put_bytes(sink, u, b")\n")
}

// A refusal that has no place.
pub fn number_line(sink: &mut [u8], number: u32) -> usize
    ensures { Wrote sink.old 0 sink.new result (number_line number) }
{
    let p = put_bytes(sink, 0, b"(refused ");
    let q = put_number(sink, p, number);
    put_bytes(sink, q, b")\n")
}
