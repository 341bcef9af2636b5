// A form up to its first child.
ghost use Rattle.std.specs.Prelude.{◌≡◌, ◌+◌, ◌≤◌, ◌<◌, length};
ghost use Rattle.text.specs.Places.{MatchedRuns, RangedRuns, SpelledRuns, OpeningRuns};
ghost use Rattle.text.specs.Read.{match_at, ranged_at, word_at, literal_at, tail_at, head_at};
ghost use Rattle.text.specs.Words.{line_word, head_words, or_word};

use super::answer::{Fault, Misread};
use super::number::{CLOSE, OPEN, SPACE, byte_at, number};
use table::{FALSE, NEGATIVE, POSITIVE, TRUE};

// The bytes of w at a place: the place past them, or that of the first byte that differs.
pub fn match_at(s: &[u8], at: usize, w: &[u8]) -> Result<usize, usize>
    requires { (at ≤ length s.now) × (length w.now ≤ 16) }
    ensures { (result ≡ match_at s.now at w.now) × MatchedRuns s.now at result }
{
    for i in 0..w.len() {
        if byte_at(s, at + i) != w[i] as u32 {
            return Err(at + i);
        }
    }
    Ok(at + w.len())
}

// A number from low up to below high, and then the byte `next`, which is not passed: the number, and the place past it.
pub fn ranged(
    s: &[u8],
    at: usize,
    low: u32,
    high: u32,
    next: u32,
    fault: Fault,
) -> Result<(u32, usize), Misread>
    requires { (at ≤ length s.now) × (next < 256) }
    ensures { (result ≡ ranged_at s.now at low high next fault) × RangedRuns s.now at high result }
{
    let Some((v, p)) = number(s, at) else {
        return Err(Misread(Fault::Shape, at));
    };
    if byte_at(s, p) != next {
        return Err(Misread(Fault::Shape, p));
    }
    if v < low {
        return Err(Misread(fault, p));
    }
    if high <= v {
        return Err(Misread(fault, p));
    }
    Ok((v, p))
}

// The words that forms begin with.
#[derive(Clone, Copy)]
pub enum Word {
    False,
    True,
    Yes,
    No,
    Pick,
    Both,
    Line,
}

// Where a form stands: as a line's own form, which is not `line`, or as an argument of another form.
#[derive(Clone, Copy)]
pub enum Role {
    OwnForm,
    Argument,
}

// Which word stands at a place, and the place past it; where none does, the furthest place that one of them reaches.
type Spelled = Result<(Word, usize), usize>;

// This word where it stands at the place, or else what is known of the others.
fn or_word(s: &[u8], at: usize, bytes: &[u8], word: Word, others: Spelled) -> Spelled
    requires { (at ≤ length s.now) × (length bytes.now ≤ 16) × SpelledRuns s.now at others }
    ensures { (result ≡ or_word word (match_at s.now at bytes.now) others) × SpelledRuns s.now at result }
{
    match match_at(s, at, bytes) {
        Ok(p) => Ok((word, p)),
        Err(p) => others.map_err(|q| p.max(q)),
    }
}

// The word `line`, where it may stand.
fn line_word(s: &[u8], at: usize, role: Role) -> Spelled
    requires { at ≤ length s.now }
    ensures { (result ≡ word_at s.now at (line_word role)) × SpelledRuns s.now at result }
{
    match role {
        Role::OwnForm => Err(at),
        Role::Argument => or_word(s, at, b"line ", Word::Line, Err(at)),
    }
}

// The word of a form.
fn word_at(s: &[u8], at: usize, role: Role) -> Spelled
    requires { at ≤ length s.now }
    ensures { (result ≡ word_at s.now at (head_words role)) × SpelledRuns s.now at result }
{
    let line = line_word(s, at, role);
    let both = or_word(s, at, b"both", Word::Both, line);
    let pick = or_word(s, at, b"pick ", Word::Pick, both);
    let no = or_word(s, at, b"no ", Word::No, pick);
    let yes = or_word(s, at, b"yes ", Word::Yes, no);
    let truth = or_word(s, at, b"true", Word::True, yes);
    or_word(s, at, b"false", Word::False, truth)
}

// What does not change while a line is read.
#[derive(Clone, Copy)]
pub struct Limits {
    // the number of variables
    pub variables: u32,
    // how many nodes there is room for
    pub room: u32,
    // the number of earlier lines
    pub earlier: u32,
}

// What an inner form makes of the forms in it.
#[derive(Clone, Copy)]
pub enum Operator {
    // `pick`, with its variable
    Decision(u32),
    // `both`
    Conjunction,
}

// A form up to its first child, with the place past that.
#[derive(Clone, Copy)]
pub enum Opening {
    // kind and variable of a form with no child
    Leaf(u32, u32, usize),
    // a form with children to come
    Inner(Operator, usize),
    // the number of an earlier line
    Line(u32, usize),
}

// The variable of a literal, after its word.
fn literal_at(s: &[u8], at: usize, kind: u32, limits: Limits) -> Result<Opening, Misread>
    requires { at ≤ length s.now }
    ensures { (result ≡ literal_at s.now at kind limits) × OpeningRuns s.now at limits.earlier result }
{
    let (v, p) = ranged(s, at, 0, limits.variables, CLOSE, Fault::Range)?;
    Ok(Opening::Leaf(kind, v, p))
}

// What stands after the word of a form.
fn tail(s: &[u8], at: usize, word: Word, limits: Limits) -> Result<Opening, Misread>
    requires { at ≤ length s.now }
    ensures { (result ≡ tail_at s.now at word limits) × OpeningRuns s.now at limits.earlier result }
{
    match word {
        Word::False => Ok(Opening::Leaf(FALSE, 0, at)),
        Word::True => Ok(Opening::Leaf(TRUE, 0, at)),
        Word::Yes => literal_at(s, at, POSITIVE, limits),
        Word::No => literal_at(s, at, NEGATIVE, limits),
        Word::Pick => {
            let (v, p) = ranged(s, at, 0, limits.variables, SPACE, Fault::Range)?;
            Ok(Opening::Inner(Operator::Decision(v), p))
        }
        Word::Both => Ok(Opening::Inner(Operator::Conjunction, at)),
        Word::Line => {
            let (k, p) = ranged(s, at, 0, limits.earlier, CLOSE, Fault::Reference)?;
            Ok(Opening::Line(k, p))
        }
    }
}

// A form up to its first child, or to its closing bracket where it has none.
pub fn head(s: &[u8], at: usize, role: Role, limits: Limits) -> Result<Opening, Misread>
    requires { at ≤ length s.now }
    ensures { (result ≡ head_at s.now at role limits) × OpeningRuns s.now (at + 1) limits.earlier result }
{
    if byte_at(s, at) != OPEN {
        return Err(Misread(Fault::Shape, at));
    }
    match word_at(s, at + 1, role) {
        Err(p) => Err(Misread(Fault::Shape, p)),
        Ok((word, p)) => tail(s, p, word, limits),
    }
}
