// The answer of every exported function, in numbers.
ghost use Rattle.std.specs.Prelude.{◌≡◌, ℕ};
ghost use Rattle.quelbrift.specs.Boundary.{answer_by, done_with, refused_at};

// 0, or the scope's number of a refusal with its place, node or needed length; and up to three values.
#[repr(C)]
#[derive(Clone, Copy)]
pub struct Answer {
    pub number: u32,
    pub place: u64,
    pub first: u64,
    pub second: u64,
    pub third: u64,
}

// The work is done: three values.
pub fn done_with(first: u64, second: u64, third: u64) -> Answer
    ensures { result ≡ done_with first second third }
{
    Answer {
        number: 0,
        place: 0,
        first,
        second,
        third,
    }
}

// A refusal: no values.
pub fn refused_at(number: u32, place: u64) -> Answer
    ensures { result ≡ refused_at number place }
{
    Answer {
        number,
        place,
        first: 0,
        second: 0,
        third: 0,
    }
}

// What an operation answers when its work is done: up to three values.
pub trait Values {
    ghost values: { Self → ℕ × (ℕ × ℕ) };

    fn done(self) -> Answer
        ensures { result ≡ done_with (values self).0 (values self).1.0 (values self).1.1 };
}

// Why an operation is refused: the scope's number, with the place, node or needed length.
pub trait Reason {
    ghost reason: { Self → ℕ × ℕ };

    fn refused(self) -> Answer
        ensures { result ≡ refused_at (reason self).0 (reason self).1 };
}

// The answer to what an operation tells.
pub fn answer_to<T: Values, E: Reason>(told: Result<T, E>) -> Answer
    ensures { result ≡ answer_by T.values E.reason told }
{
    match told {
        Ok(value) => value.done(),
        Err(why) => why.refused(),
    }
}
