// The answers of the reading.
ghost use Rattle.std.specs.Prelude.{◌≡◌};
ghost use Rattle.text_script.specs.Faults.{fault_of};

use steps::Columns;
use text::answer::{Fault, Misread};

// The steps of a script, in columns.
#[derive(Clone, Copy)]
pub struct Script {
    pub columns: Columns,
    // the number of steps
    pub count: usize,
}

// Why a script is refused; specs/Faults.antt has the scope's numbers.
#[derive(Clone, Copy)]
pub enum ScriptFault {
    // a number of variables outside its range
    Sizes,
    // wrong shape, at this place
    Shape(usize),
    // a variable out of range, at this place
    Variable(usize),
}

// A number that is no variable.
impl From<Misread> for ScriptFault {
    ghost from_gives = { λ m e. e ≡ fault_of m };

    fn from(m: Misread) -> ScriptFault {
        match m {
            Misread(Fault::Range, place) => ScriptFault::Variable(place),
            Misread(_, place) => ScriptFault::Shape(place),
        }
    }
}
