// The answers of the operations on text.
ghost use Rattle.std.specs.Prelude.{◌≡◌};
ghost use Rattle.text.specs.Answers.{fault_number};

// Why a circuit text is refused, by the scope's numbers.
#[derive(Clone, Copy)]
pub enum Fault {
    // over 110,000 bytes
    Length = 10,
    // wrong shape
    Shape = 11,
    // N or V outside its range
    Range = 12,
    // K not an earlier line
    Reference = 13,
    // a bracket seventeen deep
    Depth = 14,
    // no room for the node
    Nodes = 15,
}

// The scope's number.
pub fn fault_number(fault: Fault) -> u32
    ensures { result ≡ fault_number fault }
{
    fault as u32
}

// A text that is refused: why, and at which place.
#[derive(Clone, Copy)]
pub struct Misread(pub Fault, pub usize);

// A circuit text that was read.
#[derive(Clone, Copy)]
pub struct Circuit {
    // the number of variables
    pub variables: u32,
    // the number of nodes
    pub nodes: u32,
}

// A form that was read.
#[derive(Clone, Copy)]
pub struct Formed {
    // the place past it
    pub past: usize,
    // the number of nodes after it
    pub nodes: u32,
    // the node that it means
    pub node: u32,
}
