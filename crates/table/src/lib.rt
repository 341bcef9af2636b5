// The words of a node table: what a node's words stand for, 21 and 22, and the refusals of the operations on tables.
#![tactic(auto)]

ghost use Rattle.std.specs.Prelude.{◌≡◌};
ghost use Rattle.table.specs.Outcome.{number_of, node_of};

pub mod gates;
pub mod layout;
pub mod words;

// How many nodes a table has at most, and over how many variables.
pub const MAX_NODES: u32 = 1024;

pub const MAX_VARIABLES: u32 = 40;

// The kinds of nodes, with the scope's word of each: false, true, yes, no, pick, both.
pub const FALSE: u32 = 0;

pub const TRUE: u32 = 1;

pub const POSITIVE: u32 = 2;

pub const NEGATIVE: u32 = 3;

pub const DECISION: u32 = 4;

pub const CONJUNCTION: u32 = 5;

// Why an operation on a table refuses; specs/Outcome.antt has the scope's numbers.
#[derive(Clone, Copy)]
pub enum Refusal {
    // N or n out of range, or too few words
    Sizes,
    // a node whose words its kind does not allow
    Malformed(u32),
    // a node, not the last, that is nobody's child
    Parentless(u32),
    // a node at which a variable meets itself
    Undecomposable(u32),
    // a conjunction with a false child, or a decision with two
    Unreduced(u32),
    // an assignment with a bit at N or above
    Assignment,
    // masks that are no term over N variables
    NotTerm,
    // an assignment that does not satisfy the circuit
    Unsatisfied,
    // a capacity above 4,096, or buffers too small for it
    Buffers,
    // not one weight for each variable, or one above 1,000
    Weights,
    // a pair of variables that is incomplete, has one variable twice, or one not below N
    Exclusions,
    // more prime implicants than the capacity
    Capacity,
}

// The scope's number of a refusal.
pub fn number_of(why: Refusal) -> u32
    ensures { result ≡ number_of why }
{
    match why {
        Refusal::Sizes => 21,
        Refusal::Malformed(_) => 22,
        Refusal::Parentless(_) => 23,
        Refusal::Undecomposable(_) => 24,
        Refusal::Unreduced(_) => 25,
        Refusal::Assignment => 31,
        Refusal::NotTerm => 32,
        Refusal::Unsatisfied => 33,
        Refusal::Buffers => 41,
        Refusal::Weights => 56,
        Refusal::Exclusions => 57,
        Refusal::Capacity => 42,
    }
}

// The node that a refusal names; 0 where it names none.
pub fn node_of(why: Refusal) -> u32
    ensures { result ≡ node_of why }
{
    match why {
        Refusal::Malformed(i) => i,
        Refusal::Parentless(i) => i,
        Refusal::Undecomposable(i) => i,
        Refusal::Unreduced(i) => i,
        Refusal::Sizes => 0,
        Refusal::Assignment => 0,
        Refusal::NotTerm => 0,
        Refusal::Unsatisfied => 0,
        Refusal::Buffers => 0,
        Refusal::Weights => 0,
        Refusal::Exclusions => 0,
        Refusal::Capacity => 0,
    }
}
