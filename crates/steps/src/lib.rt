// The steps of a loading script: lent as a list of records, and held in plain words.
#![tactic(auto)]

ghost use Rattle.std.specs.Prelude.{◌≡◌, ◌<◌, length, get_or};
ghost use Rattle.steps.specs.Steps.{no_step, no_columns, put, step_of, columns, stored};

// How many steps a script has at most.
pub const MAX_STEPS: usize = 256;

// A step: the variable (the scope's fact) and the act, 0 for no, 1 for yes, 2 for drop.
#[repr(C)]
#[derive(Clone, Copy)]
pub struct Step {
    pub variable: u32,
    pub act: u32,
}

// The first 256 steps, a column for each word.
#[derive(Clone, Copy)]
pub struct Columns {
    pub variables: [u32; 256],
    pub acts: [u32; 256],
}

// Columns of no step.
pub fn no_columns() -> Columns
    ensures { result ≡ no_columns }
{
    Columns {
        variables: [0; 256],
        acts: [0; 256],
    }
}

// The columns with step i; one past the 256th is not kept.
pub fn with_step(c: Columns, i: usize, s: Step) -> Columns
    ensures { result ≡ put c i s }
{
    if i < 256 {
        let mut d = c;
        d.variables[i] = s.variable;
        d.acts[i] = s.act;
        d
    } else {
        c
    }
}

// Step i of the columns, and no step past the 256th.
pub fn step_of(c: Columns, i: usize) -> Step
    ensures { result ≡ step_of c i }
{
    if i < 256 {
        Step {
            variable: c.variables[i],
            act: c.acts[i],
        }
    } else {
        Step {
            variable: 0,
            act: 0,
        }
    }
}

// A step of the list.
pub fn step_at(steps: &[Step], i: usize) -> Step
    requires { i < length steps.now }
    ensures { result ≡ get_or steps.now i no_step }
{
    steps[i]
}

// The steps of the list in columns, read in order. No more than the first 256 are looked at: the columns keep no other.
pub fn columns_of(steps: &[Step]) -> Columns
    ensures { result ≡ columns steps.now }
{
    let m = steps.len().min(MAX_STEPS);
    let mut c = no_columns();
    for i in 0..m {
        c = with_step(c, i, step_at(steps, i));
    }
    c
}

// The first n steps of the columns into the list; the others keep their values.
pub fn store(c: Columns, n: usize, steps: &mut [Step])
    ensures { steps.new ≡ stored c n steps.old }
{
    for i in 0..n.min(steps.len()) {
        steps[i] = step_of(c, i);
    }
}
