// The limits of circuit text.
use table::MAX_NODES;

// How many bytes a text may have.
pub const MAX_BYTES: usize = 110000;

// How many brackets may be open in one another.
pub const MAX_DEPTH: u32 = 16;

// How many lines are looked at: each makes a node, and there is no room for one more than the most.
pub const MAX_LINES: u32 = MAX_NODES + 1;
