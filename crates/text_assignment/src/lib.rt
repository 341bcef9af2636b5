// The reading of assignment lines.
#![tactic(auto)]

pub mod assignment;
