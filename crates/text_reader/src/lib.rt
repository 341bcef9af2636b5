// The reading of circuit text.
#![tactic(auto)]

mod children;
mod form;
mod held;
mod lines;
pub mod reader;
