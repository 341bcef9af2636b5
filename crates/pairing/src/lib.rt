// All pairs of terms of two sides.
#![tactic(auto)]

pub mod pairs;
