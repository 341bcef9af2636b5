// The reading of loading scripts.
#![tactic(auto)]

pub mod answer;
pub mod line;
pub mod script;
