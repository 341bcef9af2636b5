// Circuit text and assignment lines: what they are, and the reading of their numbers and words.
#![tactic(auto)]

pub mod answer;
pub mod head;
pub mod limits;
pub mod number;
