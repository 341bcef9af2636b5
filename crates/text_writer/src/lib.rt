// The writing of text: bytes and numbers, and the text of a table.
#![tactic(auto)]

pub mod fault;
pub mod sink;
pub mod writer;
