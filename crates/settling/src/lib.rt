// Pairs of terms of two sides, settled one by one: a conflict, or a listed least join inside their join.
#![tactic(auto)]

pub mod counts;
pub mod rows;
mod strike;
