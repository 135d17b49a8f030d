// Pages of numbers and words, written as ASCII into memory that a caller lends.
#![tactic(auto)]

pub mod laws;
pub mod page;
pub mod written;
