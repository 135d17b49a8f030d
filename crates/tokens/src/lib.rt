// The words and comments of a clause text. Number words are read in
// numbers.rt, and a text is cut into tokens in stream.rt; what the words say
// is for the crate `text`.
#![tactic(auto)]

pub mod numbers;
pub mod stream;
