// The lines of a book: what they come from, where a clause stands among them,
// what is resolved from two of them, and what a customer's clause becomes.
#![tactic(auto)]

pub mod book;
pub mod given;
pub mod line;
pub mod resolving;
