// Clause texts (DIMACS CNF): what a text says, or where it is wrong. The first
// four words are the problem line (problem.rt), and the reader (reader.rt)
// gives the clauses after it one at a time. Words and comments come from the
// crate `tokens`.
#![tactic(auto)]

pub mod faults;
pub mod problem;
pub mod reader;
