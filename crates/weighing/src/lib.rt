// A book as the steps read it, and how many of its lines an assignment and its
// neighbours break.
#![tactic(auto)]

pub mod book;
pub mod neighbour;
pub mod weighing;
