// The steps of a run over a book and an assignment, each in a file of its own,
// and which of them is due.
#![tactic(auto)]

pub mod barring;
pub mod due;
pub mod flipping;
pub mod learning;
pub mod looking;
pub mod reading;
mod resolving;
pub mod sweeping;
pub mod walking;
