// Calls of a session and their answers as lines of text.
#![tactic(auto)]

pub mod answer;
pub mod call;
pub mod reading;
pub mod telling;
