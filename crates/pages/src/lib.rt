// The pages of a session: the sheet of its book, and the report of an answer.
#![tactic(auto)]

pub mod laws;
pub mod numbering;
pub mod report;
pub mod sheet;
