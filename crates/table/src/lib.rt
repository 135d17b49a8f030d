// Places that a caller lends, filled from the front, and the one search for
// an equal entry. Every crate that keeps entries in lent memory uses these.
#![tactic(auto)]

pub mod filled;
pub mod search;
