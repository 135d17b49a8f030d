// Valuations, and what clauses are under them.
#![tactic(auto)]

pub mod judging;
pub mod valuation;
