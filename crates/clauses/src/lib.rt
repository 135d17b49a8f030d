// Literals and clauses on 64-bit words, proved to mean what the definitions in
// specs/ say in the subject's own words.
#![tactic(auto)]

pub mod clause;
pub mod listing;
pub mod literal;
pub mod value;
