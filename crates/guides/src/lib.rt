// What guides a search: rows, which count broken lines by length, and the
// guides, each of which ranks rows and says which of two is better.
#![tactic(auto)]

pub mod fewest;
pub mod guide;
pub mod laws;
pub mod longest;
pub mod row;
