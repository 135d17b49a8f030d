// What is proved of the definitions of clauses and books alone: their laws. The
// worked examples are definitions here; that they hold is proved with all
// others, in `histories`.
#![tactic(auto)]

pub mod laws;
