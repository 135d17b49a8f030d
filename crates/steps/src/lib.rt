// The five steps of a run, as definitions in specs/, and what is proved of the
// definitions alone. That the worked examples hold is proved with all others,
// in `histories`.
#![tactic(auto)]

pub mod laws;
