// The session on worked examples, as compiled code; and a caller that takes
// what it promises from the calls' contracts alone.
#![tactic(auto)]

pub mod calling;
#[cfg(test)]
mod tests;
