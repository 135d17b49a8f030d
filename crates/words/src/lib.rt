// Sets of variables as 64-bit words: bit v - 1 stands for variable v, of 1 to
// 64. The laws of bits are proved here and nowhere else.
#![tactic(auto)]

pub mod laws;
pub mod sets;
