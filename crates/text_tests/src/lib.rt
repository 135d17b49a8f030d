// What is run, not only proved: the worked examples once more, as compiled
// code, texts too large to be computed by the prover, and lent places.
#![tactic(auto)]

#[cfg(test)]
mod outcome;
#[cfg(test)]
mod tests;
