// What is run, not only proved: the worked examples of clauses, lines and
// valuations once more, as compiled code, and the edges.
#![tactic(auto)]

#[cfg(test)]
mod tests;
