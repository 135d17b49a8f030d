// What is run, not only proved: rows, guides and the steps once more, as
// compiled code, and guides of another crate.
#![tactic(auto)]

#[cfg(test)]
mod guiding;
#[cfg(test)]
mod tests;
