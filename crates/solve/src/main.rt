// The program: clause text on standard input, the answer on standard output.
// It always ends with status 0.
#![tactic(auto)]

mod fault;
mod laws;
mod solving;
mod streams;
#[cfg(test)]
mod tests;

use streams::converse;

// What failed, if anything did, is told by then where it could be.
fn main(rt: HostRuntime) {
    let _ = converse(rt.alloc(), rt.stdin(), &mut rt.stdout());
}
