// The program: a list of calls on standard input, an answer line for each on
// standard output.
#![tactic(auto)]

mod answering;
mod guiding;
mod laws;
mod playing;
mod replaying;
#[cfg(test)]
mod tests;

use replaying::replay;
use std::io;

fn main(rt: HostRuntime) -> io::Result<()> {
    replay(rt.alloc(), rt.stdin(), &mut rt.stdout())
}
