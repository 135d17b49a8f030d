// A clause as a program in C passes it, and the lines that are made of some.
ghost use Rattle.std.specs.Prelude.{◌≡◌, map, IfOk};
ghost use Rattle.weighing_c.specs.Pairs.{line_of};

use clauses::clause::Clause;
use lines::line::Line;
use std::alloc::{AllocError, Global};

// Bit v - 1 of `pos` for the literal v, of `neg` for -v.
#[repr(C)]
#[derive(Clone, Copy)]
pub struct Pair {
    pub pos: u64,
    pub neg: u64,
}

fn line_of(pair: &Pair) -> Line
    ensures value { result ≡ line_of pair.now }
{
    Line::given(Clause {
        pos: pair.pos,
        neg: pair.neg,
    })
}

// A given line for each.
pub fn lines_of(alloc: Global, given: &[Pair]) -> Result<Vec<Line>, AllocError>
    ensures lines { IfOk result (λ v. v.items ≡ map line_of given.now) }
{
    given.iter().map(line_of).collect(alloc)
}
