// Two clauses that clash, and what is resolved from them.
ghost use Rattle.std.specs.Prelude.{◌≡◌, length};
ghost use Rattle.words.specs.Bits.{variables};
ghost use Rattle.clauses.specs.Clauses.{clashes};
ghost use Rattle.lines.specs.Resolving.{Resolves};
ghost use Rattle.clauses.specs.Words.{signs};

use clauses::clause::Clause;
use words::sets;

// A clause resolved in a variable.
#[derive(Clone, Copy, Debug, PartialEq)]
pub struct Resolvent {
    pub variable: u32,
    pub clause: Clause,
}

// The variables in which one clause holds v and the other -v.
#[tactic(auto, using(crate::proofs::Paired::clash_words))]
fn clash(a: &Clause, b: &Clause) -> u64
    ensures value { variables result ≡ clashes (signs a.now) (signs b.now) }
{
    (a.pos & b.neg) | (a.neg & b.pos)
}

// In how many variables the two clash.
pub fn clash_count(a: &Clause, b: &Clause) -> u32
    ensures value { result ≡ length (clashes (signs a.now) (signs b.now)) }
{
    sets::count(clash(a, b))
}

// The resolvent of two clauses that clash in exactly one variable.
pub fn resolve(a: &Clause, b: &Clause) -> Option<Resolvent>
    ensures resolves { Resolves (signs a.now) (signs b.now) result }
{
    let variable = sets::only(clash(a, b))?;
    let others = !sets::one(variable);
    let clause = Clause {
        pos: (a.pos | b.pos) & others,
        neg: (a.neg | b.neg) & others,
    };
    Some(Resolvent { variable, clause })
}
