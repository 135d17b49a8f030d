// What a clause given as signed numbers becomes.
ghost use Rattle.std.specs.Prelude.{◌≡◌, ◌≤◌, neg_ℤ, true, min};
ghost use Rattle.std.specs.List.{list_all};
ghost use Rattle.words.specs.Bits.{width};
ghost use Rattle.clauses.specs.Literals.{names, among, tautology};
ghost use Rattle.lines.specs.Given.{Becomes, Gathers};

use crate::line::Line;
use clauses::clause::Clause;
use clauses::literal::{opposite, variable};
use table::search::position;
use words::sets::WIDTH;

// A number that names none of the variables.
#[derive(Clone, Copy, Debug, PartialEq)]
pub struct NoLiteral;

// The set of these literals over the variables 1 to n.
#[tactic(auto, using(crate::proofs::Gathering::none_held))]
fn gather(numbers: &[i32], n: u32) -> Result<Clause, NoLiteral>
    requires { n ≤ width }
    ensures gathers { Gathers n numbers.now result }
{
    let mut clause = Clause { pos: 0, neg: 0 };
    for number in numbers {
        variable(*number, n).ok_or(NoLiteral)?;
        clause = clause.union(&Clause::unit(*number));
    }
    Ok(clause)
}

// Whether the literal that says the contrary is among the numbers.
#[tactic(auto, using(crate::proofs::Opposed::found_among, crate::proofs::Opposed::unnamed_among))]
fn has_opposite(numbers: &[i32], literal: i32) -> bool
    requires named { list_all (names width) numbers.now ≡ true }
    ensures value { result ≡ among (neg_ℤ literal) numbers.now }
{
    match opposite(literal) {
        Some(other) => position(numbers, &other).is_some(),
        None => false,
    }
}

// Whether some v and -v are among the numbers.
fn is_tautology(numbers: &[i32]) -> bool
    requires named { list_all (names width) numbers.now ≡ true }
    ensures value { result ≡ tautology numbers.now }
{
    numbers.iter().any(
        |number|
            requires { list_all (names width) numbers.now ≡ true }
            ensures { result ≡ among (neg_ℤ number.now) numbers.entry.now }
        { has_opposite(numbers, *number) },
    )
}

// The line of a clause over the variables 1 to n, of all 64 where n is above
// that: none where every assignment meets the clause.
#[tactic(auto, using(crate::proofs::Becoming::becomes, crate::proofs::Opposed::all_named))]
pub fn given_line(numbers: &[i32], n: u32) -> Result<Option<Line>, NoLiteral>
    ensures becomes { Becomes (min n width) numbers.now result }
{
    let clause = gather(numbers, n.min(WIDTH))?;
    Ok((!is_tautology(numbers)).then_some(Line::given(clause)))
}
