// What a clause is under a valuation: one text for every valuation.
ghost use Rattle.std.specs.Prelude.{◌≡◌};
ghost use Rattle.clauses.specs.Clauses.{broken, critical, bar as barring};
ghost use Rattle.clauses.specs.Words.{signs};

use crate::valuation::Valuation;
use clauses::clause::Clause;
use clauses::value::Value;
use words::sets;

// All its literals are false.
#[tactic(auto, using(crate::proofs::Judged::broken_words))]
pub fn is_broken<V: Valuation>(valuation: &V, clause: &Clause) -> bool
    ensures value { result ≡ broken (V.Valuation.values valuation.now) (signs clause.now) }
{
    let falses = valuation.falses();
    let trues = valuation.trues();
    (clause.pos & !falses) | (clause.neg & !trues) == 0
}

// It holds the literal, this one is true, and its others are false. The value
// is looked at first and apart, since it is the same for every clause.
pub fn is_critical<V: Valuation>(valuation: &V, clause: &Clause, literal: i32) -> bool
    ensures value { result ≡ critical (V.Valuation.values valuation.now) literal (signs clause.now) }
{
    valuation.value(literal) == Value::True
        && clause.holds(literal) & is_broken(valuation, &clause.without(literal))
}

// The clause of all literals of the variables 1 to n that are false.
#[tactic(auto, using(crate::proofs::Judged::bar_words))]
pub fn bar<V: Valuation>(valuation: &V, n: u32) -> Clause
    ensures value { signs result ≡ barring n (V.Valuation.values valuation.now) }
{
    let first = sets::mask(n);
    Clause {
        pos: valuation.falses() & first,
        neg: valuation.trues() & first,
    }
}
