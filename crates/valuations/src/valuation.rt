// What a valuation says of the variables, and the two valuations.
ghost use Rattle.std.specs.Prelude.{◌≡◌, ℕ, ◌≤◌, if◌then◌else◌};
ghost use Rattle.words.specs.Bits.{width, BitsWhere};
ghost use Rattle.clauses.specs.declared.value.Value.{Value};
ghost use Rattle.clauses.specs.declared.value.Value.TheVariants.{True, False, Unset};
ghost use Rattle.clauses.specs.Literals.{value_of};
ghost use Rattle.clauses.specs.Values.{is_true, is_false, full, partly};
ghost use Rattle.std.proofs.Common.{rules};

use clauses::clause::Clause;
use clauses::value::Value;

// The value of a literal that is true, or that is false, or neither.
fn told(is_true: bool, is_false: bool) -> Value
    ensures value { result ≡ (if is_true then True else (if is_false then False else Unset)) }
{
    match (is_true, is_false) {
        (true, _) => Value::True,
        (false, true) => Value::False,
        (false, false) => Value::Unset,
    }
}

pub trait Valuation {
    // For each variable true, false or unset; variable v at place v - 1.
    ghost values: { Self → ℕ → Value };

    // The variables that are true.
    fn trues(&self) -> u64
        ensures bits { BitsWhere (λ k. is_true (values self.now k)) result };

    // The variables that are false.
    fn falses(&self) -> u64
        ensures bits { BitsWhere (λ k. is_false (values self.now k)) result };

    // The value of a literal.
    #[tactic(auto, using(crate::proofs::Valued::value_words))]
    fn value(&self, literal: i32) -> Value
        ensures value { result ≡ value_of (values self.now) literal }
    {
        let trues = Clause {
            pos: self.trues(),
            neg: self.falses(),
        };
        let falses = Clause {
            pos: trues.neg,
            neg: trues.pos,
        };
        told(trues.holds(literal), falses.holds(literal))
    }

    // There are 64 variables.
    ghost beyond: { (x : Self) (k : ℕ) → width ≤ k → values x k ≡ Unset };
}

// An assignment of all variables: v is true where bit v - 1 of the word is
// one, else false.
#[derive(Clone, Copy, Debug, PartialEq)]
pub struct Full {
    pub word: u64,
}

impl Valuation for Full {
    ghost values = { λ x. full x.word };

    ghost beyond = { Prim.search rules };

    fn trues(&self) -> u64 {
        self.word
    }

    #[tactic(auto, using(crate::proofs::Valued::full_falses))]
    fn falses(&self) -> u64 {
        !self.word
    }
}

// The variables of `set` are true or false as in `word`, the others unset.
#[derive(Clone, Copy, Debug, PartialEq)]
pub struct Partial {
    pub set: u64,
    pub word: u64,
}

impl Valuation for Partial {
    ghost values = { λ x. partly x.set x.word };

    ghost beyond = { Prim.search rules };

    #[tactic(auto, using(crate::proofs::Valued::partial_trues))]
    fn trues(&self) -> u64 {
        self.set & self.word
    }

    #[tactic(auto, using(crate::proofs::Valued::partial_falses))]
    fn falses(&self) -> u64 {
        self.set & !self.word
    }
}
