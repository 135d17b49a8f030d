// A clause as two words, and what it holds.
ghost use Rattle.std.specs.Prelude.{◌≡◌, [], ◌∷◌, if◌then◌else◌};
ghost use Rattle.words.specs.Bits.{width};
ghost use Rattle.clauses.specs.Clauses.{holds, without as but, union as joined, size, empty, literals};
ghost use Rattle.clauses.specs.Sets.{SetOf};
ghost use Rattle.clauses.specs.Literals.{names};
ghost use Rattle.clauses.specs.Splitting.{Splits};
ghost use Rattle.clauses.specs.Words.{signs};

use crate::literal::opposite;
use words::sets;

// A set of literals over 64 variables: bit v - 1 of `pos` for v, of `neg`
// for -v. Contracts see it by `signs`, a function of the two words, and not by
// a model, since other crates read and write them.
#[derive(Clone, Copy, Debug, PartialEq)]
pub struct Clause {
    pub pos: u64,
    pub neg: u64,
}

impl Clause {
    // The clause of this literal alone; the empty one where the number names
    // none of the variables 1 to 64.
    #[tactic(auto, using(crate::proofs::Words::unit_words))]
    pub fn unit(literal: i32) -> Clause
        ensures literals { SetOf (if names width literal then literal ∷ [] else []) (signs result) }
    {
        let one = sets::one(literal.unsigned_abs());
        if literal > 0 {
            Clause { pos: one, neg: 0 }
        } else {
            Clause { pos: 0, neg: one }
        }
    }

    // Whether it holds the literal.
    #[tactic(auto, using(crate::proofs::Words::holds_words))]
    pub fn holds(&self, literal: i32) -> bool
        ensures value { result ≡ holds literal (signs self.now) }
    {
        let v = literal.unsigned_abs();
        if literal > 0 {
            sets::has(self.pos, v)
        } else {
            sets::has(self.neg, v)
        }
    }

    // All its literals but this one.
    #[tactic(auto, using(crate::proofs::Words::without_rules))]
    pub fn without(&self, literal: i32) -> Clause
        ensures value { signs result ≡ but literal (signs self.now) }
    {
        let one = Clause::unit(literal);
        Clause {
            pos: self.pos & !one.pos,
            neg: self.neg & !one.neg,
        }
    }

    // The literals of both.
    #[tactic(auto, using(crate::proofs::Words::union_words))]
    pub fn union(&self, other: &Clause) -> Clause
        ensures value { signs result ≡ joined (signs self.now) (signs other.now) }
    {
        Clause {
            pos: self.pos | other.pos,
            neg: self.neg | other.neg,
        }
    }

    // How many literals it holds.
    #[tactic(auto, using(crate::proofs::Words::length_words))]
    pub fn length(&self) -> u32
        ensures value { result ≡ size (signs self.now) }
    {
        sets::count(self.pos) + sets::count(self.neg)
    }

    // Whether it holds none.
    #[tactic(auto, using(crate::proofs::Literals::empty_size))]
    pub fn is_empty(&self) -> bool
        ensures value { result ≡ empty (signs self.now) }
    {
        self.length() == 0
    }

    // Its first literal by rising variable, and the clause of the others. The
    // cast is exact, since a variable is at most 64; a `try_from` would add a
    // branch that is never taken.
    #[tactic(auto, using(crate::proofs::Splits::split_none))]
    pub fn split_first(&self) -> Option<(i32, Clause)>
        ensures splits { Splits (literals (signs self.now)) result }
    {
        let v = sets::lowest(self.pos | self.neg)? as i32;
        let literal = if self.holds(v) { v } else { opposite(v)? };
        Some((literal, self.without(literal)))
    }
}
