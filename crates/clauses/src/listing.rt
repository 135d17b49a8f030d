// The literals of a clause, one after another by rising variable.
ghost use Rattle.std.specs.Prelude.{◌≡◌};
ghost use Rattle.std.specs.Iterator.{YieldsFirst, item_count};
ghost use Rattle.clauses.specs.Clauses.{literals};
ghost use Rattle.clauses.specs.Listing.{untold};
ghost use Rattle.clauses.specs.Words.{signs};

use crate::clause::Clause;

// The literals that are not told yet.
#[derive(Clone, Copy, Debug)]
pub struct Literals {
    pub(crate) rest: Clause,
}

impl Iterator for Literals {
    type Item = i32;

    ghost next_gives = { YieldsFirst untold };

    ghost remaining = { item_count untold };

    fn next(&mut self) -> Option<i32> {
        let (literal, others) = self.rest.split_first()?;
        self.rest = others;
        Some(literal)
    }
}

impl Clause {
    // Its literals by rising variable.
    pub fn literals(&self) -> Literals
        ensures untold { untold result ≡ literals (signs self.now) }
    {
        Literals { rest: *self }
    }
}
