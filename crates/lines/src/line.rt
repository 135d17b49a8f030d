// A line of the book: a clause, and where it comes from. Only this file looks
// into an origin, and what writes lines out for a reader.
ghost use Rattle.std.specs.Prelude.{◌≡◌};
ghost use Rattle.clauses.specs.Clauses.{same};
ghost use Rattle.lines.specs.Lines.{clause_of, given, given_line, resolved_line, widened_line};
ghost use Rattle.lines.specs.Same.{lines_alike};

use clauses::clause::Clause;

// Where a line comes from. Lines are named by their numbers, from 1, oldest
// first.
#[derive(Clone, Copy, Debug, PartialEq)]
pub enum Origin {
    Given,
    // In a variable, from two older lines that clash in it, as they were met.
    Resolved {
        variable: u32,
        first: u32,
        second: u32,
    },
    // From one older line.
    Widened {
        from: u32,
    },
}

#[derive(Clone, Copy, Debug)]
pub struct Line {
    origin: Origin,
    clause: Clause,
}

// A constructor for each origin, since each has fields of its own.
impl Line {
    pub fn given(clause: Clause) -> Line
        ensures value { result ≡ given_line clause }
    {
        Line {
            origin: Origin::Given,
            clause,
        }
    }

    pub fn resolved(variable: u32, first: u32, second: u32, clause: Clause) -> Line
        ensures value { result ≡ resolved_line variable first second clause }
    {
        Line {
            origin: Origin::Resolved {
                variable,
                first,
                second,
            },
            clause,
        }
    }

    pub fn widened(from: u32, clause: Clause) -> Line
        ensures value { result ≡ widened_line from clause }
    {
        Line {
            origin: Origin::Widened { from },
            clause,
        }
    }

    pub fn origin(&self) -> Origin
        ensures value { result ≡ self.now.origin }
    {
        self.origin
    }

    pub fn is_given(&self) -> bool
        ensures value { result ≡ given self.now.origin }
    {
        matches!(self.origin, Origin::Given)
    }

    pub fn clause(&self) -> Clause
        ensures value { result ≡ self.now.clause }
    {
        self.clause
    }
}

// Lines are equal as clauses, wherever they come from.
impl PartialEq for Line {
    ghost eq = { λ x y. same (clause_of x) (clause_of y) };

    ghost laws = { lines_alike };

    #[tactic(auto, using(clauses::proofs::Words::same_words))]
    fn eq(&self, other: &Line) -> bool {
        self.clause() == other.clause()
    }
}
