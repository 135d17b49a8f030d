// The look before a step.
ghost use Rattle.std.specs.Prelude.{◌≡◌};
ghost use Rattle.std.specs.List.{list_any};
ghost use Rattle.clauses.specs.Clauses.{empty};
ghost use Rattle.clauses.specs.Values.{truths};
ghost use Rattle.lines.specs.Lines.{clause_of};
ghost use Rattle.weighing.specs.Books.{standing};
ghost use Rattle.search.specs.Laws.{Means};
ghost use Rattle.search.specs.Moves.{look_at};

use crate::walking::oldest_broken;
use lines::line::Line;
use valuations::valuation::Full;
use weighing::book::Book;

// What a run sees before a step: an empty line, else no broken line, else
// neither.
#[derive(Clone, Copy, Debug, PartialEq)]
pub enum Seen {
    Refuted,
    Met,
    Undecided,
}

// Whether some line is empty.
fn has_empty(lines: &[Line]) -> bool
    ensures value { result ≡ list_any (λ l. empty (clause_of l)) lines.now }
{
    lines.iter().any(|line| line.clause().is_empty())
}

// Looks for an empty line first, and then for a broken one.
#[tactic(auto, using(crate::proofs::Walks::any_empty, crate::proofs::Walks::found_breaks, crate::proofs::Seeing::refuted, crate::proofs::Seeing::met))]
pub fn look(book: &Book<'_>, assignment: &Full) -> Seen
    ensures value { result ≡ look_at (standing book.now) (truths book.now.n assignment.now.word) }
    ensures means { Means book.now.n book.now.lines.now
        (truths book.now.n assignment.now.word) result }
{
    if has_empty(book.lines) {
        return Seen::Refuted;
    }
    if oldest_broken(book, assignment).is_some() {
        return Seen::Undecided;
    }
    Seen::Met
}
