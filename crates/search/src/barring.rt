// The bar: the third of the five steps.
ghost use Rattle.std.specs.Prelude.{◌≡◌, option_map, IfSome};
ghost use Rattle.words.specs.Bits.{first};
ghost use Rattle.clauses.specs.Values.{truths};
ghost use Rattle.lines.specs.Lines.{candidate_of};
ghost use Rattle.steps.specs.Writing.{barred};
ghost use Rattle.weighing.specs.Books.{standing};
ghost use Rattle.search.specs.Laws.{KeepsTheFacts, IsBroken};

use crate::resolving::if_new;
use crate::walking::oldest_broken;
use lines::line::Line;
use valuations::judging;
use valuations::valuation::Full;
use weighing::book::Book;

// The clause of all literals of the variables 1 to n that are false now,
// widened from the oldest broken line, if it is not in the book.
pub fn bar(book: &Book<'_>, assignment: &Full) -> Option<Line>
    ensures value { option_map candidate_of result
        ≡ first (barred (standing book.now) (truths book.now.n assignment.now.word)) }
    ensures keeps { IfSome result (KeepsTheFacts book.now.n book.now.lines.now) }
    ensures broken { IfSome result (IsBroken (truths book.now.n assignment.now.word)) }
{
    let from = oldest_broken(book, assignment)?;
    let clause = judging::bar(assignment, book.n);
    if_new(book, Line::widened(from, clause))
}
