// The sweep: the fourth of the five steps.
ghost use Rattle.std.specs.Prelude.{◌≡◌, option_map, IfSome, IfNone};
ghost use Rattle.words.specs.Bits.{first};
ghost use Rattle.lines.specs.Lines.{candidate_of};
ghost use Rattle.steps.specs.Writing.{swept};
ghost use Rattle.weighing.specs.Books.{standing};
ghost use Rattle.search.specs.Laws.{KeepsTheFacts, Closed};

use crate::resolving::new_resolvent;
use lines::line::Line;
use weighing::book::Book;

// Of all pairs of lines that clash in just one variable, by the older line and
// then by the younger: the first resolvent that is new to the book.
pub fn sweep(book: &Book<'_>) -> Option<Line>
    ensures value { option_map candidate_of result ≡ first (swept (standing book.now)) }
    ensures keeps { IfSome result (KeepsTheFacts book.now.n book.now.lines.now) }
    ensures closed { IfNone result (Closed (standing book.now)) }
{
    for i in 0..book.lines.len() {
        for j in i + 1..book.lines.len() {
            if let Some(line) = new_resolvent(book, i, j) {
                return Some(line);
            }
        }
    }
    None
}
