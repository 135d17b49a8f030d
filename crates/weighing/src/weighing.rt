// The row of an assignment.
ghost use Rattle.std.specs.Prelude.{◌≡◌};
ghost use Rattle.clauses.specs.Values.{truths};
ghost use Rattle.guides.specs.Counted.{counts as counted};
ghost use Rattle.weighing.specs.Books.{standing};
ghost use Rattle.steps.specs.Rows.{row};

use crate::book::Book;
use guides::row::Row;
use limits::LENGTHS;
use valuations::judging::is_broken;
use valuations::valuation::Full;

// How many lines the assignment breaks, by their lengths.
pub fn weigh(book: &Book<'_>, assignment: &Full) -> Row
    ensures row { counted result ≡ row (standing book.now) (truths book.now.n assignment.now.word) }
{
    let mut counts = [0; LENGTHS];
    for line in book.lines {
        let clause = line.clause();
        if is_broken(assignment, &clause) {
            counts[clause.length() as usize] += 1;
        }
    }
    Row { counts }
}
