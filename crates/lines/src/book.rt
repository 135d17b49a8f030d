// Where a clause stands among the lines of a book.
ghost use Rattle.std.specs.Prelude.{◌≡◌};
ghost use Rattle.lines.specs.Lines.{clauses, number_of};
ghost use Rattle.clauses.specs.Words.{signs};

use crate::line::Line;
use clauses::clause::Clause;
use table::search::position;

// The number of the oldest line that is this clause.
#[tactic(auto, using(crate::proofs::Found::none_found))]
pub fn number(lines: &[Line], clause: &Clause) -> Option<usize>
    ensures value { result ≡ number_of (signs clause.now) (clauses lines.now) }
{
    let i = position(lines, &Line::given(*clause))?;
    Some(i + 1)
}
