// A line resolved from two, and whether a line is new.
ghost use Rattle.std.specs.Prelude.{◌≡◌, ◌+◌, ◌<◌, [], length, option_map, slice_index_or};
ghost use Rattle.words.specs.Bits.{first};
ghost use Rattle.lines.specs.Lines.{candidate_of};
ghost use Rattle.steps.specs.Writing.{fresh, resolved_from};
ghost use Rattle.weighing.specs.Books.{standing};

use lines::book::number;
use lines::line::Line;
use lines::resolving::resolve;
use weighing::book::Book;

// The line, if its clause is not in the book.
#[tactic(auto, using(crate::proofs::New::none_new, crate::proofs::New::first_kept))]
pub fn if_new(book: &Book<'_>, line: Line) -> Option<Line>
    ensures value { option_map candidate_of result
        ≡ first (fresh (standing book.now) (candidate_of line)) }
{
    number(book.lines, &line.clause()).is_none().then_some(line)
}

// The resolvent of the lines at two indices, if they clash in exactly one
// variable and it is not in the book. The casts are exact, since a book has at
// most 65,536 lines.
#[tactic(auto, using(lines::proofs::Stated::clauses_at))]
pub fn new_resolvent(book: &Book<'_>, i: usize, j: usize) -> Option<Line>
    requires first { i < length book.now.lines.now }
    requires second { j < length book.now.lines.now }
    ensures value { let cs = standing book.now in
        option_map candidate_of result
        ≡ first (resolved_from cs (i + 1, slice_index_or cs i []) (j + 1, slice_index_or cs j [])) }
{
    let found = resolve(&book.lines[i].clause(), &book.lines[j].clause())?;
    if_new(
        book,
        Line::resolved(found.variable, (i + 1) as u32, (j + 1) as u32, found.clause),
    )
}
