// Which step is due: the first of the five that applies.
ghost use Rattle.std.specs.Prelude.{◌≡◌};
ghost use Rattle.clauses.specs.Values.{truths};
ghost use Rattle.steps.specs.Moves.{move};
ghost use Rattle.weighing.specs.Books.{standing};
ghost use Rattle.search.specs.Laws.{Helps};
ghost use Rattle.search.specs.Moves.{move_of};

use crate::barring::bar;
use crate::flipping::flip;
use crate::learning::learn;
use crate::reading::read_off;
use crate::sweeping::sweep;
use guides::guide::Guide;
use lines::line::Line;
use valuations::valuation::Full;
use weighing::book::Book;

// A variable to flip, a line to write, or an assignment to accept.
#[derive(Clone, Copy, Debug)]
pub enum Step {
    Flip(u32),
    Write(Line),
    Accept(Full),
}

// The first of the five that applies.
#[tactic(auto, using(crate::proofs::Chosen::flip_is_due, crate::proofs::Chosen::learn_is_due, crate::proofs::Chosen::bar_is_due, crate::proofs::Chosen::sweep_is_due, crate::proofs::Chosen::reading_is_due, clauses::proofs::Listed::length_truths, crate::proofs::Chosen::read_off_breaks_none))]
pub fn due<G: Guide>(book: &Book<'_>, assignment: &mut Full, guide: &G) -> Step
    ensures value { move_of book.now.n result ≡ move (G.Guide.rank guide.now)
        (standing book.now) (truths book.now.n assignment.old.word) }
    ensures helps { Helps (G.Guide.rank guide.now) book.now.n book.now.lines.now
        (truths book.now.n assignment.old.word) result }
    ensures same { assignment.new ≡ assignment.old }
{
    if let Some(v) = flip(book, assignment, guide) {
        return Step::Flip(v);
    }
    if let Some(line) = learn(book, assignment) {
        return Step::Write(line);
    }
    if let Some(line) = bar(book, assignment) {
        return Step::Write(line);
    }
    if let Some(line) = sweep(book) {
        return Step::Write(line);
    }
    Step::Accept(read_off(book))
}
