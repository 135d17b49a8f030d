// The walk for a broken line: the one that the look, the bar and reading off
// make.
ghost use Rattle.std.specs.Prelude.{◌≡◌, ◌<◌, length, position, IfSome};
ghost use Rattle.clauses.specs.Clauses.{broken};
ghost use Rattle.lines.specs.Lines.{clause_of};
ghost use Rattle.steps.specs.Writing.{oldest_broken as oldest};
ghost use Rattle.weighing.specs.Books.{standing};

use lines::line::Line;
use valuations::judging::is_broken;
use valuations::valuation::Valuation;
use weighing::book::Book;

// The index of the oldest line that the valuation breaks. A function of its
// own: with the number in one body the proof is not found.
fn walk<V: Valuation>(lines: &[Line], valuation: &V) -> Option<usize>
    ensures value { result
        ≡ position (λ l. broken (V.Valuation.values valuation.now) (clause_of l)) lines.now }
    ensures bound { IfSome result (λ i. i < length lines.now) }
{
    lines
        .iter()
        .position(|line| is_broken(valuation, &line.clause()))
}

// The number of the oldest line that the valuation breaks; the walk ends there.
// The cast is exact, since a book has at most 65,536 lines.
#[tactic(auto, using(crate::proofs::Walks::oldest_walked))]
pub fn oldest_broken<V: Valuation>(book: &Book<'_>, valuation: &V) -> Option<u32>
    ensures value { result ≡ oldest (V.Valuation.values valuation.now) (standing book.now) }
{
    let i = walk(book.lines, valuation)?;
    Some((i + 1) as u32)
}
