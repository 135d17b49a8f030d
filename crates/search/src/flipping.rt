// The flip: the first of the five steps.
ghost use Rattle.std.specs.Prelude.{◌≡◌, MatchOption};
ghost use Rattle.words.specs.Bits.{first};
ghost use Rattle.clauses.specs.Values.{truths};
ghost use Rattle.weighing.specs.Books.{standing};
ghost use Rattle.steps.specs.Flips.{flips, NoneBetter, Best};

use guides::guide::Guide;
use valuations::valuation::Full;
use weighing::book::Book;
use weighing::neighbour::weigh_neighbour;
use weighing::weighing::weigh;

// The variable to flip: of the neighbours that are better than the assignment
// one with the lowest rank, and among equals the lowest variable.
pub fn flip<G: Guide>(book: &Book<'_>, assignment: &mut Full, guide: &G) -> Option<u32>
    ensures value { result ≡ first (flips (G.Guide.rank guide.now)
        (standing book.now) (truths book.now.n assignment.old.word)) }
    ensures best { let a = truths book.now.n assignment.old.word in
        let rank = G.Guide.rank guide.now in
        MatchOption result (NoneBetter rank (standing book.now) a) (Best rank (standing book.now) a) }
    ensures same { assignment.new ≡ assignment.old }
{
    let mut best_row = weigh(book, assignment);
    let mut best = None;
    for v in 1..=book.n {
        if let Some(better) = weigh_neighbour(book, assignment, v, guide, &best_row) {
            best_row = better;
            best = Some(v);
        }
    }
    best
}
