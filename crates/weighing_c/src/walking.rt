// Flip steps, one after another.
ghost use Rattle.std.specs.Prelude.{◌≡◌};
ghost use Rattle.clauses.specs.Values.{truths};
ghost use Rattle.weighing.specs.Books.{standing};
ghost use Rattle.weighing_c.specs.Walks.{walked};

use guides::guide::Guide;
use search::flipping::flip;
use valuations::valuation::Full;
use weighing::book::Book;
use words::sets;

// At most `most` flips, and none once no neighbour is better.
pub fn walk<G: Guide>(book: &Book<'_>, assignment: &mut Full, guide: &G, most: u32)
    ensures walked { truths book.now.n assignment.new.word
        ≡ walked (G.Guide.rank guide.now) (standing book.now) most
        (truths book.now.n assignment.old.word) }
{
    for _taken in 0..most {
        let Some(v) = flip(book, assignment, guide) else {
            return;
        };
        assignment.word ^= sets::one(v);
    }
}
