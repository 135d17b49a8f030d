// The row of a neighbour: the assignment with one variable flipped. While it
// is weighed the assignment itself stands flipped.
ghost use Rattle.std.specs.Prelude.{◌≡◌, bit_xor};
ghost use Rattle.clauses.specs.Values.{truths};
ghost use Rattle.guides.specs.Counted.{ranked_row};
ghost use Rattle.weighing.specs.Books.{standing};
ghost use Rattle.steps.specs.Flips.{ranked_flipped};
ghost use Rattle.weighing.specs.Gains.{Gains};

use crate::book::Book;
use crate::weighing::weigh;
use guides::guide::Guide;
use guides::row::Row;
use valuations::valuation::Full;
use words::sets;

// An assignment that stands flipped until this is dropped. Made by a literal
// where it stands, since what a function returns is not known to be the
// caller's own assignment. No contract can see the guard: weighing a flipped
// copy would meet them all.
struct Flipped<'a> {
    assignment: &'a mut Full,
    bit: u64,
}

impl Drop for Flipped<'_> {
    // Takes the flip back. What it holds is taken apart at the end, as a `drop`
    // has to.
    fn drop(self)
        ensures back { self.exit.0.now.word
            ≡ bit_xor self.entry.assignment.now.word self.entry.bit }
    {
        self.assignment.word ^= self.bit;
        let Flipped {
            assignment: _,
            bit: _,
        } = self;
    }
}

// The row of the neighbour that differs in variable v, if the guide finds it
// better than `best`.
#[tactic(auto, using(crate::proofs::Neighbours::flipped_word))]
pub fn weigh_neighbour<G: Guide>(
    book: &Book<'_>,
    assignment: &mut Full,
    v: u32,
    guide: &G,
    best: &Row,
) -> Option<Row>
    ensures row { Gains (G.Guide.rank guide.now)
        (ranked_flipped (standing book.now) (truths book.now.n assignment.old.word) v)
        (ranked_row best.now) result }
    ensures same { assignment.new ≡ assignment.old }
{
    let bit = sets::one(v);
    assignment.word ^= bit;
    let neighbour = Flipped { assignment, bit };
    let row = weigh(book, neighbour.assignment);
    if !guide.better(&row, best) {
        return None;
    }
    Some(row)
}
