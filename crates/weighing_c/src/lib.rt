// The flip step for the benchmark, which is no Rattle program: an assignment is
// weighed and flipped until no neighbour breaks fewer lines.
#![tactic(auto)]

ghost use Rattle.std.specs.Prelude.{◌≡◌, true, false, map};
ghost use Rattle.clauses.specs.Values.{truths};
ghost use Rattle.guides.specs.Ranks.{fewest_broken};
ghost use Rattle.weighing.specs.Readable.{readable};
ghost use Rattle.weighing_c.specs.Pairs.{signs_of, line_of};
ghost use Rattle.weighing_c.specs.Walks.{walked};

pub mod pair;
pub mod walking;

use crate::pair::{Pair, lines_of};
use crate::walking::walk;
use guides::fewest::FewestBroken;
use std::alloc::Global;
use valuations::valuation::Full;
use weighing::book::Book;

// Takes at most `most` flip steps from the assignment in `word`, over the
// given clauses and the variables 1 to n. False, and the word as it was, where
// these are no book, or memory is short; since no clause can say that memory
// suffices, one that always answers false would be proved, and the benchmark
// stops on it.
#[unsafe(no_mangle)]
pub extern "C" fn weighing_c_walk(
    alloc: Global,
    given: &[Pair],
    n: u32,
    most: u32,
    word: &mut u64,
) -> bool
    ensures book { result ≡ true → readable n (map line_of given.now) ≡ true }
    ensures walked { result ≡ true → truths n word.new
        ≡ walked fewest_broken (map signs_of given.now) most (truths n word.old) }
    ensures kept { result ≡ false → word.new ≡ word.old }
{
    let Ok(lines) = lines_of(alloc, given) else {
        return false;
    };
    let Some(book) = Book::new(&lines, n) else {
        return false;
    };
    let mut assignment = Full { word: *word };
    walk(&book, &mut assignment, &FewestBroken, most);
    *word = assignment.word;
    true
}
