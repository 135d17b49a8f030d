// Reading off: the last of the five steps.
ghost use Rattle.std.specs.Prelude.{◌≡◌, ◌<◌, ◌^◌};
ghost use Rattle.clauses.specs.Values.{truths};
ghost use Rattle.lines.specs.ReadingOff.{read_off as off};
ghost use Rattle.weighing.specs.Books.{standing};

use crate::walking::oldest_broken;
use valuations::valuation::{Full, Partial};
use weighing::book::Book;
use words::sets;

// Variable after variable, from 1 to n: true, unless that would break a line
// while the variables behind it are unset; then false.
pub fn read_off(book: &Book<'_>) -> Full
    ensures value { truths book.now.n result.word ≡ off book.now.n (standing book.now) }
    ensures within { result.word < 2 ^ book.now.n }
{
    let mut set = 0;
    let mut word = 0;
    for v in 1..=book.n {
        let bit = sets::one(v);
        set |= bit;
        let partial = Partial {
            set,
            word: word | bit,
        };
        if oldest_broken(book, &partial).is_none() {
            word |= bit;
        }
    }
    Full { word }
}
