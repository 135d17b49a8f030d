// What a guide is. Other crates may write guides of their own.
ghost use Rattle.std.specs.Prelude.{◌≡◌};
ghost use Rattle.guides.specs.Ranks.{Rank, better};
ghost use Rattle.guides.specs.Counted.{ranked_row};

use crate::row::Row;

pub trait Guide {
    // One whole number, 0 or more, for each row: the lower, the better.
    ghost rank: { Self → Rank };

    // Whether row a is better than row b: its rank is lower. Asking changes
    // nothing.
    fn better(&self, a: &Row, b: &Row) -> bool
        ensures value { result ≡ better (rank self.now) (ranked_row a.now) (ranked_row b.now) };
}
