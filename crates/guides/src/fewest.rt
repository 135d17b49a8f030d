// The guide that looks at how many lines are broken.
ghost use Rattle.std.specs.Prelude.{◌≡◌, sum};
ghost use Rattle.guides.specs.Ranks.{fewest_broken};
ghost use Rattle.guides.specs.Counted.{counts};

use crate::guide::Guide;
use crate::row::Row;

// The row that counts fewer broken lines in all is better.
#[derive(Clone, Copy, Debug)]
pub struct FewestBroken;

// How many broken lines a row counts.
fn total(row: &Row) -> u32
    ensures value { result ≡ sum (counts row.now) }
{
    row.counts.iter().sum()
}

impl Guide for FewestBroken {
    ghost rank = { λ _. fewest_broken };

    fn better(&self, a: &Row, b: &Row) -> bool {
        total(a) < total(b)
    }
}
