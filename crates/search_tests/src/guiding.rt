// Two guides that are no use to a search, so that the later steps come up.
ghost use Rattle.std.specs.Prelude.{◌≡◌, ◌-◌, sum};
ghost use Rattle.guides.specs.Counted.{counts};

use guides::guide::Guide;
use guides::row::Row;

// No row is better than another.
#[derive(Clone, Copy)]
pub struct Constant;

impl Guide for Constant {
    ghost rank = { λ _ _. 0 };

    fn better(&self, _a: &Row, _b: &Row) -> bool {
        false
    }
}

// The row that counts more broken lines is better.
#[derive(Clone, Copy)]
pub struct MostBroken;

fn total(row: &Row) -> u32
    ensures value { result ≡ sum (counts row.now) }
{
    row.counts.iter().sum()
}

impl Guide for MostBroken {
    ghost rank = { λ _ row. 65536 - sum row };

    fn better(&self, a: &Row, b: &Row) -> bool {
        total(a) > total(b)
    }
}
