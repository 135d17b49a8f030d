// The guide that looks at the longest broken lines first.
ghost use Rattle.std.specs.Prelude.{◌≡◌, ◌↔◌, IsTrue};
ghost use Rattle.guides.specs.Ranks.{better, longest_first, FewerAtTheLongest};
ghost use Rattle.guides.specs.Counted.{counts, ranked_row};

use crate::guide::Guide;
use crate::row::Row;
use limits::LENGTHS;

// At the largest length where two rows differ, the one with the smaller count
// is better.
#[derive(Clone, Copy, Debug)]
pub struct LongestFirst;

impl Guide for LongestFirst {
    ghost rank = { λ _. longest_first };

    #[tactic(auto, using(crate::proofs::Weights::place_decides, crate::proofs::Weights::equal_beat_neither))]
    fn better(&self, a: &Row, b: &Row) -> bool
        ensures value { result ≡ better longest_first (ranked_row a.now) (ranked_row b.now) }
        ensures longest { IsTrue result ↔ FewerAtTheLongest (counts a.now) (counts b.now) }
    {
        for k in (0..LENGTHS).rev() {
            if a.counts[k] != b.counts[k] {
                return a.counts[k] < b.counts[k];
            }
        }
        false
    }
}
