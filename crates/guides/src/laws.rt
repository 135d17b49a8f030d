// A theorem is asked for where a contract names it, so each stands on a
// function; the functions themselves do nothing.
ghost use Rattle.guides.specs.Laws.{LongestFirstReadBothWays, EqualRowsBeatNeitherWay};
ghost use Rattle.guides.specs.Ranks.{longest_first, PutsLengthFirst};

// Both readings of longest first are one, it puts length before number, and
// equal rows beat neither way, whatever ranks them.
#[tactic(auto, using(crate::proofs::Weights::both_readings, crate::proofs::Weights::puts_length_first))]
pub fn ranks_are_sound()
    ensures longest { LongestFirstReadBothWays }
    ensures length { PutsLengthFirst longest_first }
    ensures equal { EqualRowsBeatNeitherWay }
{}
