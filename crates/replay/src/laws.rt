// A theorem is asked for where a contract names it, so it stands on a function,
// which itself does nothing.
ghost use Rattle.replay.specs.Worked.{WorkedRanks};

// Which guide each name means, by computation.
pub fn ranks_hold()
    ensures worked { WorkedRanks }
{}
