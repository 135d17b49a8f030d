// What the operations on words do to their bits. A theorem is asked for where
// a contract names it, so the laws stand on a function, which does nothing.
ghost use Rattle.words.specs.Laws.{AndHasWhatBothHave, OrHasWhatEitherHas, XorHasWhatOneAloneHas, NotHasTheOthers, PowerHasOneBit, MaskHasTheLowest, OnesCountsTheVariables, ZeroHasNone, SameBitsSameWord, EqualWordsHaveLikeBits};

pub fn laws_hold()
    ensures and { AndHasWhatBothHave }
    ensures or { OrHasWhatEitherHas }
    ensures xor { XorHasWhatOneAloneHas }
    ensures not { NotHasTheOthers }
    ensures power { PowerHasOneBit }
    ensures mask { MaskHasTheLowest }
    ensures ones { OnesCountsTheVariables }
    ensures zero { ZeroHasNone }
    ensures same { SameBitsSameWord }
    ensures equal { EqualWordsHaveLikeBits }
{}
