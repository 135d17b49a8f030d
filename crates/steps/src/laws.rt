// A theorem is asked for where a contract names it, so each stands on a
// function; the functions themselves do nothing.
ghost use Rattle.steps.specs.Laws.{OneMoreAddsOne, ARowCountsTheBroken, FewestBrokenCountsTheBroken, ANeighbourDiffersInOne, TheFirstFlipIsTheBest, WhatIsWrittenKeepsTheFacts, LearntAndBarredAreBroken, SweptFromTwoLines, NothingToSweepIsClosed};

// What rows and neighbours are, and what the first step takes of them.
pub fn flips_are_best()
    ensures more { OneMoreAddsOne }
    ensures row { ARowCountsTheBroken }
    ensures fewest { FewestBrokenCountsTheBroken }
    ensures neighbour { ANeighbourDiffersInOne }
    ensures flip { TheFirstFlipIsTheBest }
{}

// What the steps that write a line write, and do to a book that keeps the four
// facts.
pub fn lines_are_sound()
    ensures keeps { WhatIsWrittenKeepsTheFacts }
    ensures broken { LearntAndBarredAreBroken }
    ensures swept { SweptFromTwoLines }
    ensures closed { NothingToSweepIsClosed }
{}
