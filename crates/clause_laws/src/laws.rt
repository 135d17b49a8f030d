// A theorem is asked for where a contract names it, so each stands on a
// function; the functions themselves do nothing.
ghost use Rattle.clause_laws.specs.Facts.{KeepingIsTheFourFacts, AResolventHoldsTheRest, ToldInRisingOrder};
ghost use Rattle.clause_laws.specs.Laws.{OnlyLiteralsHaveValues, APartialSaysItsSet, AWordHasWhatIsListed, AClauseIsItsLiterals, ValuesJudgeByLiterals, TestsJudgeByLiterals, EdgesAreMetSo, BrokenOrMet, OnlyItsVariablesCount, AGivenClauseIsItsSet, ResolutionIsSound, ResolutionHasNoOrder, WideningIsSound, GivenMetThenAll, EmptyLineRefutes, AtMostThreeToTheN, ReadingOffBreaksNone, TheBarIsBroken};

// Words and valuations say what they should of variables.
pub fn valuations_are_told()
    ensures literals { OnlyLiteralsHaveValues }
    ensures partial { APartialSaysItsSet }
    ensures listed { AWordHasWhatIsListed }
{}

// The definitions by places say what they should of the literals.
pub fn clauses_are_sets()
    ensures literals { AClauseIsItsLiterals }
    ensures values { ValuesJudgeByLiterals }
    ensures tests { TestsJudgeByLiterals }
    ensures edges { EdgesAreMetSo }
    ensures full { BrokenOrMet }
    ensures own { OnlyItsVariablesCount }
    ensures given { AGivenClauseIsItsSet }
    ensures bar { TheBarIsBroken }
    ensures rising { ToldInRisingOrder }
{}

// The four facts line by line, what follows from what, how many clauses there
// are, and what reading off gives.
pub fn books_are_sound()
    ensures facts { KeepingIsTheFourFacts }
    ensures rest { AResolventHoldsTheRest }
    ensures resolution { ResolutionIsSound }
    ensures order { ResolutionHasNoOrder }
    ensures widening { WideningIsSound }
    ensures given { GivenMetThenAll }
    ensures empty { EmptyLineRefutes }
    ensures count { AtMostThreeToTheN }
    ensures reading { ReadingOffBreaksNone }
{}
