//! The law over judgements: what a verifier may answer once it has looked at the rules one after the other, put the channels in order, and
//! reckoned their numbers.
#![tactic(auto)]

ghost use Rattle.law_judging.specs.FirstFaults.{FaultsInOrder, FirstIsTold};
ghost use Rattle.law_judging.specs.Cycles.{CycleIsTold, TurnedIsCycle, TurnedIsOnce};
ghost use Rattle.law_judging.specs.CappedNumbers.{CappedIsSolved, LargeIsTold, ReckonedIsAccepted, ReckonedIsJudged};

/// The first fault of a definition is that of the first rule that is broken, and it is the answer. Where no rule is broken, a cycle is, from its
/// first channel; a cycle that is turned round stays one. And where there is no cycle, costs may be capped one above the greatest bound: a
/// bound is too large by the capped ones where it is by the costs, and then it is the answer; else the definition is accepted with these numbers.
pub fn judging()
    ensures order { FaultsInOrder }
    ensures first { FirstIsTold }
    ensures turned { TurnedIsCycle }
    ensures once { TurnedIsOnce }
    ensures cycle { CycleIsTold }
    ensures capped { CappedIsSolved }
    ensures large { LargeIsTold }
    ensures judged { ReckonedIsJudged }
    ensures accepted { ReckonedIsAccepted }
{}
