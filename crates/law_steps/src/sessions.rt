//! The law over whole runs: no accepted definition is ever stuck, and each of its dispatches keeps within the bound that the report gives.

ghost use Rattle.law_steps.specs.Served.NeverStuck.{NeverStuck, ReportIsKept, RunsRest, RunsAreThere};
ghost use Rattle.law_steps.specs.Served.Safe.{BeginsSafe, SafeStays};
ghost use Rattle.law_steps.specs.Served.Halting.{EventsHaltForMemory};
ghost use Rattle.law_steps.specs.Served.Replies.{QuestionsAreAnswered};
ghost use Rattle.law_steps.specs.Served.WorkedSession.{PremisesMet};

/// Each dispatch of each run of an accepted definition keeps what is promised, as long as its peers' replies fit: it is never stuck,
/// its counted steps are within the bound of its entry, its frames within the depth, it comes to its end, and it leaves the world at
/// rest. The same holds for what is judged to be accepted, by the numbers of its report. And each list of events has a run. Where
/// one of them halts, no memory was found.
pub fn runs()
    ensures keep { NeverStuck }
    ensures report { ReportIsKept }
    ensures rest { RunsRest }
    ensures there { RunsAreThere }
    ensures halting { EventsHaltForMemory }
    ensures safe { BeginsSafe }
    ensures stays { SafeStays }
{}

/// What a peer may always reply; and a worked definition with a pool and events that meet each premise of the promise.
pub fn premises()
    ensures replies { QuestionsAreAnswered }
    ensures met { PremisesMet }
{}
