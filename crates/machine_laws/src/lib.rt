//! Small laws of the machine's definitions.
#![tactic(auto)]

ghost use Rattle.machine_laws.specs.TypeLaws.{IsAReflexive, IsATransitive};
ghost use Rattle.machine_laws.specs.QueueLaws.{ThawsInReverse, QueuesOnce};
ghost use Rattle.machine_laws.specs.PlanLaws.{HandlersRunOnce, InOrder, StagesInOrder, NotifyStages};
ghost use Rattle.machine_laws.specs.ClampLaws.{ClampsToValid, ClampsOnce};
ghost use Rattle.machine_laws.specs.FrontLaws.{StepAppends, QuestionStays, StepsAppend, DispatchAppends, HaltAppends, EventAppends, EventsAppend, EventHaltAppends};
ghost use Rattle.machine_laws.specs.JoinLaws.{BuildIsRun, RunsGoOn};
ghost use Rattle.machine_laws.specs.GoneLaws.{GivenAreGone, GoneTurnsPass, PrunedAgain, QuestionsDoWithout, StepsDoWithout, StepsKeepGone, WholeWithoutEmissions};
ghost use Rattle.machine_laws.specs.StepLaws.{HeldAtRest, EndsStay, FittingLives, FinalisedFitsNothing};

/// A queue has each slot once, and a thaw notifies its slots in reverse.
pub fn queues()
    ensures reverses { ThawsInReverse }
    ensures once { QueuesOnce }
{}

/// Each connected handler runs once at most in an emission, and those of a stage run in the order of their connection. The stages
/// come in the order of the signal's flags.
pub fn plans()
    ensures once { HandlersRunOnce }
    ensures ordered { InOrder }
    ensures stages { StagesInOrder }
    ensures notify { NotifyStages }
{}

/// What holds an object between dispatches, that a dispatch that has ended goes no further, and that what fits an object kind lives.
pub fn steps()
    ensures rest { HeldAtRest }
    ensures ends { EndsStay }
    ensures lives { FittingLives }
    ensures finalised { FinalisedFitsNothing }
{}

/// A step adds lines to the transcript, and never reads it.
pub fn transcripts()
    ensures step { StepAppends }
    ensures question { QuestionStays }
    ensures steps { StepsAppend }
    ensures dispatch { DispatchAppends }
    ensures halt { HaltAppends }
    ensures event { EventAppends }
    ensures events { EventsAppend }
    ensures event_halt { EventHaltAppends }
{}

/// A validated value is valid, and validation leaves it as it is.
pub fn validation()
    ensures valid { ClampsToValid }
    ensures once { ClampsOnce }
{}

/// What is what: each type is itself, and what an ancestor is, its descendants are.
pub fn types()
    ensures reflexive { IsAReflexive }
    ensures transitive { IsATransitive }
{}

/// The parts of a run, joined: the build is a run without events, and a run and one more event are a run.
pub fn runs()
    ensures build { BuildIsRun }
    ensures goes_on { RunsGoOn }
{}

/// The turns of handlers and the transfers of bindings that are gone make no difference: they are passed over, and an emission without
/// them goes on as one with them.
pub fn gone()
    ensures passes { GoneTurnsPass }
    ensures steps { StepsDoWithout }
    ensures asks { QuestionsDoWithout }
    ensures given { GivenAreGone }
    ensures again { PrunedAgain }
{}

/// Handlers and bindings that are gone stay so, but where the build makes a binding; and what is left out of emissions changes nothing
/// where none goes on.
pub fn gone_stay()
    ensures steps { StepsKeepGone }
    ensures whole { WholeWithoutEmissions }
{}
