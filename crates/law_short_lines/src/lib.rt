//! Every line of a run is short, and each dispatch says no more bytes than a number that is known before.
#![tactic(auto)]

ghost use Rattle.law_short_lines.specs.ShortLines.{AllShortIsParts, StepsKeepAllShort, ReadyPoolsAreShort, BuildsAreAllShort};
ghost use Rattle.law_short_lines.specs.ShortLines.{RequestsAreAllShort, SourcesAreAllShort, DispatchesAreAllShort, RunsAreAllShort};
ghost use Rattle.law_short_lines.specs.ShortLines.{RunsSayShortLines};
ghost use Rattle.law_short_lines.specs.ShortLines.{DispatchBytesAreBounded};
ghost use Rattle.law_short_lines.specs.WorkedLines.{PremisesMetShort, StepsMet};

/// Where the texts and details of a definition and of the events are short, and the peers that places name, so is all that lines are made
/// of, wherever a dispatch comes to. So each dispatch of an accepted definition says at most so many bytes for each line that it may say.
pub fn short_lines()
    ensures parts { AllShortIsParts }
    ensures steps { StepsKeepAllShort }
    ensures pools { ReadyPoolsAreShort }
    ensures builds { BuildsAreAllShort }
    ensures requests { RequestsAreAllShort }
    ensures sources { SourcesAreAllShort }
    ensures dispatches { DispatchesAreAllShort }
    ensures runs { RunsAreAllShort }
    ensures lines { RunsSayShortLines }
    ensures bytes { DispatchBytesAreBounded }
{}

/// A definition that is accepted, with a pool and events, meets what is asked of dispatches; and what is asked of steps is met where a call
/// and an emission with a detail are due.
pub fn worked_short_lines()
    ensures met { PremisesMetShort }
    ensures steps { StepsMet }
{}
