//! Every text of a session has at most 4,096 bytes.
#![tactic(auto)]

ghost use Rattle.law_short_texts.specs.ShortTexts.{StepsKeepShort, QuestionsAreShort, BuildsAreShort, RequestsAreShort, SourcesAreShort};
ghost use Rattle.law_short_texts.specs.ShortTexts.{DispatchesAreShort, RunsAreShort};
ghost use Rattle.law_short_texts.specs.WorkedTexts.{TextsMet};

/// Where the texts of a definition and of the events are short, so is each value that the machine holds, wherever a dispatch comes to.
pub fn short_texts()
    ensures steps { StepsKeepShort }
    ensures questions { QuestionsAreShort }
    ensures builds { BuildsAreShort }
    ensures requests { RequestsAreShort }
    ensures sources { SourcesAreShort }
    ensures dispatches { DispatchesAreShort }
    ensures runs { RunsAreShort }
{}

/// A definition with texts and events that bring some meet what is asked.
pub fn worked_texts()
    ensures met { TextsMet }
{}
