//! How long a line of a transcript is at most.
#![tactic(auto)]

ghost use Rattle.law_line_lengths.specs.LineLengths.{NamesAreShort, ValuesAreShort, LinesAreShort, BytesAreWithin, GrowthIsWithin};
ghost use Rattle.law_line_lengths.specs.StepLines.{StepsSayShortLines};
ghost use Rattle.law_line_lengths.specs.DispatchBytes.{DispatchesSayShortLines, DispatchBytesAreWithin};
ghost use Rattle.law_line_lengths.specs.WorkedLines.{LengthsMet};

/// Where names, values and details are short, a line has at most the length that is computed from the definition. From a configuration of short
/// parts each step says such lines only, so that a dispatch of such configurations says at most so many bytes for each line that it may say.
pub fn line_lengths()
    ensures names { NamesAreShort }
    ensures values { ValuesAreShort }
    ensures lines { LinesAreShort }
    ensures bytes { BytesAreWithin }
    ensures growth { GrowthIsWithin }
    ensures steps { StepsSayShortLines }
    ensures dispatches { DispatchesSayShortLines }
    ensures dispatch_bytes { DispatchBytesAreWithin }
{}

/// Lines of a definition meet what is asked.
pub fn worked_lengths()
    ensures met { LengthsMet }
{}
