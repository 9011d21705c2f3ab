//! What reading gives is what the laws of runs take.
#![tactic(auto)]

ghost use Rattle.law_reading.specs.Reading.{ReadingIsWell, EventsAreRead, HeldIsWell};
ghost use Rattle.law_reading.specs.Formats.{FirstIsAsBefore, FirstIsSecond, BytesAgree};
ghost use Rattle.law_reading.specs.ReadRuns.{ReadNeverStuck, ReadReportIsKept, ReadRunsRest, ReadRunsAreThere, ReadHaltsForMemory};
ghost use Rattle.law_reading.specs.WorkedReading.{PremisesMet};
ghost use Rattle.law_reading.specs.Lengths.{DenotedAreShort};

/// Each definition that bytes denote is well read, so each that is held is, and each event that a line denotes for it names what is there and
/// fits.
pub fn reading()
    ensures well { ReadingIsWell }
    ensures events { EventsAreRead }
    ensures held { HeldIsWell }
{}

/// What is written in the first format denotes what it does where there is no other, and is refused as it is there. And it denotes the same in
/// the second: where only the member `format` differs, and the one that says 1 denotes a definition, the one that says 2 denotes it too.
pub fn formats()
    ensures before { FirstIsAsBefore }
    ensures values { FirstIsSecond }
    ensures bytes { BytesAgree }
{}

/// What is promised of runs of an accepted definition holds of each that bytes denote, over the events that lines denote: each dispatch
/// of each run keeps it, and does so by the numbers of the report; a run leaves the world at rest; all lines together have a run; and where
/// an event halts no memory is found.
pub fn runs()
    ensures keep { ReadNeverStuck }
    ensures report { ReadReportIsKept }
    ensures rest { ReadRunsRest }
    ensures there { ReadRunsAreThere }
    ensures halting { ReadHaltsForMemory }
{}

/// The bytes of a definition with a signal, a shape, a child, a prototype and peers, and lines that set, emit, read and let go, meet what this asks.
pub fn premises()
    ensures { PremisesMet }
{}

/// A definition that bytes denote connects no more signals, and has no more bindings, than 512 lists of the longest text may hold.
pub fn lengths()
    ensures { DenotedAreShort }
{}
