//! What is read has short details, so each dispatch of a run over bytes and lines says no more bytes than a number that is known before.
#![tactic(auto)]

ghost use Rattle.law_line_readings.specs.LineReadings.{EventsAreAllShort, ReadingHasShortDetails, HeldHasShortDetails};
ghost use Rattle.law_line_readings.specs.LineReadings.{ReadIsAllShort, ReadBytesAreBounded, HeldBytesAreBounded};

/// Reading refuses longer details: so the events that lines denote and the definitions that bytes denote have none. So all that lines are
/// made of is short in each run over them, and each dispatch is within its bound in bytes.
pub fn line_readings()
    ensures events { EventsAreAllShort }
    ensures reading { ReadingHasShortDetails }
    ensures held { HeldHasShortDetails }
    ensures runs { ReadIsAllShort }
    ensures bytes { ReadBytesAreBounded }
    ensures held_bytes { HeldBytesAreBounded }
{}
