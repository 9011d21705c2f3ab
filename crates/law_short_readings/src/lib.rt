//! What is read is short, so every text of a session over bytes and lines has at most 4,096 bytes.
#![tactic(auto)]

ghost use Rattle.law_short_readings.specs.ShortReadings.{EventsAreShort, ReadingIsShort, HeldIsShort, ReadTextsAreShort};

/// Reading refuses longer texts: so the events that lines denote and the definitions that bytes denote have none, and no run over them comes to
/// one, where its peers reply with none.
pub fn short_readings()
    ensures events { EventsAreShort }
    ensures reading { ReadingIsShort }
    ensures held { HeldIsShort }
    ensures runs { ReadTextsAreShort }
{}
