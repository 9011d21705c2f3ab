//! Laws of the steps of a program: where it has come to an instruction, the step is not stuck and leads to what is good.

ghost use Rattle.law_steps.specs.Instructed.OfRegisters.{RegistersAreFine};
ghost use Rattle.law_steps.specs.Instructed.Jumps.{JumpsAreFine};
ghost use Rattle.law_steps.specs.Instructed.OfObjects.{ReadsAreFine, ReleasesAreFine};
ghost use Rattle.law_steps.specs.Instructed.Attaching.{AttachmentsAreFine};
ghost use Rattle.law_steps.specs.Instructed.Returning.{ReturnsAreFine};
ghost use Rattle.law_steps.specs.Instructed.Stopping.{StopsAreFine};
ghost use Rattle.law_steps.specs.Instructed.Freezing.{FreezesAreFine};
ghost use Rattle.law_steps.specs.Instructed.Thawing.{ThawsAreFine};
ghost use Rattle.law_steps.specs.Instructed.Emitting.{EmitsAreFine};
ghost use Rattle.law_steps.specs.Instructed.All.{InstructionsAreFine, ProgramsKeepGood};
ghost use Rattle.law_steps.specs.Instructed.Making.{MakesAreFine};
ghost use Rattle.law_steps.specs.Instructed.Connecting.{ConnectsAreFine};
ghost use Rattle.law_steps.specs.Instructed.Setting.{SetsAreFine};
ghost use Rattle.law_steps.specs.Instructed.Notifying.{NotifiesAreFine};
ghost use Rattle.law_steps.specs.Instructed.Calling.{CallsAreFine};
ghost use Rattle.law_steps.specs.Instructed.Families.{FamiliesAreFine};
ghost use Rattle.law_steps.specs.Instructed.Disposing.{DisposesAreFine};

/// Constants, copies, arithmetic, comparisons, truth values, texts and conversions: from what is good, the step is not stuck and leads to
/// what is good.
pub fn of_registers()
    ensures fine { RegistersAreFine }
{}

/// Jumps: the program goes on at the beginning of another block, which is good with what is left of the steps.
pub fn jumps()
    ensures fine { JumpsAreFine }
{}

/// Reads of a property and of what the builder holds; and what lets go of a float, of handlers, bindings and sources, or blocks handlers.
pub fn of_objects()
    ensures reads { ReadsAreFine }
    ensures releases { ReleasesAreFine }
{}

/// A program disposes an object.
pub fn disposing()
    ensures fine { DisposesAreFine }
{}

/// A program attaches a source, or is given the answer that there is no room.
pub fn attaching()
    ensures fine { AttachmentsAreFine }
{}

/// A program ends, and what it gives goes to the emission or the source below it, or is nothing.
pub fn ends()
    ensures fine { ReturnsAreFine }
{}

/// A program stops the emission that runs it.
pub fn stopping()
    ensures fine { StopsAreFine }
{}

/// A program freezes an object.
pub fn freezing()
    ensures fine { FreezesAreFine }
{}

/// A program thaws an object: with the last thaw what waited in the queue is due.
pub fn thawing()
    ensures fine { ThawsAreFine }
{}

/// A program emits a signal; it waits for the result, if it takes it.
pub fn emissions()
    ensures fine { EmitsAreFine }
{}

/// A program connects a handler, or is given the answer that it was too late or that there is no room.
pub fn connecting()
    ensures fine { ConnectsAreFine }
{}

/// A program sets a property, where nothing is to be finalised first.
pub fn assignments()
    ensures fine { SetsAreFine }
{}

/// A program raises a notification: it is made at once, or waits while the object is frozen.
pub fn notifications()
    ensures fine { NotifiesAreFine }
{}

/// A program calls the peer of an object, and waits for its answer.
pub fn calls()
    ensures fine { CallsAreFine }
{}

/// A program takes an object from its parent, or gives it one.
pub fn families()
    ensures fine { FamiliesAreFine }
{}

/// A program makes an object of a prototype: its construction is due, or there is no room.
pub fn makings()
    ensures fine { MakesAreFine }
{}

/// Each instruction is taken well. So where the first task is a program, the step of the machine keeps what is good, whatever the program has
/// come to.
pub fn programs()
    ensures instructions { InstructionsAreFine }
    ensures programs { ProgramsKeepGood }
{}
