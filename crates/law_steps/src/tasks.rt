//! Laws of the steps that take a task: where nothing is to be finalised first, the step is not stuck and leads to what is good. With the laws of
//! finalisation and of instructions it follows that each step of a run of an accepted definition keeps what is good.

ghost use Rattle.law_typing.specs.Laws.StepsKeepGood.{StepsKeepGood};
ghost use Rattle.law_steps.specs.Tasked.Tasks.{TasksAreFine, StepsAreWithin};
ghost use Rattle.law_steps.specs.Tasked.Freeing.{FreeingsAreFine};
ghost use Rattle.law_steps.specs.Tasked.Starting.{SourcesAreFine, RunsAreFine, ConstructionsSet, ConstructionsThaw, AnsweringsWait};
ghost use Rattle.law_steps.specs.Tasked.Settling.{SettlingIsFine};
ghost use Rattle.law_steps.specs.Tasked.Setting.{DueSetsAreFine};
ghost use Rattle.law_steps.specs.Tasked.Ending.{EmissionsEnd, ConstructionsEnd, BuilderTakes};
ghost use Rattle.law_steps.specs.Tasked.Beginning.{BeginningsAreFine};
ghost use Rattle.law_steps.specs.Tasked.Calling.{DueCallsAreFine};
ghost use Rattle.law_steps.specs.Tasked.BuildEnd.{BuildsEnd};
ghost use Rattle.law_steps.specs.Tasked.BuildAdoptions.{AdoptionsAreFine};
ghost use Rattle.law_steps.specs.Tasked.BuildBindings.{BindingsAreFine};
ghost use Rattle.law_steps.specs.Tasked.BuildForwards.{ForwardsAreFine};
ghost use Rattle.law_steps.specs.Tasked.BuildObjects.{ObjectsAreFine};
ghost use Rattle.law_steps.specs.Tasked.BuildSignals.{SignalsAreFine};
ghost use Rattle.law_steps.specs.Tasked.Handling.{RequestsAreFine};
ghost use Rattle.law_steps.specs.Tasked.Notifying.{DueNotificationsAreFine};
ghost use Rattle.law_steps.specs.Tasked.Thawing.{DueThawsAreFine};
ghost use Rattle.law_steps.specs.Tasked.Transferring.{DueTransfersAreFine};
ghost use Rattle.law_steps.specs.Tasked.Turns.{ClassHandlersAreFine, HandlersAreFine, TransfersAreFine};

/// A binding is set free.
pub fn freeing()
    ensures fine { FreeingsAreFine }
{}

/// A turn of an emission begins the program of a class handler or a handler, or makes a transfer due. It is passed over where the handler is gone
/// or blocked, and where the binding has ended or sets.
pub fn turns()
    ensures class_handlers { ClassHandlersAreFine }
    ensures handlers { HandlersAreFine }
    ensures transfers { TransfersAreFine }
{}

/// A due source starts its program, and a construction a `constructed` one. What a construction sets is due at once, and what waited is due
/// as it thaws. A source that waits for its program is never the first task.
pub fn starting()
    ensures sources { SourcesAreFine }
    ensures runs { RunsAreFine }
    ensures sets { ConstructionsSet }
    ensures thaws { ConstructionsThaw }
    ensures answers { AnsweringsWait }
{}

/// Where nothing is left to do, what floats is let go.
pub fn sink_first_floating()
    ensures fine { SettlingIsFine }
{}

/// An emission ends, with its result to the program that waits for it; and a construction ends. The builder holds the object where it is its own.
pub fn endings()
    ensures emissions { EmissionsEnd }
    ensures constructions { ConstructionsEnd }
    ensures builder { BuilderTakes }
{}

/// Each request: a set is due, or an emission; the value of a property is reported, or an object released.
pub fn request_step()
    ensures fine { RequestsAreFine }
{}

/// The build makes an object, whose construction is due; makes it its parent's child; sets a forward value; makes a binding, and connects a signal
/// of the definition, or it is too late for it; and it ends, where each place is built.
pub fn building()
    ensures objects { ObjectsAreFine }
    ensures adoptions { AdoptionsAreFine }
    ensures forwards { ForwardsAreFine }
    ensures bindings { BindingsAreFine }
    ensures signals { SignalsAreFine }
    ensures end { BuildsEnd }
{}

/// A due set: the value is refused or written, and a notification is raised at once, or when the object thaws, or not at all.
pub fn setting()
    ensures fine { DueSetsAreFine }
{}

/// A due transfer sets the value of one end of its binding at the other; or its binding has ended, or there is nothing to set.
pub fn transferring()
    ensures fine { DueTransfersAreFine }
{}

/// A due call: the program that called is given the answer of the peer, or the zero value.
pub fn calling()
    ensures fine { DueCallsAreFine }
{}

/// What is left of a thaw: the next notification is due, or none is left.
pub fn thawing()
    ensures fine { DueThawsAreFine }
{}

/// A due emission begins: it takes its turns.
pub fn beginning()
    ensures fine { BeginningsAreFine }
{}

/// A due notification begins: it takes its turns, with the transfers of the bindings that listen.
pub fn notifying()
    ensures fine { DueNotificationsAreFine }
{}

/// The step is not stuck and leads to what is good whatever the first task is. So from what is good each step does, with any reply that fits: it
/// finalises an object, takes the first task, or lets go of what floats. What it leads to is within the bound and the depth.
pub fn steps()
    ensures tasks { TasksAreFine }
    ensures keep { StepsKeepGood }
    ensures within { StepsAreWithin }
{}
