//! Laws of what is kept of a world where something of it changes.

ghost use Rattle.law_steps.specs.Kept.Agenda.{AgendaServed};
ghost use Rattle.law_steps.specs.Kept.Handlers.{HandlersLeft, HandlersChanged, LeftAreFound};
ghost use Rattle.law_steps.specs.Kept.Bindings.{BindingsLeft, LeftBindingsFound, BindingSets, BindingUnset, BindingMade};
ghost use Rattle.law_steps.specs.Kept.Sources.{SourceStays, SourcesLeft, SourcesAnswered, SourcesAttached};
ghost use Rattle.law_steps.specs.Kept.Changes.{ValueIsLike, QueueIsLike, FreezeIsLike, ThawIsLike};
ghost use Rattle.law_steps.specs.Kept.Attach.{HandlerAttaches, HandlersWaitLess};
ghost use Rattle.law_steps.specs.Kept.Lent.{PeersLent, NewPeerGood};
ghost use Rattle.law_steps.specs.Kept.Made.{NewWholeGood};
ghost use Rattle.law_steps.specs.Kept.New.{NewStands, ValuesStay, NewServes, NewObjectsGood, NewHandlersGood, NewBindingsGood};
ghost use Rattle.law_steps.specs.Kept.Dispose.{DisposeKeeps};
ghost use Rattle.law_steps.specs.Kept.Finalise.{FinalisationIsFine};
ghost use Rattle.law_steps.specs.Kept.Connect.{HandlerConnects};
ghost use Rattle.law_steps.specs.Kept.Family.{FamiliesKeep};
ghost use Rattle.law_steps.specs.Kept.Write.{WriteKeeps};
ghost use Rattle.law_steps.specs.Kept.Alike.{WholeStays, BuildStays};

/// Where one object is written over by another of the same place, class, family and peer, the rest of the world stays good, and the
/// agenda reads the same of it.
pub fn write()
    ensures keeps { WriteKeeps }
{}

/// The agenda stays good, within the same steps and frames, in a world where what it needs keeps its place, the builder holds the same,
/// the handlers and bindings are some of those that were there, and peers keep their shapes.
pub fn agenda()
    ensures served { AgendaServed }
{}

/// Where agendas are alike in what handlers, bindings, pairs and the build read of them, what is good with one is good with the other.
pub fn alike()
    ensures stays { WholeStays }
    ensures build { BuildStays }
{}

/// Handlers that are left after others are disconnected stay good, and so do those that are blocked or unblocked; a number finds among them
/// what it found. They are good as well with one more that bytecode connects, where there is room and its program is connectable, and with
/// one that the build connects, whose cost was reckoned for its item.
pub fn handlers()
    ensures left { HandlersLeft }
    ensures found { LeftAreFound }
    ensures changed { HandlersChanged }
    ensures connects { HandlerConnects }
    ensures attaches { HandlerAttaches }
    ensures waits { HandlersWaitLess }
{}

/// Bindings that are left after others ended stay good, also where one begins to set, is set free, or is made by the build.
pub fn bindings()
    ensures left { BindingsLeft }
    ensures found { LeftBindingsFound }
    ensures sets { BindingSets }
    ensures unset { BindingUnset }
    ensures made { BindingMade }
{}

/// Sources stay good where some are removed, where one's program has answered, and where one more that is good is attached.
pub fn sources()
    ensures stays { SourceStays }
    ensures left { SourcesLeft }
    ensures answered { SourcesAnswered }
    ensures attached { SourcesAttached }
{}

/// An object with a valid value written, with one more notification that waits, frozen once more where it has no paired property, or once
/// less, is like the one that was there.
pub fn changes()
    ensures value { ValueIsLike }
    ensures queue { QueueIsLike }
    ensures freeze { FreezeIsLike }
    ensures thaw { ThawIsLike }
{}

/// With a new object each other one keeps its place, and one more lives. Each agenda is served as before, the new object is good with
/// the defaults of its class, and objects, handlers and bindings stay good. The peer that it takes was free and is its own, and the pool
/// is as good for those that still want a peer. So all that is good of the world stays good.
pub fn makings()
    ensures stands { NewStands }
    ensures values { ValuesStay }
    ensures serves { NewServes }
    ensures objects { NewObjectsGood }
    ensures handlers { NewHandlersGood }
    ensures bindings { NewBindingsGood }
    ensures pool { PeersLent }
    ensures own { NewPeerGood }
    ensures whole { NewWholeGood }
{}

/// A living object is disposed without a fault. Each object keeps its place and stays good, and no weak property names the disposed one.
pub fn disposal()
    ensures keeps { DisposeKeeps }
{}

/// From what is good, the step that finalises an object without a mention is not stuck, and leads to what is good within the same bound.
pub fn finalisation()
    ensures fine { FinalisationIsFine }
{}

/// Where objects get other parents and children, which live and know each other, what is good of a world stays so.
pub fn families()
    ensures keep { FamiliesKeep }
{}
