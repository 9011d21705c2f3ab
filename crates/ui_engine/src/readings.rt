//! What can be read of a session at any time, without an event: its objects, what the builder holds, the names of peers, whether it has
//! stopped, and when a turn has something to run.

ghost use Rattle.std.specs.Prelude.{◌≡◌, nat_eq, option_copied, option_map};
ghost use Rattle.std.specs.List.{list_any};
ghost use Rattle.ui_machine.specs.Rules.Build.{identity_held};
ghost use Rattle.ui_machine.specs.State.Config.{builder_entry};
ghost use Rattle.ui_machine.specs.State.Objects.{living};
ghost use Rattle.instance_tables.specs.Store.{IsNextLiving, id_of};
ghost use Rattle.ui_engine.specs.Due.{IsNextDue};
ghost use Rattle.ui_engine.specs.Readings.{peer_name};

use crate::cores::{Core, Phase};
use crate::next_due::{NextDue, due_from};
use crate::session::Session;
use instance_tables::Object;
use native_peers::Peers;
use ui_machine::{ObjectId, Place};

impl Core {
    /// Returns the lowest identity of an object that lives, from this identity on.
    pub fn next_object(&self, from: ObjectId) -> Option<ObjectId>
        ensures { IsNextLiving self.now.world.objects from.0 (id_of result) }
    {
        self.engine.world.table.next_live(from)
    }

    /// Returns an object that lives, or `None` if none of this identity does.
    pub fn object(&self, id: ObjectId) -> Option<&Object>
        ensures { option_copied result ≡ living self.now.world.objects id.0 }
    {
        self.engine.world.table.object(id)
    }

    /// Returns whether an object floats: no one has sunk it yet.
    pub fn is_floating(&self, id: ObjectId) -> bool
        ensures { result ≡ list_any (λ i. nat_eq i id.0) self.now.world.floating }
    {
        self.engine.world.table.is_floating(id)
    }

    /// Returns the identity of the object that the builder holds of a place. It holds none before it has built the object, and after the
    /// object's release.
    pub fn identity(&self, place: Place) -> Option<ObjectId>
        ensures { id_of result ≡ identity_held (builder_entry self.now.world place.0) }
    {
        self.engine.world.built(place)
    }

    /// Returns the name of an object's peer, if the object lives and has one.
    pub fn peer_name(&self, id: ObjectId) -> Option<&str>
        ensures { option_map (λ name. name.now) result ≡ peer_name self.now.world id.0 }
    {
        let number = self.engine.world.table.peer_of(id)?;
        let seat = self.engine.world.seats.seat(number)?;
        Some(seat.name)
    }

    /// Returns whether the session takes no event: memory was refused, or an event is under way.
    pub fn is_stopped(&self) -> bool
        ensures { result ≡ self.now.stopped }
    {
        match self.phase {
            Phase::AtRest => false,
            Phase::UnderWay | Phase::Stopped => true,
        }
    }

    /// Returns when a turn has something to run next, if no event comes before it.
    pub fn next_due(&self) -> NextDue
        ensures { IsNextDue self.now.world result }
    {
        let context = &self.engine.world.context;
        due_from(context.next_ready(), context.moment())
    }
}

impl<P: Peers> Session<P> {
    /// Returns the lowest identity of an object that lives, from this identity on. The first identity is 1, so a host goes through all
    /// objects that live by beginning there and going on behind each one that it got.
    pub fn next_object(&self, from: ObjectId) -> Option<ObjectId>
        ensures { IsNextLiving self.now.core.world.objects from.0 (id_of result) }
    {
        self.core.next_object(from)
    }

    /// Returns an object that lives, or `None` if none of this identity does. It has its class and place, its values by slot, its parent,
    /// its children in their order, and whether it is disposed or frozen.
    pub fn object(&self, id: ObjectId) -> Option<&Object>
        ensures { option_copied result ≡ living self.now.core.world.objects id.0 }
    {
        self.core.object(id)
    }

    /// Returns whether an object floats: no one has sunk it yet.
    pub fn is_floating(&self, id: ObjectId) -> bool
        ensures { result ≡ list_any (λ i. nat_eq i id.0) self.now.core.world.floating }
    {
        self.core.is_floating(id)
    }

    /// Returns the identity of the object that the builder holds of a place. It holds none before it has built the object, and after the
    /// object's release.
    pub fn identity(&self, place: Place) -> Option<ObjectId>
        ensures { id_of result ≡ identity_held (builder_entry self.now.core.world place.0) }
    {
        self.core.identity(place)
    }

    /// Returns the name of an object's peer, if the object lives and has one.
    pub fn peer_name(&self, id: ObjectId) -> Option<&str>
        ensures { option_map (λ name. name.now) result ≡ peer_name self.now.core.world id.0 }
    {
        self.core.peer_name(id)
    }

    /// Returns whether the session takes no event: memory was refused, or an event is under way.
    pub fn is_stopped(&self) -> bool
        ensures { result ≡ self.now.core.stopped }
    {
        self.core.is_stopped()
    }

    /// Returns when a turn has something to run next, if no event comes before it. A turn before that moment runs nothing.
    pub fn next_due(&self) -> NextDue
        ensures { IsNextDue self.now.core.world result }
    {
        self.core.next_due()
    }
}
