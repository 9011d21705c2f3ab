//! Creation of heaps and of their objects.

ghost use Rattle.std.specs.Prelude.{◌≡◌, ◌<◌, [], IfOk, IsSomeAnd, IsTrue, None, Some, length, slice_get};
ghost use Rattle.std.specs.Option.{ForSome};
ghost use Rattle.ui_machine.specs.State.Objects.{living};
ghost use Rattle.param_specs.specs.Table.{specs_of};
ghost use Rattle.native_peers.specs.Pool.{entries, seen};
ghost use Rattle.instance_tables.specs.Store.{Creates, CreatesFloating};
ghost use Rattle.instances.specs.Heaps.{SameClasses, born_in, classes_of, floats_in, objects_of, pool_of};
ghost use Rattle.instances.specs.Lent.{IsFree};
ghost use Rattle.instances.specs.Making.{Makes};

use crate::classes::Classes;
use crate::heaps::Heap;
use instance_tables::{CreateError, Object, Table};
use native_peers::{Peer, PeerPool};
use std::alloc::Global;
use type_tree::TypeId;
use ui_machine::{ObjectId, Place};

impl<'a> Heap<'a> {
    /// Creates a heap without objects, for these classes, with a limit on how many objects may live and the peers that they may be given.
    /// Takes no memory.
    pub fn new(alloc: Global, classes: Classes<'a>, limit: u32, pool: PeerPool) -> Self
        ensures objects { objects_of result ≡ record { objects = []; counts = []; limit = limit; floating = [] } }
        ensures pool { pool_of result ≡ pool }
        ensures classes { classes_of result ≡ classes.entry }
    {
        Heap {
            classes,
            table: Table::new(alloc, limit),
            pool,
            last_lent: 0,
            alloc,
        }
    }
}

impl Heap<'_> {
    /// Adds an object of a class under the next identity. If the number of a peer is given, the peer has to be open and belong to no other
    /// object. The object has the defaults of its class, and its notifications are frozen once. It floats if its class is under
    /// `GInitiallyUnowned`, otherwise nothing holds it.
    ///
    /// # Errors
    ///
    /// Returns `ObjectLimit` if and only if as many objects live as may or no identity is left, otherwise `OutOfMemory` if memory is
    /// refused. Nothing has changed then.
    pub fn create(
        &mut self,
        place: Place,
        class: TypeId,
        peer: Option<usize>,
    ) -> Result<ObjectId, CreateError>
        requires open { ForSome peer (λ number. IsSomeAnd (slice_get (seen (λ p. (⟦<dyn Peer as Peer>⟧ p.peer.vtable).state p.peer.value) (entries (pool_of self.now))) number) (λ p. IsTrue p.state.is_open)) }
        requires free { ForSome peer (IsFree (objects_of self.now).objects) }
        ensures makes { Makes result (floats_in self.old class)
            (born_in self.old place.0 class peer) (objects_of self.old) (objects_of self.new) }
        ensures made { IfOk result (λ id. living (objects_of self.new).objects id.0 ≡ Some (born_in self.old place.0 class peer)) }
        ensures pool { pool_of self.new ≡ pool_of self.old }
        ensures classes { SameClasses self.old self.new }
    {
        if !self.table.has_room(0) {
            return Err(CreateError::ObjectLimit);
        }
        let Ok(values) = self.classes.defaults(self.alloc, class) else {
            return Err(CreateError::OutOfMemory);
        };
        let object = Object::new(self.alloc, class, place, values, peer);
        if self.classes.floats_at_first(class) {
            self.add_floating(object)
        } else {
            self.add_object(object)
        }
    }

    // Adds an object, which nothing holds yet. It has as many properties as its class. Its peer, if it has one, is of the pool and belongs
    // to no other object.
    fn add_object(&mut self, object: Object) -> Result<ObjectId, CreateError>
        requires childless { object.children ≡ [] }
        requires parentless { object.parent ≡ None }
        requires full { length object.values ≡ length (specs_of (classes_of self.now).types.now (classes_of self.now).specs.now object.class) }
        requires inside { ForSome object.peer (λ number. number < length (entries (pool_of self.now))) }
        requires free { ForSome object.peer (IsFree (objects_of self.now).objects) }
        ensures creates { Creates result object (objects_of self.old) (objects_of self.new) }
        ensures pool { pool_of self.new ≡ pool_of self.old }
        ensures classes { SameClasses self.old self.new }
    {
        let id = self.table.create(object)?;
        self.last_lent = self.last_lent.max(id.0);
        Ok(id)
    }

    // Adds an object as `add_object` does, which floats.
    fn add_floating(&mut self, object: Object) -> Result<ObjectId, CreateError>
        requires childless { object.children ≡ [] }
        requires parentless { object.parent ≡ None }
        requires full { length object.values ≡ length (specs_of (classes_of self.now).types.now (classes_of self.now).specs.now object.class) }
        requires inside { ForSome object.peer (λ number. number < length (entries (pool_of self.now))) }
        requires free { ForSome object.peer (IsFree (objects_of self.now).objects) }
        ensures creates { CreatesFloating result object (objects_of self.old) (objects_of self.new) }
        ensures pool { pool_of self.new ≡ pool_of self.old }
        ensures classes { SameClasses self.old self.new }
    {
        let id = self.table.create_floating(object)?;
        self.last_lent = self.last_lent.max(id.0);
        Ok(id)
    }
}
