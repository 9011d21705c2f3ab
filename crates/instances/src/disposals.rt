//! Disposing of objects with their peers.

ghost use Rattle.std.specs.Prelude.{◌≡◌, IsSome};
ghost use Rattle.ui_machine.specs.Definition as machine;
ghost use Rattle.ui_machine.specs.Rules.Disposal.{peers_closed};
ghost use Rattle.ui_machine.specs.State.Objects.{living};
ghost use Rattle.native_peers.specs.Matching.{as_peers};
ghost use Rattle.native_peers.specs.Pool.{entries, relations, seen};
ghost use Rattle.native_peers.specs.Seen.{SameRelations};
ghost use Rattle.instance_tables.specs.Release.{Disposes};
ghost use Rattle.instance_tables.specs.Weak.{Knows};
ghost use Rattle.instances.specs.Heaps.{SameClasses, marks_of, objects_of, pool_of};

use crate::closings::close_peer;
use crate::heaps::Heap;
use native_peers::Peer;
use ui_machine::ObjectId;

impl Heap<'_> {
    /// Disposes an object, whether it was disposed before or not. The weak properties that name it and its own strong properties of an
    /// object kind become null. Its children are removed, and they have no parent any more. What it held is released, and its peer is
    /// closed if it is open. Takes no memory, and the object still lives.
    pub fn dispose(&mut self, id: ObjectId)
        requires { IsSome (living (objects_of self.now).objects id.0) }
        ensures disposes { (d : machine.Definition) → Knows d (marks_of self.old) → Disposes d id.0 (objects_of self.old) (objects_of self.new) }
        ensures closed { as_peers (seen (λ p. (⟦<dyn Peer as Peer>⟧ p.peer.vtable).state p.peer.value) (entries (pool_of self.new))) ≡ peers_closed (as_peers (seen (λ p. (⟦<dyn Peer as Peer>⟧ p.peer.vtable).state p.peer.value) (entries (pool_of self.old)))) (living (objects_of self.old).objects id.0) }
        ensures same { SameRelations (relations (λ p. (⟦<dyn Peer as Peer>⟧ p.peer.vtable).moves p.peer.value) (entries (pool_of self.old))) (relations (λ p. (⟦<dyn Peer as Peer>⟧ p.peer.vtable).moves p.peer.value) (entries (pool_of self.new))) }
        ensures classes { SameClasses self.old self.new }
    {
        close_peer(&self.table, &mut self.pool, id);
        self.table.dispose(self.classes.weak, id);
    }
}
