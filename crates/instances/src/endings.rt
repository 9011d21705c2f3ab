//! Finalising of objects, and the end of a heap.

ghost use Rattle.std.specs.Prelude.{◌≡◌, IsSome, fold};
ghost use Rattle.ui_machine.specs.Definition as machine;
ghost use Rattle.ui_machine.specs.Rules.Disposal.{peers_closed};
ghost use Rattle.ui_machine.specs.State.Objects.{living};
ghost use Rattle.native_peers.specs.Matching.{as_peers};
ghost use Rattle.native_peers.specs.Pool.{entries, relations, seen};
ghost use Rattle.native_peers.specs.Seen.{SameRelations};
ghost use Rattle.instance_tables.specs.Release.{Finalises};
ghost use Rattle.instance_tables.specs.Store.{count_of};
ghost use Rattle.instance_tables.specs.Weak.{Knows};
ghost use Rattle.instances.specs.Heaps.{SameClasses, marks_of, objects_of, pool_of};

use crate::closings::{close_all, close_peer};
use crate::heaps::Heap;
use native_peers::{Peer, PeerPool};
use ui_machine::ObjectId;

impl Heap<'_> {
    /// Finalises an object that nothing holds: disposes it, whether it was disposed before or not, and removes it. Its identity is not used
    /// again. Takes no memory.
    pub fn finalise(&mut self, id: ObjectId)
        requires live { IsSome (living (objects_of self.now).objects id.0) }
        requires unheld { count_of (objects_of self.now).counts id.0 ≡ 0 }
        ensures finalises { (d : machine.Definition) → Knows d (marks_of self.old) → Finalises d id.0 (objects_of self.old) (objects_of self.new) }
        ensures closed { as_peers (seen (λ p. (⟦<dyn Peer as Peer>⟧ p.peer.vtable).state p.peer.value) (entries (pool_of self.new))) ≡ peers_closed (as_peers (seen (λ p. (⟦<dyn Peer as Peer>⟧ p.peer.vtable).state p.peer.value) (entries (pool_of self.old)))) (living (objects_of self.old).objects id.0) }
        ensures same { SameRelations (relations (λ p. (⟦<dyn Peer as Peer>⟧ p.peer.vtable).moves p.peer.value) (entries (pool_of self.old))) (relations (λ p. (⟦<dyn Peer as Peer>⟧ p.peer.vtable).moves p.peer.value) (entries (pool_of self.new))) }
        ensures classes { SameClasses self.old self.new }
    {
        close_peer(&self.table, &mut self.pool, id);
        self.table.finalise(self.classes.weak, id);
    }

    /// Closes the open peers of all objects, from the lowest identity up, and returns the pool. Other peers are unchanged.
    pub fn into_pool(self) -> PeerPool
        ensures closed { as_peers (seen (λ p. (⟦<dyn Peer as Peer>⟧ p.peer.vtable).state p.peer.value) (entries result)) ≡ fold peers_closed (as_peers (seen (λ p. (⟦<dyn Peer as Peer>⟧ p.peer.vtable).state p.peer.value) (entries (pool_of self.entry)))) (objects_of self.entry).objects }
        ensures same { SameRelations (relations (λ p. (⟦<dyn Peer as Peer>⟧ p.peer.vtable).moves p.peer.value) (entries (pool_of self.entry))) (relations (λ p. (⟦<dyn Peer as Peer>⟧ p.peer.vtable).moves p.peer.value) (entries result)) }
    {
        let mut pool = self.pool;
        close_all(&self.table, &mut pool, self.last_lent);
        pool
    }
}
