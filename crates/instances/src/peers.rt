//! Calls of the peers of objects.

ghost use Rattle.std.specs.Prelude.{◌≡◌, IsSomeAnd, IsTrue, map};
ghost use Rattle.ui_machine.specs.State.Objects.{living};
ghost use Rattle.g_values.specs.View.{value_view};
ghost use Rattle.native_peers.specs.Moves.{ArgsFit, answer_of};
ghost use Rattle.native_peers.specs.Pool.{entries, relations, seen};
ghost use Rattle.native_peers.specs.Seen.{SameRelations};
ghost use Rattle.instances.specs.Calls.{AsksOf, is_callable, peer_seen};
ghost use Rattle.instances.specs.Heaps.{SameClasses, objects_of, pool_of};

use crate::heaps::Heap;
use g_values::Value;
use native_peers::{Peer, PeerFault};
use ui_machine::ObjectId;

impl Heap<'_> {
    /// Returns whether an object has a peer that may be called.
    pub fn is_open(&self, id: ObjectId) -> bool
        ensures { result ≡ is_callable (peer_seen (seen (λ p. (⟦<dyn Peer as Peer>⟧ p.peer.vtable).state p.peer.value) (entries (pool_of self.now))) (living (objects_of self.now).objects id.0)) }
    {
        match self.table.peer_of(id) {
            Some(number) => self.pool.is_open(number),
            None => false,
        }
    }

    /// Calls a method of an object's peer, which is open, with arguments of the method's kinds. All other peers stay as they are.
    ///
    /// # Errors
    ///
    /// Returns `PeerFault` if the peer answers no value.
    pub fn invoke(
        &mut self,
        id: ObjectId,
        method: usize,
        args: &[Value],
    ) -> Result<Value, PeerFault>
        requires open { IsSomeAnd (peer_seen (seen (λ p. (⟦<dyn Peer as Peer>⟧ p.peer.vtable).state p.peer.value) (entries (pool_of self.now))) (living (objects_of self.now).objects id.0)) (λ p. IsTrue p.state.is_open) }
        requires args { IsSomeAnd (peer_seen (seen (λ p. (⟦<dyn Peer as Peer>⟧ p.peer.vtable).state p.peer.value) (entries (pool_of self.now))) (living (objects_of self.now).objects id.0)) (λ p. ArgsFit p.state method (map value_view args.now)) }
        ensures asks { AsksOf (living (objects_of self.old).objects id.0) (seen (λ p. (⟦<dyn Peer as Peer>⟧ p.peer.vtable).state p.peer.value) (entries (pool_of self.old))) (seen (λ p. (⟦<dyn Peer as Peer>⟧ p.peer.vtable).state p.peer.value) (entries (pool_of self.new)))
            (relations (λ p. (⟦<dyn Peer as Peer>⟧ p.peer.vtable).moves p.peer.value) (entries (pool_of self.old))) method (map value_view args.now) (answer_of result) }
        ensures same { SameRelations (relations (λ p. (⟦<dyn Peer as Peer>⟧ p.peer.vtable).moves p.peer.value) (entries (pool_of self.old))) (relations (λ p. (⟦<dyn Peer as Peer>⟧ p.peer.vtable).moves p.peer.value) (entries (pool_of self.new))) }
        ensures objects { objects_of self.new ≡ objects_of self.old }
        ensures classes { SameClasses self.old self.new }
    {
        let Some(number) = self.table.peer_of(id) else {
            unreachable!()
        };
        self.pool.invoke(number, method, args)
    }
}
