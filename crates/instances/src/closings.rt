//! Closing of peers with their objects.

ghost use Rattle.std.specs.Prelude.{◌≡◌, ℕ, ◌<◌, Some, fold, length};
ghost use Rattle.ui_machine.specs.Rules.Disposal.{peers_closed};
ghost use Rattle.ui_machine.specs.State.Objects.{living};
ghost use Rattle.native_peers.specs.Matching.{as_peers};
ghost use Rattle.native_peers.specs.Pool.{entries, relations, seen};
ghost use Rattle.native_peers.specs.Seen.{SameRelations};
ghost use Rattle.instances.specs.Lent.{AreLent, peer_at};

use instance_tables::Table;
use native_peers::{Peer, PeerPool};
use ui_machine::ObjectId;

/// Closes the peer of an object, if it has one and the peer is open.
pub(crate) fn close_peer(table: &Table, pool: &mut PeerPool, id: ObjectId)
    requires inside { (number : ℕ) → peer_at table.now.objects id.0 ≡ Some number → number < length (entries pool.now) }
    ensures closed { as_peers (seen (λ p. (⟦<dyn Peer as Peer>⟧ p.peer.vtable).state p.peer.value) (entries pool.new)) ≡ peers_closed (as_peers (seen (λ p. (⟦<dyn Peer as Peer>⟧ p.peer.vtable).state p.peer.value) (entries pool.old))) (living table.now.objects id.0) }
    ensures same { SameRelations (relations (λ p. (⟦<dyn Peer as Peer>⟧ p.peer.vtable).moves p.peer.value) (entries pool.old)) (relations (λ p. (⟦<dyn Peer as Peer>⟧ p.peer.vtable).moves p.peer.value) (entries pool.new)) }
    ensures as_many { length (entries pool.new) ≡ length (entries pool.old) }
{
    let Some(number) = table.peer_of(id) else {
        return;
    };
    if pool.is_open(number) {
        pool.close(number);
    }
}

/// Closes the open peers of all objects, from the lowest identity up. No object above the identity `last` has a peer.
pub(crate) fn close_all(table: &Table, pool: &mut PeerPool, last: u64)
    requires { AreLent last (length (entries pool.now)) table.now.objects }
    ensures closed { as_peers (seen (λ p. (⟦<dyn Peer as Peer>⟧ p.peer.vtable).state p.peer.value) (entries pool.new)) ≡ fold peers_closed (as_peers (seen (λ p. (⟦<dyn Peer as Peer>⟧ p.peer.vtable).state p.peer.value) (entries pool.old))) table.now.objects }
    ensures same { SameRelations (relations (λ p. (⟦<dyn Peer as Peer>⟧ p.peer.vtable).moves p.peer.value) (entries pool.old)) (relations (λ p. (⟦<dyn Peer as Peer>⟧ p.peer.vtable).moves p.peer.value) (entries pool.new)) }
{
    'identities: for below in 0..last {
        close_peer(table, pool, ObjectId(below + 1));
    }
}
