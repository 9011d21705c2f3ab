//! Additions of peers to the pool of a host.

ghost use Rattle.std.specs.Prelude.{◌≡◌, IsSome, IsTrue, List, None, OnErr, OnOk, string_bytes};
ghost use Rattle.std.specs.List.{All};
ghost use Rattle.native_peers.specs.Pool.{AppendsOne, entries, number_of, seen};
ghost use Rattle.native_peers.specs.Moves.{SameMoves};
ghost use Rattle.host_peers.specs.Stock.{Stocked, moves_of, new_state, with_peer, with_stocked};
ghost use Rattle.host_peers.specs.StockedPools.{AreStocked};

use crate::stock_lists::StockKind;
use native_peers::{AddFault, NotAdded, Peer, PeerPool};
use std::alloc::AllocError;

/// Adds an open peer at the end of a pool whose peers are all open. If the pool has a peer of that name already, the new one is dropped.
///
/// # Errors
///
/// `AllocError` if memory is refused.
pub fn put(pool: &mut PeerPool, name: &str, peer: Box<dyn Peer>) -> Result<(), AllocError>
    requires open { IsTrue ((⟦<dyn Peer as Peer>⟧ peer.vtable).state peer.value).is_open }
    requires all { All (λ p. IsTrue ((⟦<dyn Peer as Peer>⟧ p.peer.vtable).state p.peer.value).is_open) (entries pool.old) }
    ensures added { OnOk result (number_of (entries pool.old) name.now ≡ None → AppendsOne (λ p. (string_bytes p.name ≡ name.now) × (p.peer ≡ peer)) (entries pool.old) (entries pool.new)) }
    ensures passed_over { IsSome (number_of (entries pool.old) name.now) → entries pool.new ≡ entries pool.old }
    ensures seen { OnOk result (seen (λ p. (⟦<dyn Peer as Peer>⟧ p.peer.vtable).state p.peer.value) (entries pool.new) ≡ with_peer (seen (λ p. (⟦<dyn Peer as Peer>⟧ p.peer.vtable).state p.peer.value) (entries pool.old)) (record { name = name.now; state = (⟦<dyn Peer as Peer>⟧ peer.vtable).state peer.value })) }
    ensures err { OnErr result (entries pool.new ≡ entries pool.old) }
    ensures open { All (λ p. IsTrue ((⟦<dyn Peer as Peer>⟧ p.peer.vtable).state p.peer.value).is_open) (entries pool.new) }
{
    match pool.add(name, peer) {
        Ok(()) => Ok(()),
        Err(
            NotAdded {
                fault: AddFault::DuplicatePeer,
                peer: _,
            },
        ) => Ok(()),
        Err(
            NotAdded {
                fault: AddFault::OutOfMemory,
                peer: _,
            },
        ) => Err(AllocError),
    }
}

/// Adds a new peer of a kind at the end of a pool whose peers are all open. If the pool has a peer of that name already, the new one is
/// dropped.
///
/// # Errors
///
/// `AllocError` if memory is refused.
pub(crate) fn put_new(
    pool: &mut PeerPool,
    name: &str,
    kind: StockKind,
    peer: Box<dyn Peer>,
) -> Result<(), AllocError>
    requires new { (⟦<dyn Peer as Peer>⟧ peer.vtable).state peer.value ≡ new_state kind }
    requires moves { SameMoves ((⟦<dyn Peer as Peer>⟧ peer.vtable).moves peer.value) (moves_of kind) }
    requires all { All (λ p. IsTrue ((⟦<dyn Peer as Peer>⟧ p.peer.vtable).state p.peer.value).is_open) (entries pool.old) }
    ensures stocked { OnOk result ((kept : List Stocked) →
        AreStocked (λ p. (⟦<dyn Peer as Peer>⟧ p.peer.vtable).state p.peer.value) (λ p. (⟦<dyn Peer as Peer>⟧ p.peer.vtable).moves p.peer.value) (entries pool.old) kept →
        AreStocked (λ p. (⟦<dyn Peer as Peer>⟧ p.peer.vtable).state p.peer.value) (λ p. (⟦<dyn Peer as Peer>⟧ p.peer.vtable).moves p.peer.value) (entries pool.new)
        (with_stocked kept (record { name = name.now; kind = kind }))) }
    ensures open { All (λ p. IsTrue ((⟦<dyn Peer as Peer>⟧ p.peer.vtable).state p.peer.value).is_open) (entries pool.new) }
{
    put(pool, name, peer)?;
    Ok(())
}
