//! Calls of the crate `instances`: an object with a peer, which is a tally.

ghost use Rattle.std.specs.Prelude.{◌≡◌, ℕ, [], IfOk, IsSome, IsSomeAnd, IsTrue, OnOk};
ghost use Rattle.ui_machine.specs.State.Objects.{living};
ghost use Rattle.native_peers.specs.Pool.{entries, seen};
ghost use Rattle.native_peers.specs.Tallies.{IsTallyAt, tally_shape};
ghost use Rattle.instances.specs.Calls.{peer_seen};
ghost use Rattle.instances.specs.Heaps.{objects_of, pool_of};
ghost use Rattle.instances.specs.Lent.{IsFree};

use crate::call_faults::CallFault;
use crate::heap_tables::HeapTables;
use g_values::Value;
use host_peers::Tally;
use instances::Heap;
use native_peers::{Peer, PeerFault, PeerPool};
use std::alloc::Global;
use type_tree::TypeId;
use ui_machine::{ObjectId, Place};

// The number of the peer that an object gets.
const LENT: usize = 0;

// The number of a tally's method that adds.
const ADD: usize = 0;

// Adds an open tally and another peer to a pool without peers.
fn fill(pool: &mut PeerPool, lent: Box<dyn Peer>, left: Box<dyn Peer>) -> Result<(), CallFault>
    requires none { entries pool.now ≡ [] }
    requires shape { ((⟦<dyn Peer as Peer>⟧ lent.vtable).state lent.value).shape ≡ tally_shape }
    requires open { IsTrue ((⟦<dyn Peer as Peer>⟧ lent.vtable).state lent.value).is_open }
    ensures { OnOk result (IsTallyAt 0 (seen (λ p. (⟦<dyn Peer as Peer>⟧ p.peer.vtable).state p.peer.value) (entries pool.new))) }
{
    if pool.add("lent", lent).is_err() {
        return Err(CallFault::OutOfMemory);
    }
    if pool.add("left", left).is_err() {
        return Err(CallFault::OutOfMemory);
    }
    Ok(())
}

// Creates an object that gets the tally.
fn create(heap: &mut Heap<'_>, class: TypeId) -> Result<ObjectId, CallFault>
    requires tally { IsTallyAt 0 (seen (λ p. (⟦<dyn Peer as Peer>⟧ p.peer.vtable).state p.peer.value) (entries (pool_of heap.now))) }
    requires free { IsFree (objects_of heap.now).objects 0 }
    ensures { IfOk result (λ id. IsSomeAnd (peer_seen (seen (λ p. (⟦<dyn Peer as Peer>⟧ p.peer.vtable).state p.peer.value) (entries (pool_of heap.new))) (living (objects_of heap.new).objects id.0)) (λ s. (s.state.shape ≡ tally_shape) × IsTrue s.state.is_open)) }
{
    match heap.create(Place(0), class, Some(LENT)) {
        Ok(id) => Ok(id),
        Err(_) => Err(CallFault::OutOfMemory),
    }
}

// Asks the tally of an object to add a number, and returns its answer.
fn add(heap: &mut Heap<'_>, id: ObjectId, number: i64) -> Result<Value, PeerFault>
    requires { IsSomeAnd (peer_seen (seen (λ p. (⟦<dyn Peer as Peer>⟧ p.peer.vtable).state p.peer.value) (entries (pool_of heap.now))) (living (objects_of heap.now).objects id.0)) (λ s. (s.state.shape ≡ tally_shape) × IsTrue s.state.is_open) }
    ensures { IsSome (living (objects_of heap.new).objects id.0) }
{
    heap.invoke(id, ADD, &[Value::Int64(number)])
}

// Finalises the lowest object that nothing holds.
fn finalise_next(heap: &mut Heap<'_>) {
    if let Some(id) = heap.next_unheld() {
        heap.finalise(id);
    }
}

/// Answers `NUMBER [disposed|finalised]`: an object gets the first of two tallies, and the tally is asked to add the number. Then the
/// object is disposed or finalised, if the words say so, before its heap is given up.
///
/// # Errors
///
/// Returns `Line` if the words are not a call.
pub fn answer_of_tally(alloc: Global, number: i64, end: &str) -> Result<String, CallFault> {
    let tables = HeapTables::new(alloc)?;
    let mut pool = PeerPool::new(alloc);
    let lent = Box::new(alloc, Tally::new(alloc)?)?;
    let left = Box::new(alloc, Tally::new(alloc)?)?;
    fill(&mut pool, lent, left)?;
    let mut heap = Heap::new(alloc, tables.classes(), 1, pool);
    let id = create(&mut heap, tables.box_class)?;
    let sum = add(&mut heap, id, number);
    match end {
        "disposed" => heap.dispose(id),
        "finalised" => finalise_next(&mut heap),
        _ => {}
    }
    let is_live = heap.is_live(id);
    let is_open = heap.is_open(id);
    let is_disposed = heap.is_disposed(id);
    let mut pool = heap.into_pool();
    let (Some(lent), Some(left)) = (pool.take("lent"), pool.take("left")) else {
        return Err(CallFault::Line);
    };
    let (lent_open, left_open) = (lent.is_open(), left.is_open());
    let (lent_counts, left_counts) = (lent.counts(), left.counts());
    Ok(format!(in alloc;
        "{sum:?} is_live {is_live} is_open {is_open} is_disposed {is_disposed}, lent is_open {lent_open} {lent_counts:?}, left is_open {left_open} {left_counts:?}"
    )?)
}
