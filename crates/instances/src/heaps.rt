//! The type of heaps.

ghost use Rattle.std.specs.Prelude.{length};
ghost use Rattle.native_peers.specs.Pool.{entries};
ghost use Rattle.instances.specs.Lent.{AreApart, AreLent};
ghost use Rattle.instances.specs.Slotted.{AreSlotted};

use crate::classes::Classes;
use instance_tables::Table;
use native_peers::PeerPool;
use std::alloc::Global;

/// Objects with their hold counts, and the pool of their peers. No two objects share a peer, and each has as many properties as its class.
#[derive(Drop)]
pub struct Heap<'a> {
    pub(crate) classes: Classes<'a>,
    pub(crate) table: Table,
    pub(crate) pool: PeerPool,
    // The greatest identity of an object that was given a peer.
    pub(crate) last_lent: u64,
    pub(crate) alloc: Global,
    ghost lent: { AreLent last_lent (length (entries pool)) table.objects },
    ghost apart: { AreApart table.objects },
    ghost slotted: { AreSlotted classes.types.now classes.specs.now table.objects },
}
