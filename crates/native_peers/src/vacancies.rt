//! Empty placeholders for the peers of a run while the run owns them.

use crate::pools::PeerPool;
use crate::stand_ins::StandIn;
use std::alloc::Global;

/// A collection of peers that may be empty.
pub trait Vacant {
    /// Creates an empty collection of peers. Takes no memory.
    fn vacant(alloc: Global) -> Self;
}

impl Vacant for PeerPool {
    fn vacant(alloc: Global) -> Self {
        PeerPool::new(alloc)
    }
}

impl Vacant for Option<StandIn> {
    fn vacant(_alloc: Global) -> Self {
        None
    }
}
