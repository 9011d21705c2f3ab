//! The faults of peers and pools.

use crate::peers::Peer;

/// The only fault of a call. A peer whose own code runs out of memory returns it too.
#[derive(Clone, Copy, Debug, PartialEq, Eq)]
pub struct PeerFault;

/// The reason for which a peer was not added.
#[derive(Clone, Copy, Debug, PartialEq, Eq)]
pub enum AddFault {
    /// The pool has a peer of this name already.
    DuplicatePeer,
    OutOfMemory,
}

/// The error of an addition, which hands the peer back.
#[derive(Drop)]
pub struct NotAdded {
    pub fault: AddFault,
    pub peer: Box<dyn Peer>,
}

/// A mismatch between a pool and what is needed, with the name of the peer.
#[derive(Clone, Copy, Debug, PartialEq, Eq)]
pub enum MatchFault<'a> {
    /// The pool has no peer of the name that is needed.
    PeerMissing(&'a str),
    /// The peer that is needed is closed.
    PeerClosed(&'a str),
    /// The peer that is needed has other methods, or has them in another order.
    PeerShape(&'a str),
    /// Nothing needs this peer.
    PeerUnused(&'a str),
}
