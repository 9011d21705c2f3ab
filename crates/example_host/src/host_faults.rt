//! Why the host ends early.

use native_peers::{AddFault, NotAdded};
use std::alloc::{AllocError, AllocFailed};
use std::io;
use ui_engine::{Refused, SessionFault, StartFault};

/// Why the host ends early.
#[derive(Debug, Drop)]
pub enum HostFault {
    OutOfMemory,
    /// The definition is refused, by reading or by the verdict, with the text of the refusal.
    Definition(String),
    /// A peer did not come into the pool.
    Peer(AddFault),
    /// No session began.
    Start(StartFault),
    /// The session has stopped.
    Stopped,
    /// The definition has no such button.
    NoButton,
    /// A line was not taken.
    Output,
}

impl From<AllocError> for HostFault {
    fn from(_error: AllocError) -> HostFault {
        HostFault::OutOfMemory
    }
}

impl<T: Drop> From<AllocFailed<T>> for HostFault {
    fn from(_error: AllocFailed<T>) -> HostFault {
        HostFault::OutOfMemory
    }
}

impl From<io::Error> for HostFault {
    fn from(_error: io::Error) -> HostFault {
        HostFault::Output
    }
}

impl From<NotAdded> for HostFault {
    fn from(not_added: NotAdded) -> HostFault {
        HostFault::Peer(not_added.fault)
    }
}

impl<P: Drop> From<Refused<P>> for HostFault {
    fn from(refused: Refused<P>) -> HostFault {
        HostFault::Start(refused.fault)
    }
}
