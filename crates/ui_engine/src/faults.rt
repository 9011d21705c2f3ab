//! The faults for which a session does not begin or does not carry out an event.

use std::alloc::AllocError;

/// The reason why an event was not carried out to its end.
#[derive(Clone, Copy, Debug, PartialEq, Eq)]
pub enum SessionFault {
    /// Memory was refused. The session has stopped.
    OutOfMemory,
    /// The session stopped before, in its build or in an event.
    Stopped,
    /// The event is a turn of a moment before the latest one. Nothing has changed.
    ClockBack,
    /// The event names an object that was released. Nothing has changed.
    Released,
}

impl From<AllocError> for SessionFault {
    ghost use Rattle.std.specs.Prelude.{◌≡◌};
    ghost use Rattle.ui_engine.specs.declared.faults.SessionFault.TheVariants as faults;

    ghost from_gives = { λ _ fault. fault ≡ faults.OutOfMemory };

    fn from(_error: AllocError) -> SessionFault {
        SessionFault::OutOfMemory
    }
}

/// The reason why no session began. A peer that is not as the definition needs it is named, and it is the first such one.
#[derive(Debug, Drop)]
pub enum StartFault {
    /// Memory was refused before the build.
    OutOfMemory,
    /// The definition needs the peer, and the pool has none of this name.
    PeerMissing(String),
    /// The peer is closed.
    PeerClosed(String),
    /// The peer has other methods than the shape that is needed, or has them in another order.
    PeerShape(String),
    /// The definition does not need the peer.
    PeerUnused(String),
    /// A dispatch of the definition may count more steps than its host allows.
    StepLimit,
}

impl From<AllocError> for StartFault {
    ghost use Rattle.std.specs.Prelude.{◌≡◌};
    ghost use Rattle.ui_engine.specs.declared.faults.StartFault.TheVariants as starts;

    ghost from_gives = { λ _ fault. fault ≡ starts.OutOfMemory };

    fn from(_error: AllocError) -> StartFault {
        StartFault::OutOfMemory
    }
}
