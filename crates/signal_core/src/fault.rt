//! Errors of declaring signals and connecting handlers.

ghost use Rattle.std.specs.Prelude.{◌≡◌};
ghost use Rattle.signal_core.specs.declared.fault.ConnectError.TheVariants.{OutOfMemory};
ghost use Rattle.signal_core.specs.declared.fault.SignalError.TheVariants as signals;

use std::alloc::{AllocError, AllocFailed};
use thiserror::Error;

/// The reason for which a signal is refused. The variants are in the order in which the tests are made.
#[derive(Clone, Copy, Debug, PartialEq, Eq)]
pub enum SignalFault {
    /// The name is not made of non-empty segments of ASCII letters and digits, separated by `-` or `_`, beginning with a letter.
    BadName,
    /// The type has a signal of that name already: `notify`, one of its own, of an ancestor, or of an interface that it or an ancestor
    /// implements.
    Duplicate,
    /// The accumulator stops at TRUE and the result is not a boolean, or it takes the first result and there is no result.
    AccumulatorKind,
    /// The type and its ancestors have 64 signals of their own already. `notify` and the signals of interfaces do not count.
    Limit,
}

/// The error of a declaration.
#[derive(Clone, Copy, Debug, PartialEq, Eq)]
pub enum SignalError {
    /// Memory was refused.
    OutOfMemory,
    /// A test refused the signal.
    Refused(SignalFault),
}

impl From<AllocError> for SignalError {
    ghost from_gives = { λ _ e. e ≡ signals.OutOfMemory };

    fn from(_error: AllocError) -> SignalError {
        SignalError::OutOfMemory
    }
}

impl<T: Drop> From<AllocFailed<T>> for SignalError {
    ghost from_gives = { λ _ e. e ≡ signals.OutOfMemory };

    fn from(_error: AllocFailed<T>) -> SignalError {
        SignalError::OutOfMemory
    }
}

/// The reason for which a handler is not connected.
#[derive(Clone, Copy, Debug, PartialEq, Eq, Error)]
pub enum ConnectError {
    #[error("no more handlers can be connected")]
    HandlerLimit,
    #[error("out of memory")]
    OutOfMemory,
}

impl From<AllocError> for ConnectError {
    ghost from_gives = { λ _ e. e ≡ OutOfMemory };

    fn from(_error: AllocError) -> ConnectError {
        ConnectError::OutOfMemory
    }
}
