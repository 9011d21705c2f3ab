//! Errors of a context.

ghost use Rattle.std.specs.Prelude.{◌≡◌};
ghost use Rattle.main_context.specs.declared.fault.AttachError.TheVariants as attaching;
ghost use Rattle.main_context.specs.declared.fault.TurnError.TheVariants as turning;

use std::alloc::{AllocError, AllocFailed};
use thiserror::Error;

/// The reason for which a source is not attached.
#[derive(Clone, Copy, Debug, PartialEq, Eq, Error)]
pub enum AttachError {
    #[error("no more sources may be attached")]
    SourceLimit,
    #[error("out of memory")]
    OutOfMemory,
}

impl<T: Drop> From<AllocFailed<T>> for AttachError {
    ghost from_gives = { λ _ e. e ≡ attaching.OutOfMemory };

    fn from(_error: AllocFailed<T>) -> AttachError {
        AttachError::OutOfMemory
    }
}

impl From<AllocError> for AttachError {
    ghost from_gives = { λ _ e. e ≡ attaching.OutOfMemory };

    fn from(_error: AllocError) -> AttachError {
        AttachError::OutOfMemory
    }
}

/// The reason for which an iteration does not begin.
#[derive(Clone, Copy, Debug, PartialEq, Eq, Error)]
pub enum TurnError {
    #[error("the moment is before the latest one")]
    ClockBack,
    #[error("out of memory")]
    OutOfMemory,
}

impl From<AllocError> for TurnError {
    ghost from_gives = { λ _ e. e ≡ turning.OutOfMemory };

    fn from(_error: AllocError) -> TurnError {
        TurnError::OutOfMemory
    }
}
