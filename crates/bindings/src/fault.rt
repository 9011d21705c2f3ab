//! Errors of making a binding.

ghost use Rattle.std.specs.Prelude.{◌≡◌};
ghost use Rattle.bindings.specs.declared.fault.BindError.TheVariants.{OutOfMemory};

use std::alloc::{AllocError, AllocFailed};
use thiserror::Error;

/// The reason for which a binding is not made.
#[derive(Clone, Copy, Debug, PartialEq, Eq, Error)]
pub enum BindError {
    #[error("the numbers of bindings are used up")]
    BindingLimit,
    #[error("out of memory")]
    OutOfMemory,
}

impl From<AllocError> for BindError {
    ghost from_gives = { λ _ e. e ≡ OutOfMemory };

    fn from(_error: AllocError) -> BindError {
        BindError::OutOfMemory
    }
}

impl<T: Drop> From<AllocFailed<T>> for BindError {
    ghost from_gives = { λ _ e. e ≡ OutOfMemory };

    fn from(_error: AllocFailed<T>) -> BindError {
        BindError::OutOfMemory
    }
}
