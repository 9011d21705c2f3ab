//! The faults with which the program ends early.

use std::alloc::{AllocError, AllocFailed};
use std::io;

/// The reason why the program ends early.
#[derive(Clone, Copy, Debug, PartialEq, Eq)]
pub enum CallFault {
    /// A line is not a call.
    Line,
    OutOfMemory,
    /// A line was not read, or could not be written.
    Device,
}

impl From<AllocError> for CallFault {
    fn from(_error: AllocError) -> CallFault {
        CallFault::OutOfMemory
    }
}

impl<T: Drop> From<AllocFailed<T>> for CallFault {
    fn from(_error: AllocFailed<T>) -> CallFault {
        CallFault::OutOfMemory
    }
}

impl From<io::Error> for CallFault {
    fn from(_error: io::Error) -> CallFault {
        CallFault::Device
    }
}
