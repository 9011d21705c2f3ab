//! The faults with which the program ends early.

use event_lines::FileFault;
use std::alloc::{AllocError, AllocFailed};
use std::io;

/// The reason why the program ends early.
#[derive(Clone, Copy, Debug, PartialEq, Eq)]
pub enum RunFault {
    OutOfMemory,
    /// A file was not read, or a line could not be written.
    Device,
}

impl From<AllocError> for RunFault {
    fn from(_error: AllocError) -> RunFault {
        RunFault::OutOfMemory
    }
}

impl<T: Drop> From<AllocFailed<T>> for RunFault {
    fn from(_error: AllocFailed<T>) -> RunFault {
        RunFault::OutOfMemory
    }
}

impl From<io::Error> for RunFault {
    fn from(_error: io::Error) -> RunFault {
        RunFault::Device
    }
}

impl From<FileFault> for RunFault {
    fn from(_error: FileFault) -> RunFault {
        RunFault::Device
    }
}
