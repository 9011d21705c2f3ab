//! The reasons why a report was not written.

ghost use Rattle.std.specs.Prelude.{◌≡◌};
ghost use Rattle.verified.specs.declared.faults.ReportFault.TheVariants as faults;

use std::alloc::AllocError;
use thiserror::Error;
use ui_machine::DeviceFault;

/// The reason why a report was not written whole.
#[derive(Clone, Copy, Debug, PartialEq, Eq, Error)]
pub enum ReportFault {
    #[error("a write failed")]
    WriteFault,
    #[error("out of memory")]
    OutOfMemory,
}

impl From<AllocError> for ReportFault {
    ghost from_gives = { λ _ e. e ≡ faults.OutOfMemory };

    fn from(_error: AllocError) -> ReportFault {
        ReportFault::OutOfMemory
    }
}

impl From<DeviceFault> for ReportFault {
    ghost from_gives = { λ _ e. e ≡ faults.WriteFault };

    fn from(_error: DeviceFault) -> ReportFault {
        ReportFault::WriteFault
    }
}
