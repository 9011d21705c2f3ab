//! Errors of reading instructions and programs.

ghost use Rattle.std.specs.Prelude.{◌≡◌};
ghost use Rattle.bytecode.specs.declared.errors.InstructionError.TheVariants as errors;
ghost use Rattle.bytecode.specs.declared.errors.ProgramError.TheVariants as program_errors;

use crate::faults::ProgramFault;
use std::alloc::{AllocError, AllocFailed};

/// The reason for which no instruction is read.
#[derive(Clone, Copy, Debug, PartialEq, Eq)]
pub enum InstructionError {
    /// Memory was refused.
    OutOfMemory,
    /// The value is no instruction.
    BadInstruction,
}

impl From<AllocError> for InstructionError {
    ghost from_gives = { λ _ error. error ≡ errors.OutOfMemory };

    fn from(_error: AllocError) -> InstructionError {
        InstructionError::OutOfMemory
    }
}

impl<T: Drop> From<AllocFailed<T>> for InstructionError {
    ghost from_gives = { λ _ error. error ≡ errors.OutOfMemory };

    fn from(_error: AllocFailed<T>) -> InstructionError {
        InstructionError::OutOfMemory
    }
}

/// The reason for which no program is read.
#[derive(Clone, Copy, Debug, PartialEq, Eq)]
pub enum ProgramError {
    /// Memory was refused.
    OutOfMemory,
    /// The value denotes no program.
    Refused(ProgramFault),
}

impl From<AllocError> for ProgramError {
    ghost from_gives = { λ _ error. error ≡ program_errors.OutOfMemory };

    fn from(_error: AllocError) -> ProgramError {
        ProgramError::OutOfMemory
    }
}

impl<T: Drop> From<AllocFailed<T>> for ProgramError {
    ghost from_gives = { λ _ error. error ≡ program_errors.OutOfMemory };

    fn from(_error: AllocFailed<T>) -> ProgramError {
        ProgramError::OutOfMemory
    }
}
