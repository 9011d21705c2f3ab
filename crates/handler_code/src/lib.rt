//! Reads programs from JSON. This crate also re-exports what programs are and how they run, from `bytecode` and `frames`.
//!
//! Each JSON value either denotes a program of the machine or is refused, and the contracts say which.
#![tactic(auto)]

mod reading;

pub use bytecode::{
    Arithmetic, Block, BlockNumber, Comparison, Computation, Computed, Connection, Format,
    Instruction, InstructionError, MOST_BLOCKS, MOST_INSTRUCTIONS, MOST_PASSES, MOST_REGISTERS,
    OutlineError, OutlineFault, Program, ProgramError, ProgramFault, ProgramLimit, ProgramPart,
    Register, RegisterKind,
};
pub use frames::{
    Frame, MOST_TEXT_BYTES, compute, copy_values, identity_at, text_at, truth_at, value_at,
};
pub use reading::{Names, Scope, check_outline, read_instruction, read_json_program, read_program};
