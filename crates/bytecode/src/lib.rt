//! Programs in bytecode: their instructions and blocks, the faults for which they are refused, and the programs that JSON denotes.
//!
//! A program is a handler in bytecode. It has up to 32 registers, each unset or with a value, and its instructions read and write them. A
//! contract sees a program as a program of the machine. The specs of this crate also say which program a JSON value denotes, or why it
//! denotes none. The crate that reads programs has them as its contracts.
#![tactic(auto)]

mod computations;
mod errors;
mod faults;
mod formats;
mod instructions;
mod outline_faults;
mod positions;
mod programs;
mod shapes;

pub use computations::{Arithmetic, Comparison, Computation, Computed, Register};
pub use errors::{InstructionError, ProgramError};
pub use faults::{ProgramFault, ProgramLimit};
pub use formats::Format;
pub use instructions::{
    BlockNumber, Call, Connection, ControlInstruction, Instruction, ObjectInstruction,
    PropertyInstruction, SignalInstruction, SourceInstruction,
};
pub use outline_faults::{OutlineError, OutlineFault, ProgramPart};
pub use programs::{Block, Program, RegisterKind};
pub use shapes::{MOST_BLOCKS, MOST_INSTRUCTIONS, MOST_PASSES, MOST_REGISTERS, is_ended};
