//! Reads programs from JSON.
//!
//! A program is read in three steps. First comes the outline, which is all but the instructions: the name, the kinds of the parameters and
//! registers, the number of registers and the kind of the result. Then come the instructions, each an array of a word and its operands. The
//! shape of the blocks is tested last: which block leads where, and whether any limit is exceeded.

mod code;
mod instructions;
mod jump_rows;
mod kind_words;
mod names;
mod object_rows;
mod operand_lists;
mod operand_shapes;
mod operand_words;
mod outline;
mod outline_parts;
mod outlines;
mod programs;
mod register_kinds;
mod register_rows;
mod scope;
mod signal_rows;
mod source_rows;

pub use instructions::read_instruction;
pub use names::Names;
pub use outlines::check_outline;
pub use programs::{read_json_program, read_program};
pub use scope::Scope;
