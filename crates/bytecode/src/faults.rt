//! The faults for which a program is refused.

use crate::instructions::BlockNumber;

/// A limit of programs that is exceeded.
#[derive(Clone, Copy, Debug, PartialEq, Eq)]
pub enum ProgramLimit {
    /// More than 32 registers.
    Registers,
    /// More than 64 blocks.
    Blocks,
    /// More than 512 instructions in all its blocks together.
    Instructions,
}

/// The reason for which a value denotes no program.
#[derive(Clone, Copy, Debug, PartialEq, Eq)]
pub enum ProgramFault {
    /// The entry with this number in this block's code is no instruction, or follows the instruction that ends the block.
    BadInstruction(BlockNumber, usize),
    /// This block leads to itself or to an earlier one.
    BackwardJump(BlockNumber),
    /// This block does not end with a jump or a return.
    NoReturn(BlockNumber),
    /// A limit is exceeded.
    Limit(ProgramLimit),
    /// This block is repeated other than 1 to 65,535 times, or is repeated and does not end with a jump.
    BadRepeat(BlockNumber),
}
