//! Programs as data.
//!
//! A contract sees a program as a program of the machine, which this type mirrors field by field, since a program is only read.

use crate::instructions::Instruction;
use g_values::Kind;
use type_tree::TypeId;
use ui_machine::Place;

/// The content that a register may have.
#[derive(Clone, Copy, Debug, Drop)]
pub enum RegisterKind {
    /// Nothing is known of the content.
    Unset,
    /// A value of a kind. Objects may be null.
    Plain(Kind),
    /// An object of a type, not null.
    NotNull(TypeId),
    /// An object of this place, not null.
    At(Place),
    /// An object of this place, or null.
    AtOrNull(Place),
}

/// A sequence of instructions.
#[derive(Debug, Drop)]
pub struct Block {
    /// The content of each register as the block begins.
    pub entry: Vec<RegisterKind>,
    /// How often the instructions except for the last are carried out, if the block says so. They are carried out once if it does not.
    pub repeat: Option<u32>,
    pub code: Vec<Instruction>,
}

/// A handler in bytecode, which begins at its first block.
#[derive(Debug, Drop)]
pub struct Program {
    pub name: String,
    /// The contents of the first registers, in which the arguments are passed.
    pub params: Vec<RegisterKind>,
    /// The number of registers.
    pub registers: usize,
    /// The kind of the result, if the program returns a value.
    pub result: Option<Kind>,
    pub blocks: Vec<Block>,
}
