//! The numbers and types that the instructions of a program may name.

use type_tree::TypeTree;

/// The register and block numbers that the instructions of a program may use, and the types that they may name.
#[derive(Clone, Copy)]
pub struct Scope<'a> {
    pub types: &'a TypeTree,
    /// The number of registers of the program.
    pub registers: usize,
    /// The number of blocks of the program.
    pub blocks: usize,
}
