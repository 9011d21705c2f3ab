//! The names that are in scope while a program is read.

use bytecode::Format;
use std::collections::BTreeMap;
use type_tree::TypeTree;
use ui_machine::Place;

/// The format that a program is written in, and the types and the ids that its kinds may name.
#[derive(Clone, Copy)]
pub struct Names<'a> {
    pub format: Format,
    pub types: &'a TypeTree,
    /// The place of each id of an object or prototype.
    pub places: &'a BTreeMap<String, Place>,
}
