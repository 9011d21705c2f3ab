//! The objects whose properties are read.

use param_specs::SpecTable;
use read_parts::entries::ObjectNames;
use type_tree::{TypeId, TypeTree};
use ui_machine::Place;

// An object whose properties are read, with its place and class, the types and their properties, and the names of all objects.
#[derive(Clone, Copy)]
pub(crate) struct Target<'a> {
    pub(crate) types: &'a TypeTree,
    pub(crate) specs: &'a SpecTable,
    pub(crate) objects: &'a ObjectNames<'a>,
    pub(crate) place: Place,
    pub(crate) class: TypeId,
}
