//! Objects and prototypes of a definition, as look-ups return them.

use definition_format::{Attached, GivenValue};
use type_tree::TypeId;
use ui_machine::Place;

/// An object or a prototype of a definition: its id, its class, its parent, if it is a child, the names of its peers, the given values in
/// the given order, and its signals in document order. An object has at most one peer. A prototype has neither a parent nor signals.
#[derive(Clone, Copy)]
pub struct ObjectEntry<'a> {
    pub id: &'a str,
    pub class: TypeId,
    /// Whether it is a prototype, from which objects are made later.
    pub is_prototype: bool,
    /// The place of its parent, if it is a child.
    pub parent: Option<Place>,
    pub peers: &'a [String],
    pub given: &'a [GivenValue],
    pub signals: &'a [Attached],
}
