//! A binding to be made, and the transfers that it makes.

use crate::flags::BindingFlags;
use ui_machine::{ObjectId, Slot};

/// A binding to be made from one property to another.
#[derive(Debug, Drop)]
pub struct Binding {
    /// The name by which `unbind` ends it, if it has one. Any text is allowed.
    pub name: Option<String>,
    pub source: ObjectId,
    pub source_slot: Slot,
    pub target: ObjectId,
    pub target_slot: Slot,
    pub flags: BindingFlags,
}

/// A transfer that a binding makes after a notification. `source` is the end that was notified, and its value goes to `target`.
#[derive(Clone, Copy, Debug, PartialEq, Eq)]
pub struct Transfer {
    /// The number of the binding, which is below the greatest `u64`.
    pub number: u64,
    pub source: ObjectId,
    pub source_slot: Slot,
    pub target: ObjectId,
    pub target_slot: Slot,
    /// Whether the value, a boolean, is inverted.
    pub invert: bool,
}
