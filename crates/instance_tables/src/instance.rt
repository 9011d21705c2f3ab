//! An object together with its hold count.

use crate::object::Object;

/// An object, and how often it is held.
#[derive(Drop)]
pub(crate) struct Instance {
    pub(crate) object: Object,
    pub(crate) mentions: u128,
}
