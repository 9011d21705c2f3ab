//! Values and objects of a session as JSON, for hosts that read them as text.
//!
//! A value is written as an event gives it, so that a host can send it back; an object is named by its identity. What an object is beside its
//! values is one JSON object: its id, class, parent and children.
#![tactic(auto)]

mod objects;
mod values;

pub use objects::object_text;
pub use values::value_text;
