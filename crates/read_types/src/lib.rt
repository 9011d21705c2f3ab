//! Reads the types of a definition from its document: enums, flags types, interfaces and classes, with their properties, their signals and
//! the programs and shapes that they name. Reads the shapes as well.
#![tactic(auto)]

mod ancestry;
mod by_type;
mod class_drafts;
mod class_handlers;
mod class_shapes;
mod classes;
mod constructed;
mod enum_drafts;
mod enums;
mod handler_drafts;
mod implement_drafts;
mod implements;
mod interfaces;
mod overrides;
mod own_signals;
mod shapes;
mod signal_names;
mod types;

pub use class_drafts::ClassDraft;
pub use classes::read_classes;
pub use enums::{read_enums, read_flags_types};
pub use interfaces::read_interfaces;
pub use read_members::{Draft, value_of};
pub use shapes::read_shapes;
