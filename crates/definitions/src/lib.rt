//! Definitions, which a contract sees as definitions of the machine, and their look-ups.
#![tactic(auto)]

mod definition;
mod handler_names;
mod object_entries;
mod parts;
pub mod places;
pub mod programs;
pub mod shapes;
mod signal_names;
pub mod types;

pub use definition::Definition;
pub use object_entries::ObjectEntry;
pub use parts::Parts;
