//! Reads the members of types from a definition's document: properties with their flags, ranges and defaults, and signals.
#![tactic(auto)]

pub mod defaults;
pub mod drafts;
pub mod properties;
mod property_flags;
pub mod ranges;
pub mod signal_flags;
pub mod signals;

pub use defaults::value_of;
pub use drafts::Draft;
