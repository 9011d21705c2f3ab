//! Finds what the programs of a definition may start, by the numbers of channels.
//!
//! An instruction is reduced to its trigger: the effect that may start something, and the objects that it may apply to. Triggers with the
//! same key start the same, so this is kept once.
#![tactic(auto)]

mod keys;
mod kind_steps;
mod places_covered;
mod programs;
mod sketched_starts;
mod starts;
mod triggers;

pub use kind_steps::go_after;
pub use places_covered::{covering, is_covered};
pub use programs::{SketchedPrograms, sketched_programs};
