//! The sources of a main context, and the order of their turns.
//!
//! A source runs a program again and again. An idle is always ready, a timeout is ready once its due moment has come (GLib manual, The Main
//! Event Loop). An iteration has a moment and takes the ready sources with the least priority number, in order of attachment. Programs are
//! given by number, data objects by identity, moments and intervals in milliseconds. A contract sees a list of sources, the number of the
//! last one attached and the latest moment.
#![tactic(auto)]

mod batch;
mod context;
mod fault;
mod places;
mod source;
mod sources;

pub use batch::Batch;
pub use context::{Context, MAX_SOURCES};
pub use fault::{AttachError, TurnError};
pub use source::Due;
