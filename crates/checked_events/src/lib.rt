//! Tests of events that a host makes itself against the definition that is to take them.
//!
//! A session requires that what an event names is there and may be asked for, and that what it gives fits, as reading an event line makes
//! sure. [`is_event_of`] tests this for an event that was made without a line. It also tests what else reading makes sure of: texts that are
//! not too long, details that are names of the format, and moments up to the last one that a turn can have.
#![tactic(auto)]

mod emissions;
mod events;
mod givens;
mod objects;
mod readable_events;
mod short_texts;

pub use events::is_event_of;
