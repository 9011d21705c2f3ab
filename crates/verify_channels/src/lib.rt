//! Sketches the graph of a definition by numbers: what runs at each channel, and what programs may start.
//!
//! The meaning of a handler's signal and detail is looked up once for each place. Programs that bytecode may connect alike are one group.
#![tactic(auto)]

mod attached_handlers;
mod channels;
mod class_handlers;
mod connection_keys;
mod connections;
mod meanings;
mod signal_lists;
mod sketches;
mod transfers;

pub use channels::{RaisedChannels, raised_channels};
pub use connections::Connects;
pub use sketches::sketch;
