//! The graph of a definition by numbers.
//!
//! A channel is named by its number in the report, and a program, a group or a start by its number in its list. What instructions may start
//! is kept once for all instructions that may start the same, and so are programs that bytecode may connect alike.
#![tactic(auto)]

mod channels;
mod programs;
mod sketches;

pub use channels::SketchedChannel;
pub use programs::{SketchedBlock, SketchedStart};
pub use sketches::Sketch;
