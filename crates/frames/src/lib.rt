//! Frames, which are running programs, and the computations of their instructions on registers.
//!
//! A frame takes the instructions of its program, jumps and writes registers. Eleven instructions touch registers alone: they compute a
//! value from registers and constants. A contract ties each of them to the machine's instruction. The caller writes their results into
//! registers, and counts what registers hold.
#![tactic(auto)]

mod computations;
mod frame;
mod operands;

pub use computations::{MOST_TEXT_BYTES, compute};
pub use frame::Frame;
pub use operands::{copy_values, identity_at, text_at, truth_at, value_at};
