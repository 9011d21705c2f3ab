//! Checks the operands of instructions against the kinds of their registers.
//!
//! A register is unset, or it has a kind of values, or objects of a type or of a place. This crate has the look-ups in a definition that
//! typing needs, the tests of which kinds fit which, and the checks of operands. A check returns the rule that is broken if a register does
//! not hold what it must.
#![tactic(auto)]

mod bind_names;
pub mod fits;
pub mod kinds;
pub mod lists;
mod lookups;
pub mod operands;
mod rules;

pub use lookups::Lookups;
pub use rules::{Rule, TypingError, Written};
