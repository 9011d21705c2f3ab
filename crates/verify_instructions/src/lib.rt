//! Types instructions: finds the first rule that one breaks, or the kinds of the registers after it.
//!
//! A program is typed block by block, each from the kinds that its registers are declared to have at its beginning. Nothing runs. The rules
//! are those of the law on typing, and the contracts say that the code gives the same answers.
#![tactic(auto)]

mod arguments;
mod blocks;
mod calls;
mod computations;
mod controls;
mod instructions;
mod objects;
mod properties;
mod signals;
pub mod signatures;
mod sources;

pub use blocks::{BrokenRule, IllTyped, block_fault, program_fault, typing_fault};
pub use instructions::typed;
