//! The instructions of programs, each carried out as the machine does it.
#![tactic(auto)]

pub mod accumulation;
pub mod calls;
pub mod connects;
pub mod details;
pub mod emits;
pub mod execution;
pub mod jumps;
pub mod matched_handlers;
pub mod new_objects;
pub mod objects;
pub mod operands;
pub mod properties;
pub mod registers;
pub mod returns;
pub mod sources;
pub mod stops;
pub mod unbinds;
