//! The tasks of a run, each carried out as the machine does it. The exception is the task of a program, which takes an instruction.
#![tactic(auto)]

pub mod binds;
pub mod builds;
pub mod calls;
pub mod children;
pub mod emission;
pub mod events;
pub mod finalisation;
pub mod forward_references;
pub mod notifications;
pub mod programs;
pub mod sets;
pub mod signals;
pub mod sources;
pub mod transfers;
pub mod turns;
