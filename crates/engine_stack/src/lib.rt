//! The stack of what a run has to do, in memory that is reserved once.
//!
//! On the stack lie frames, each of which is what is left of a program, of an emission or of a construction, and the tasks that lie between
//! them. A contract sees the machine's agenda. The most frames and the most values of each are fixed when the stack is created, and room is
//! reserved for them. After that no call asks for memory.
#![tactic(auto)]

mod construction_frames;
mod emission_frames;
mod first_constructions;
mod first_emissions;
mod plain_frames;
mod stacks;
mod stocks;
mod task;

pub use construction_frames::ConstructionFrame;
pub use emission_frames::EmissionFrame;
pub use plain_frames::Frame;
pub use stacks::Frames;
pub use stocks::Stock;
pub use task::{
    ConstructStep, ConstructSteps, DueCall, ForwardReference, ForwardReferences, NewEmission,
    Slots, Task, Transfers,
};
