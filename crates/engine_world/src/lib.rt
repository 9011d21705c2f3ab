//! The state that a run changes, and the operations on it that tasks and instructions share.
//!
//! An [`engine::Engine`] has a world and the tasks that are left. Contracts see it as a configuration of the abstract machine.
#![tactic(auto)]

pub mod arguments;
pub mod builder;
pub mod children;
pub mod closings;
pub mod connections;
pub mod construct_steps;
pub mod counted_steps;
pub mod emissions;
pub mod engine;
pub mod given;
pub mod lines;
pub mod object_peers;
pub mod objects;
pub mod places;
pub mod program_frames;
pub mod properties;
pub mod references;
pub mod refusals;
pub mod reserves;
pub mod seats;
pub mod sources;
pub mod transformations;
pub mod weak_slots;
pub mod world;
