//! Laws of steps: whatever a step does, what is good stays good, so that no run of an accepted definition is ever stuck and each dispatch keeps
//! within its bound.
#![tactic(auto)]

pub mod instructions;
pub mod kept_worlds;
pub mod sessions;
pub mod tasks;
