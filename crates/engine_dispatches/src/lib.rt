//! An engine beside a pool of boxed peers: its steps, dispatches and events, in which boxes are asked and closed.
//!
//! The engine knows of each peer its name, its methods, whether it is open, and which object has got it. What the peer counts and keeps is
//! known to its box alone. So the engine's steps are those of the machine over peers where all that is forgotten, and by the law of
//! forgetting they are steps of the machine over the boxes.
#![tactic(auto)]

mod boxes;
mod calls;
mod courses;
mod dispatches;
mod program_steps;
mod quiet_steps;
mod runs;
mod tasks;
mod turns;

pub use courses::{Course, Progress, advance, begin_next};
pub use dispatches::{Reply, begin_dispatch, dispatch};
pub use turns::begin_turn;
