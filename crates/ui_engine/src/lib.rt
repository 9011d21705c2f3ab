//! Sessions: a definition that runs, with the peers that it calls.
//!
//! A [`Session`] follows the abstract machine: each step of its engine is a step of the machine, the replies of its peers are the only
//! choice, and the transcript of a dispatch is that of a run of the machine.
#![tactic(auto)]

mod asked_kinds;
mod cores;
mod endings;
mod faults;
mod next_due;
mod readings;
mod rooms;
mod session;
mod starts;

pub use cores::Core;
pub use engine_dispatches::{Course, Progress, Reply};
pub use engine_stack::{Frame, Frames};
pub use faults::{SessionFault, StartFault};
pub use instance_tables::Object;
pub use next_due::NextDue;
pub use session::{Finished, Refused, Session, Started};
