//! The words that all layers share, and, in `specs/`, the abstract machine that they implement.
//!
//! Every other crate's contract is an equation with a part of that machine. The code here is small: identities, places and
//! channels, the limits that a definition declares, the arms by which a machine can be stuck, and the devices that bytes come
//! from and go to.
#![tactic(auto)]

mod arm;
mod device;
mod ids;
mod limits;

pub use arm::{Arm, Halt};
pub use device::{Device, DeviceFault, Feed, Sink};
pub use ids::{Channel, Entry, Member, ObjectId, Place, ProgramId, SignalId, Slot};
pub use limits::{LEAST_OBJECTS, LimitField, Limits, LimitsError, MOST_HANDLERS, MOST_OBJECTS};
