//! Definitions, events and refusals as data, with specs that say what the bytes of a definition or of an event line denote.
//!
//! The specs are functions of the bytes. The crates that read have them as their contracts, and the laws about reading are proved of them
//! alone.
#![tactic(auto)]

mod event_faults;
mod events;
mod fault_texts;
mod faults;
mod objects;
mod paths;

pub use event_faults::{EventError, EventFault};
pub use events::{Event, Request};
pub use fault_texts::printed;
pub use faults::{DefinitionFault, DefinitionLimit, ReadError, SpecCause, TypeCause};
pub use objects::{Attached, Bind, Given, GivenValue, ObjectBody, PrototypeBody};
pub use paths::Path;
