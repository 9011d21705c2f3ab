//! Reads definitions and events from bytes.
//!
//! A definition is the JSON description of an interface. An event is one line that is given to a running interface.
#![tactic(auto)]

mod emit_reading;
mod event_reader;
mod event_reading;
mod limits;
mod reading;

pub use definition_format::{
    Attached, DefinitionFault, DefinitionLimit, Event, EventError, EventFault, Given, GivenValue,
    ReadError, SpecCause, TypeCause,
};
pub use definitions::{Definition, ObjectEntry};
pub use event_reader::EventReader;
pub use event_reading::{MAX_LINE_BYTES, read_event};
pub use named_peers::peers;
pub use read_parts::document::MAX_BYTES;
pub use reading::read_definition;
