//! The reasons why a line of the event file is no event.

ghost use Rattle.std.specs.Prelude.{◌≡◌};
ghost use Rattle.definition_format.specs.declared.event_faults.EventError.TheVariants.{OutOfMemory};

use std::alloc::{AllocError, AllocFailed};

/// The reason why a line of the event file is no event of a definition, in the order in which the tests are made.
#[derive(Debug, Drop)]
pub enum EventFault {
    /// The line has more than 65,536 bytes.
    TooLong,
    /// The line is not UTF-8, or not JSON.
    NotJson,
    /// The value is no object with exactly one member that is `set` with an id, a name and a value, `get` with an id and a name, `release`
    /// with an id, `emit` with an id, a name, a list of values and perhaps a detail, or `turn` with a number. Or there are not as many
    /// values as the signal has parameters.
    Shape,
    /// No object has this id, the object has no property or signal of this name, no object has the id that a value names, or the signal
    /// takes no detail. If there are several, it is the first from the left. No event emits `notify`.
    Unknown(String),
    /// The property that a `get` names cannot be read.
    NotReadable,
    /// The property that a `set` names cannot be written.
    NotWritable,
    /// The property that a `set` names is only set when its object is made.
    ConstructOnly,
    /// A value is not of the kind of its property or parameter, or the number of a turn is no moment.
    ValueFault,
}

/// The reason why reading a line gave no event.
#[derive(Debug, Drop)]
pub enum EventError {
    /// Memory was refused.
    OutOfMemory,
    /// The line is no event.
    Refused(EventFault),
}

impl From<AllocError> for EventError {
    ghost from_gives = { λ _ error. error ≡ OutOfMemory };

    fn from(_error: AllocError) -> EventError {
        EventError::OutOfMemory
    }
}

impl<T: Drop> From<AllocFailed<T>> for EventError {
    ghost from_gives = { λ _ error. error ≡ OutOfMemory };

    fn from(_error: AllocFailed<T>) -> EventError {
        EventError::OutOfMemory
    }
}
