//! Events, and the requests that they make of objects.

use crate::objects::Given;
use std::rc::RcStr;
use ui_machine::{Place, SignalId, Slot};

/// A request to an object of the builder.
#[derive(Debug, Drop)]
pub enum Request {
    /// Sets a property of an object.
    Set {
        place: Place,
        slot: Slot,
        given: Given,
    },
    /// Reads a property of an object.
    Get {
        place: Place,
        slot: Slot,
    },
    /// Makes the builder let go of an object.
    Release {
        place: Place,
    },
    /// Makes an object emit a signal.
    Emit {
        place: Place,
        /// The number of the signal in the list of the object's class, where 0 is `notify`.
        signal: SignalId,
        /// The arguments, one for each parameter of the signal, in order.
        args: Vec<Given>,
        /// The detail as it is written, only for a signal that takes details. The emission shares the text.
        detail: Option<RcStr>,
    },
}

/// An event, which is one line of the event file.
#[derive(Debug, Drop)]
pub enum Event {
    Request(Request),
    /// A turn of the main loop, at this moment in milliseconds.
    Turn(u64),
}
