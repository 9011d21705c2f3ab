//! A handler that is to be connected.

use ui_machine::{ObjectId, ProgramId, SignalId};

/// A handler that is to be connected (GObject manual, Signals: `g_signal_connect_data`).
#[derive(Debug, Drop)]
pub struct Connection {
    /// The object whose signal it is connected to.
    pub object: ObjectId,
    /// The number of the signal in the list of the object's class. 0 is `notify`.
    pub signal: SignalId,
    /// The detail for which the handler runs, if there is one. For `notify` it is a property's canonical name.
    pub detail: Option<String>,
    /// The program that it runs.
    pub program: ProgramId,
    /// Whether it runs after the class handler (`G_CONNECT_AFTER`).
    pub after: bool,
    /// Whether the program is given the data first and the instance last (`G_CONNECT_SWAPPED`).
    pub swapped: bool,
    /// The object that is passed to the program as data.
    pub data: Option<ObjectId>,
    /// Whether bytecode connects it. Otherwise the builder does.
    pub by_code: bool,
}
