//! The turns of an emission.

use ui_machine::{ObjectId, ProgramId};

/// A turn of an emission, which says what runs.
#[derive(Clone, Copy, Debug, PartialEq, Eq)]
pub enum Turn {
    /// The class handler, a program.
    Class(ProgramId),
    /// A connected handler.
    Handler {
        /// The program that it runs.
        program: ProgramId,
        /// Whether the program is given the data first and the instance last.
        swapped: bool,
        /// The data, if there is some.
        arg: Option<ObjectId>,
    },
    /// The transfers of all bindings that the notification concerns.
    Transfers,
}
