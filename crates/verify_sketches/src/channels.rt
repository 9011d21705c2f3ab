//! The programs and bindings that run at channels.

use ui_machine::ProgramId;

/// The programs and bindings that run at a channel, and the channel with which it shares a node.
#[derive(Debug, Drop)]
pub struct SketchedChannel {
    /// Whether an emission begins at the channel. None does at a construction.
    pub emits: bool,
    /// The program of the class handler.
    pub class_handler: Option<ProgramId>,
    /// The number of times that the class handler runs.
    pub stages: u32,
    /// The programs of the objects' handlers, or for a construction those of its classes.
    pub handlers: Vec<ProgramId>,
    /// The numbers of the groups of programs that bytecode may connect.
    pub groups: Vec<u32>,
    /// The number of bindings that lead one way from the channel.
    pub transfers: u32,
    /// The numbers of the targets of these bindings that are channels.
    pub targets: Vec<u32>,
    /// The end of its pair that is first in the report, or the channel itself if it is in no pair.
    pub first: u32,
    /// The other end of its pair.
    pub other: Option<u32>,
}
