//! The numbers that a verification gives.

use ui_machine::ProgramId;

/// The bound on the steps of a source's dispatch.
#[derive(Clone, Copy, Debug, PartialEq, Eq)]
pub struct SourceBound {
    pub program: ProgramId,
    pub bound: u64,
}

/// The numbers that a verification gives. The contracts see them through `AreTold`.
#[derive(Debug, Drop)]
pub struct Numbers {
    /// The rank of each busy channel's node, in the order of the report. The node of an idle channel has rank 0.
    pub ranks: Vec<u32>,
    /// The bound on the steps of a dispatch that begins at each busy channel, in the same order.
    pub bounds: Vec<u64>,
    /// The bound on the steps of a dispatch that begins at an idle channel.
    pub idle: u64,
    /// The bound on the steps of the build.
    pub build: u64,
    /// The programs of sources with their bounds, in document order.
    pub sources: Vec<SourceBound>,
    /// The greatest number of frames that are needed at a time.
    pub depth: u32,
}
