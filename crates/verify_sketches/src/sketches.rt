//! The sketch of a definition's graph by numbers.

use crate::channels::SketchedChannel;
use crate::programs::{SketchedBlock, SketchedStart};
use ui_machine::ProgramId;

/// The graph of a definition by numbers. The contracts see it through `sketch_view`.
#[derive(Debug, Drop)]
pub struct Sketch {
    /// The channels, in the order of the report.
    pub channels: Vec<SketchedChannel>,
    /// The groups of programs that bytecode may connect. Programs that may be connected alike are in one group.
    pub groups: Vec<Vec<ProgramId>>,
    /// The blocks of each program.
    pub programs: Vec<Vec<SketchedBlock>>,
    /// The starts, which are what instructions may start.
    pub starts: Vec<SketchedStart>,
    /// For each place, the numbers of its paired properties.
    pub paired: Vec<Vec<u32>>,
}
