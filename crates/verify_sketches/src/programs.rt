//! The channels and places that programs may start.

/// The channels or places that an instruction may start, by their numbers.
#[derive(Debug, Drop)]
pub enum SketchedStart {
    Nothing,
    /// Any one of these channels.
    Raises(Vec<u32>),
    /// All of these channels, when an object is made.
    Makes(Vec<u32>),
    /// All paired properties of any one of these places.
    Thaws(Vec<u32>),
}

/// A block of a program.
#[derive(Debug, Drop)]
pub struct SketchedBlock {
    /// For each instruction, the number of what it may start.
    pub starts: Vec<u32>,
    /// The number of times that the instructions before the last are taken.
    pub passes: u32,
    /// The numbers of the blocks that may come next.
    pub next: Vec<usize>,
}
