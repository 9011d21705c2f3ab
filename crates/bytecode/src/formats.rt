//! The formats in which definitions are written.

/// The format in which the value of a program is written.
#[derive(Clone, Copy, Debug, PartialEq, Eq)]
pub enum Format {
    /// Format 1: the instructions of each block are carried out once.
    First,
    /// Format 2: a block may say how often its instructions, except for the last, are carried out.
    Second,
}
