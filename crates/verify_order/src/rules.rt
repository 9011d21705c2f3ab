//! The rules by which nodes are numbered.

/// The rule that gives the number of a node from those of the nodes that it depends on.
#[derive(Clone, Copy, Debug, PartialEq, Eq)]
pub struct Rule {
    /// Whether these numbers are added. Otherwise the greatest of them is taken.
    pub adds: bool,
    /// The factor by which the sum or the greatest is multiplied.
    pub times: u32,
    /// The number that is added to the product.
    pub more: u64,
}
