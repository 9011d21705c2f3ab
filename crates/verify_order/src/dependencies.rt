//! The graph of what depends on what.

ghost use Rattle.std.specs.Prelude.{◌≡◌, ◌<◌, ◌≤◌, ◌++◌, ◌∷◌, [], length, slice_get, slice_index, Some, OnOk, OnErr};
ghost use Rattle.verify_order.specs.Kept.{AreStarts, lists_in, with_last};

use std::alloc::{AllocError, Global};
use std::marker::Model;

/// A graph of nodes, which are numbers. Each has a list of the nodes that it depends on, and the contracts see the list of these lists.
#[derive(Debug, Drop)]
pub struct Dependencies {
    // For each node, where its edges begin.
    starts: Vec<usize>,
    // The nodes that edges lead to, node after node.
    targets: Vec<u32>,
}

impl Model for Dependencies {
    ghost use Rattle.verify_order.specs.Graphs.{Graph};
    ghost use Rattle.verify_order.specs.Kept.{AreStarts, lists_in};

    ghost Value = { Graph };

    ghost view = { λ d. lists_in d.starts.items d.targets.items };

    ghost invariant = { λ d. AreStarts d.starts.items d.targets.items };
}

impl Dependencies {
    /// Creates a graph without nodes. It takes no memory.
    pub fn new(alloc: Global) -> Dependencies
        ensures { result ≡ [] }
    {
        Dependencies {
            starts: Vec::new(alloc),
            targets: Vec::new(alloc),
        }
    }

    /// Returns the number of nodes.
    pub fn node_count(&self) -> usize
        ensures { result ≡ length self.now }
    {
        self.starts.len()
    }

    /// Adds the node with the next number, which depends on nothing so far.
    ///
    /// # Errors
    ///
    /// `AllocError` if memory is refused. Nothing is changed then.
    pub fn add_node(&mut self) -> Result<(), AllocError>
        ensures ok { OnOk result (self.new ≡ self.old ++ [] ∷ []) }
        ensures err { OnErr result (self.new ≡ self.old) }
    {
        self.starts.push(self.targets.len())?;
        Ok(())
    }

    /// Adds an edge, so that the node that was added last also depends on `to`.
    ///
    /// # Errors
    ///
    /// `AllocError` if memory is refused. Nothing is changed then.
    pub fn add_edge(&mut self, to: u32) -> Result<(), AllocError>
        requires { 0 < length self.old }
        ensures ok { OnOk result (self.new ≡ with_last self.old to) }
        ensures err { OnErr result (self.new ≡ self.old) }
    {
        self.targets.push(to)?;
        Ok(())
    }

    /// Returns the nodes that a node depends on.
    pub fn edges(&self, node: usize) -> &[u32]
        requires { node < length self.now }
        ensures { slice_get self.now node ≡ Some result.now }
    {
        list_at(self.starts.as_slice(), self.targets.as_slice(), node)
    }
}

// Returns list `number` of those that begin at the places `starts` of `all`.
fn list_at<'a>(starts: &[usize], all: &'a [u32], number: usize) -> &'a [u32]
    requires places { AreStarts starts.now all.now }
    requires inside { number < length starts.now }
    ensures { slice_get (lists_in starts.now all.now) number ≡ Some result.now }
{
    let start = starts[number];
    if number + 1 >= starts.len() {
        return &all[start..];
    }
    let end = starts[number + 1];
    &all[start..end]
}
