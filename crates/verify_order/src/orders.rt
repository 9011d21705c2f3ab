//! Sorts the nodes of a graph.

ghost use Rattle.std.specs.Prelude.{◌≡◌, ◌≤◌, length, drop, IfOk};
ghost use Rattle.verify_order.specs.Graphs.{IsGraph};
ghost use Rattle.verify_order.specs.Answers.{Sorts};

use crate::dependencies::Dependencies;
use crate::searches::Search;
use std::alloc::{AllocError, Global};

/// The result of sorting the nodes of a graph.
#[derive(Debug, Drop)]
pub enum Sorted {
    /// All nodes, each after those that it depends on.
    Order(Vec<usize>),
    /// Nodes that each depend on the next one, and the last one on the first.
    Cycle(Vec<usize>),
}

/// Returns all nodes in an order in which each comes once and after those that it depends on, or else a cycle of nodes, each of them once.
///
/// # Errors
///
/// `AllocError` if memory is refused.
pub fn sort(alloc: Global, dependencies: &Dependencies) -> Result<Sorted, AllocError>
    requires { IsGraph dependencies.now }
    ensures { IfOk result (λ sorted. Sorts dependencies.now sorted) }
{
    let mut search = Search::new(alloc, dependencies.node_count())?;
    for root in 0..dependencies.node_count() {
        if let Some(place) = search.visit(dependencies, root)? {
            let nodes = rest_of(alloc, search.path(), place)?;
            return Ok(Sorted::Cycle(nodes));
        }
    }
    Ok(Sorted::Order(search.into_order()))
}

// Returns the entries of a list from index `from` on.
fn rest_of(alloc: Global, nodes: &[usize], from: usize) -> Result<Vec<usize>, AllocError>
    requires { from ≤ length nodes.now }
    ensures { IfOk result (λ rest. rest.items ≡ drop from nodes.now) }
{
    let mut rest = Vec::new(alloc);
    rest.extend_from_slice(&nodes[from..])?;
    Ok(rest)
}
