//! Orders things that depend on one another, and numbers them in that order.
//!
//! Things are nodes of a graph and are named by numbers. Each has edges to those that it depends on. [`sort`] finds an order in which each node
//! comes after those, or a cycle. [`numbers`] computes a number for each node by a rule from those of the nodes that it depends on: a rule takes
//! the sum of these numbers or the greatest of them, multiplies it, and adds something; no number exceeds a limit. [`ranks`] counts how many
//! nodes come before a node on the longest chain that ends in it, of those that count. All three take time proportional to the number of nodes
//! and edges.
#![tactic(auto)]

mod chains;
mod dependencies;
mod orders;
mod passes;
mod rules;
mod searches;

pub use chains::ranks;
pub use dependencies::Dependencies;
pub use orders::{Sorted, sort};
pub use passes::numbers;
pub use rules::Rule;
