//! Computes the ranks, costs and depths of a definition's graph from its sketch, or finds a cycle.
//!
//! Each part of a sketch becomes a node: a channel as it is raised, its emission, a program, a block, a start. A node depends on those that
//! it may begin. The nodes are put in order, and their numbers are computed in one pass over this order. The laws say that these numbers are
//! those of the graph, and that a cycle of nodes is one of channels.
#![tactic(auto)]

mod block_nodes;
mod channel_nodes;
mod cycle_links;
pub mod laws;
mod layouts;
mod links;
mod node_values;
mod nodes;
mod program_nodes;
mod reckonings;

pub use cycle_links::SketchedLink;
pub use layouts::Layout;
pub use node_values::{channel_values, program_value};
pub use reckonings::{NodeNumbers, Reckoned, reckon};
