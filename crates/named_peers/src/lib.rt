//! The peers that a definition names.
#![tactic(auto)]

mod named_peers;

pub use named_peers::peers;
