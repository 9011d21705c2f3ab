//! Laws of the peers that a session and a run leave in their pool.
#![tactic(auto)]

pub mod peer_names;
pub mod run_peers;
pub mod session_peers;
