//! The peers that a definition needs of a pool, and the engine's seats for a pool that has just these.
//!
//! A definition needs the peers that its prototypes and its objects name, each with the methods of its class's shape. If a pool matches
//! what is needed, the engine can know its peers by their names, the shapes of the needs, and whether they are open.
#![tactic(auto)]

pub mod needs;
pub mod seats;
