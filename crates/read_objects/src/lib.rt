//! Reads the programs, prototypes and objects of a definition from its document, and the bindings between the objects.
#![tactic(auto)]

mod attached;
mod bind_lists;
mod binds;
mod filled;
mod given;
mod objects;
mod peer_names;
mod places;
mod programs;
mod prototypes;
mod targets;

pub use given::reference;
pub use objects::{ReadObjects, read_objects};
pub use peer_names::PeerNames;
pub use places::read_places;
pub use programs::read_programs;
pub use prototypes::{Classes, ReadPrototypes, read_prototypes};
