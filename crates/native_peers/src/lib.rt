//! Peers, which are objects of the host that an object of a class with a shape calls.
//!
//! A peer is a box that the host hands in under a name. It has a shape, which is a list of methods, and is open until it is closed. A
//! contract sees it by its state: its shape, whether it is open, how often it was called and how often it faulted, and a list of values
//! that only its own implementation explains. Each implementation gives a relation that says what the peer may answer in a state and which
//! state comes next. A pool is a list of names and boxes in the order in which they were added. Code that holds a session is generic over
//! its peers ([`Peers`]): the peers of a pool, or a single placeholder ([`StandIn`]), or none.
#![tactic(auto)]

mod entries;
mod faults;
mod kinds;
mod lone_peers;
mod members;
mod mismatches;
mod needs;
mod peers;
mod pooled_peers;
mod pools;
mod serials;
mod shapes;
mod stand_ins;
mod vacancies;

pub use faults::{AddFault, MatchFault, NotAdded, PeerFault};
pub use needs::Need;
pub use peer_shapes::{Method, Shape};
pub use peers::Peer;
pub use pooled_peers::Peers;
pub use pools::PeerPool;
pub use shapes::is_same_shape;
pub use stand_ins::StandIn;
pub use vacancies::Vacant;
