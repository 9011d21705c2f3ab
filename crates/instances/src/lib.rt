//! A heap: the objects of a host together with the pool of their peers.
//!
//! A [`Heap`] is for a host that runs no session. It makes objects with the defaults of their classes, gives each the peer that the host
//! names, calls peers through their objects, and closes them as the objects are disposed. At the end it hands the pool back.
#![tactic(auto)]

mod changes;
mod classes;
mod closings;
mod creations;
mod disposals;
mod endings;
mod families;
mod heaps;
mod peers;
mod reads;

pub use classes::Classes;
pub use heaps::Heap;
pub use instance_tables::{
    AdoptError, CreateError, Object, Table, WeakSlots, counted_finds, counts_find, create_counts,
    dispose_counts, disposing_moves, finalise_counts, finalising_moves, float_counts,
    forget_counts, held_lives, hold_counts, join_counts, leave_counts, let_go_counts,
    made_holds_nothing, marks_known, none_counts, sink_counts, write_counts, writing_moves,
};
