//! The objects that live, with a count of what holds each.
//!
//! Each object has an identity. Identities rise from 1 and each is given once. A table counts how often something holds an object (GObject
//! manual, `g_object_ref`). Objects that nothing holds any more are to be finalised, the lowest identity first. An object that is disposed
//! lets go of what it held and lives on. One that is finalised is disposed and removed. The weak properties that name it become null. An
//! index of which objects name which finds these properties. A contract sees the machine's objects, a list of counts, how many objects may
//! live, and what floats. The laws say that exact counts stay exact.
#![tactic(auto)]

mod bounds;
mod children;
mod error;
mod family;
mod forgetting;
mod ids;
mod instance;
mod instances;
mod laws;
mod mentions;
mod namers;
mod object;
mod object_values;
mod release;
mod table;
mod unheld;
mod weak;

pub use error::{AdoptError, CreateError};
pub use laws::{
    counted_finds, counts_find, create_counts, dispose_counts, disposing_moves, finalise_counts,
    finalising_moves, float_counts, forget_counts, held_lives, hold_counts, join_counts,
    leave_counts, let_go_counts, made_holds_nothing, marks_known, none_counts, sink_counts,
    write_counts, writing_moves,
};
pub use object::Object;
pub use table::Table;
pub use weak::WeakSlots;
