//! The bindings between properties, in document order.
//!
//! A binding copies its source property into its target property when the source is notified, and if it is bidirectional also the other way
//! (GObject manual, GBinding). While it sets a property, it ignores notifications. It ends by its name or with one of its objects. Objects
//! are given by identity, properties by slot, bindings by number. A contract sees a list of bindings and the number of the next one.
#![tactic(auto)]

mod binding;
mod bound;
mod due;
mod fault;
mod flags;
mod list;
mod listing;
mod listings;
mod names;
mod rising;
mod spare_lists;

pub use binding::{Binding, Transfer};
pub use due::{DueTransfer, DueTransfers};
pub use fault::BindError;
pub use flags::BindingFlags;
pub use list::Bindings;
