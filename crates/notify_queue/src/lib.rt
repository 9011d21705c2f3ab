//! The queue of an object's notifications while the object is frozen.
//!
//! An object counts its freezes. While the count is above zero, each property whose notification is due is queued once, and the thaw that
//! reaches zero takes the whole queue (GObject manual, `g_object_freeze_notify` and `g_object_thaw_notify`). Properties are queued by their
//! slots. A contract sees a count and a list.
#![tactic(auto)]

mod queue;

pub use queue::NotifyQueue;
