//! The parts of a definition's document, with their paths: members and entries, names, numbers and kinds, and lists that are read entry by
//! entry.
#![tactic(auto)]

pub mod document;
pub mod entries;
pub mod kinds;
pub mod names;
pub mod numbers;
pub mod reads;
