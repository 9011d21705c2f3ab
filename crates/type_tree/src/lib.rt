//! The tree of types (classes, interfaces, enums and flags), and the rules for names of types, properties and signals.
//!
//! A contract sees a tree as a list of types, the pure records of the abstract machine, and a `TypeId` as an index into that list.
#![tactic(auto)]

mod adding;
mod entry;
mod enum_members;
mod error;
mod flags_members;
mod member;
mod member_name;
mod name;
mod nick;
mod tree;
mod type_id;
mod words;

pub use entry::{TypeFlags, TypeSort};
pub use error::{TypeError, TypeFault, TypeLimit};
pub use member::{EnumMember, FlagsMember};
pub use member_name::{canonical_name, has_canonical_bytes, is_property_name, is_spelling};
pub use name::is_type_name;
pub use tree::{MOST_DEPTH, MOST_TYPES, TypeTree};
pub use type_id::TypeId;
