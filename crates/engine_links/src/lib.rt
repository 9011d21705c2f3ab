//! Linked programs: the meanings of the names in a definition's programs, found once, as a session starts.
//!
//! A program names properties, signals and methods, bindings, other programs, objects and prototypes. Which property or signal of a class a
//! name means depends on the class of the object that the instruction acts on, and which method depends on the shape of its peer. So these
//! names are linked to indexes in tables of names, as are those of bindings, of which several may have one name. The other names have one
//! meaning.
#![tactic(auto)]

mod binding_rows;
mod class_handlers;
mod class_names;
mod link;
mod links;
mod method_rows;
mod named_rows;
mod programs;
mod tables;

pub use link::Link;
pub use links::Links;
pub use name_tables::NameId;
