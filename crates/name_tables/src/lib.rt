//! Tables of the numbers that names have in classes.
//!
//! A program names a property or a signal, and which one of a class it means depends on the class of the object that it acts on. A table is
//! built once, from everything that classes have. From then on a name is an index into it, at which the number for a class is read.
#![tactic(auto)]

mod name_table;

pub use name_table::{NameId, NameTable};
