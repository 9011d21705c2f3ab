//! Errors of adding a type.

ghost use Rattle.std.specs.Prelude.{◌≡◌};
ghost use Rattle.type_tree.specs.declared.error.TypeError.TheVariants.{OutOfMemory};

use crate::type_id::TypeId;
use std::alloc::{AllocError, AllocFailed};

/// A limit of a tree.
#[derive(Clone, Copy, Debug, PartialEq, Eq)]
pub enum TypeLimit {
    /// A tree has at most 256 types.
    Types,
    /// There are at most 16 classes from the root down to any class, both included.
    Depth,
}

/// The reason for which a type is refused. The variants are in the order in which the tests are made.
#[derive(Clone, Copy, Debug, PartialEq, Eq)]
pub enum TypeFault {
    /// The name is not a type name: an ASCII letter or `_`, then at least two letters, digits, `-`, `_` or `+`.
    BadName,
    /// The tree has a type of that name already.
    Duplicate,
    /// A parent, interface or required type is not in the tree, or is of another sort.
    UnknownParent,
    /// The parent is final.
    FinalParent,
    /// One of the interfaces requires this type, and the class would not be one.
    Prerequisite(TypeId),
    /// The tree is full, or the class would be too deep.
    Limit(TypeLimit),
}

/// The error of an addition.
#[derive(Clone, Copy, Debug, PartialEq, Eq)]
pub enum TypeError {
    /// Memory was refused.
    OutOfMemory,
    /// A test refused the type.
    Refused(TypeFault),
}

impl From<AllocError> for TypeError {
    ghost from_gives = { λ _ error. error ≡ OutOfMemory };

    fn from(_error: AllocError) -> TypeError {
        TypeError::OutOfMemory
    }
}

impl<T: Drop> From<AllocFailed<T>> for TypeError {
    ghost from_gives = { λ _ error. error ≡ OutOfMemory };

    fn from(_error: AllocFailed<T>) -> TypeError {
        TypeError::OutOfMemory
    }
}
