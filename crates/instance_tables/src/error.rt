//! Errors of making an object and of making it a child.

use thiserror::Error;

/// The reason for which no object was made.
#[derive(Clone, Copy, Debug, Drop, Error, PartialEq, Eq)]
pub enum CreateError {
    #[error("as many objects live as may")]
    ObjectLimit,
    #[error("out of memory")]
    OutOfMemory,
}

/// The reason for which an object did not become another's child.
#[derive(Clone, Copy, Debug, Drop, Error, PartialEq, Eq)]
pub enum AdoptError {
    #[error("one of them does not live")]
    NotLiving,
    #[error("it has a parent, or is the parent itself")]
    HasParent,
    #[error("the parent has as many children as may be")]
    ChildLimit,
    #[error("out of memory")]
    OutOfMemory,
}
