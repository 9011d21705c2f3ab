//! The number of a type.

ghost use Rattle.std.specs.Prelude.{ℕ, ◌≡◌, ◌<◌, ◌^◌};

use std::marker::Model;

/// The number of a type, which is its index in the tree. A contract sees the number.
#[derive(Clone, Copy, Debug, PartialEq, Eq, PartialOrd, Ord, Hash)]
pub struct TypeId {
    number: u16,
}

impl Model for TypeId {
    ghost Value = { ℕ };

    ghost view = { λ t. t.number };

    ghost inverse = { λ n. record { number = n } };
}

impl TypeId {
    /// Makes the type of this number.
    pub fn new(number: u16) -> Self
        ensures { result ≡ number }
    {
        TypeId { number }
    }

    /// Returns the number, which is the type's index in the tree.
    pub fn index(self) -> usize
        ensures { result ≡ self }
    {
        self.number as usize
    }
}
