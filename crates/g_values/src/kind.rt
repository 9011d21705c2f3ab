//! Kinds of values.

ghost use Rattle.std.specs.Prelude.{◌↔◌, IsTrue};
ghost use Rattle.g_values.specs.View.{IsKnown};

use type_tree::{TypeId, TypeTree};

/// The kind of value that a property, an argument or a result may hold.
#[derive(Clone, Copy, Debug, PartialEq, Eq)]
pub enum Kind {
    Bool,
    /// A signed integer of 32 bits.
    Int,
    /// An unsigned integer of 32 bits.
    UInt,
    /// A signed integer of 64 bits.
    Int64,
    /// An unsigned integer of 64 bits.
    UInt64,
    /// A text or null.
    Text,
    /// A member of an enum.
    Enum(TypeId),
    /// A set of bits of a flags type.
    Flags(TypeId),
    /// An object of a class or interface, or null.
    Object(TypeId),
}

/// Returns whether the type in an enum kind is an enum of the tree, and the type in a flags kind a flags type. Returns true for other
/// kinds.
pub fn is_known(tree: &TypeTree, kind: Kind) -> bool
    ensures { IsTrue result ↔ IsKnown tree.now kind }
{
    match kind {
        Kind::Enum(t) => tree.is_enum(t),
        Kind::Flags(t) => tree.is_flags(t),
        Kind::Bool | Kind::Int | Kind::UInt | Kind::Int64 | Kind::UInt64 => true,
        Kind::Text | Kind::Object(_) => true,
    }
}
