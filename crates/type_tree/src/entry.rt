//! The part of a type that a tree stores beside its name.

ghost use Rattle.std.specs.Prelude.{◌≡◌, ◌↔◌, ℕ, List, MatchOption, false, map, option_map, pos, true, IsTrue};
ghost use Rattle.ui_machine.specs.Definition.Types.{enum, flags};
ghost use Rattle.ui_machine.specs.Rules.Ancestry.{implemented};
ghost use Rattle.ui_machine.specs.Rules.Transform.{has_number, known_bits};
ghost use Rattle.type_tree.specs.Entry.{type_of, enum_member, flags_member};
ghost use Rattle.type_tree.specs.Naming.{number_called};

use crate::enum_members::EnumMembers;
use crate::flags_members::FlagsMembers;
use crate::member::{EnumMember, FlagsMember};
use crate::type_id::TypeId;

/// The restrictions on the use of a class.
#[derive(Clone, Copy, Debug, PartialEq, Eq)]
pub struct TypeFlags {
    /// Whether the class can't have instances.
    pub is_abstract: bool,
    /// Whether the class can't have children.
    pub is_final: bool,
}

/// A type without its name.
#[derive(Drop)]
pub enum TypeEntry {
    Class(ClassEntry),
    Interface(Vec<TypeId>),
    Enum(EnumMembers),
    Flags(FlagsMembers),
}

/// A class without its name.
#[derive(Drop)]
pub struct ClassEntry {
    pub parent: Option<TypeId>,
    pub flags: TypeFlags,
    pub interfaces: Vec<TypeId>,
}

/// The sorts of types.
#[derive(Clone, Copy, Debug, PartialEq, Eq)]
pub enum TypeSort {
    Class,
    Interface,
    Enum,
    Flags,
}

impl TypeFlags {
    /// No restrictions.
    pub const NONE: TypeFlags = TypeFlags {
        is_abstract: false,
        is_final: false,
    };
}

impl TypeEntry {
    /// Returns the parent of a class. Returns `None` for the root and for types that are not classes.
    pub fn parent(&self) -> Option<TypeId>
        ensures { (name : List ℕ) → result ≡ (type_of name self.now).parent }
    {
        match self {
            TypeEntry::Class(class) => class.parent,
            TypeEntry::Interface(_) => None,
            TypeEntry::Enum(_) => None,
            TypeEntry::Flags(_) => None,
        }
    }

    /// Returns the interfaces that a class implements, or the types that an interface requires.
    pub fn interfaces(&self) -> &[TypeId]
        ensures { (name : List ℕ) → result.now ≡ (type_of name self.now).interfaces }
    {
        match self {
            TypeEntry::Class(class) => class.interfaces.as_slice(),
            TypeEntry::Interface(required) => required.as_slice(),
            TypeEntry::Enum(_) => &[],
            TypeEntry::Flags(_) => &[],
        }
    }

    /// Returns the interfaces that a class implements. Empty for types that are not classes.
    pub fn implemented(&self) -> &[TypeId]
        ensures { (name : List ℕ) → result.now ≡ implemented (type_of name self.now).sort (type_of name self.now).interfaces }
    {
        match self {
            TypeEntry::Class(class) => class.interfaces.as_slice(),
            TypeEntry::Interface(_) => &[],
            TypeEntry::Enum(_) => &[],
            TypeEntry::Flags(_) => &[],
        }
    }

    /// Returns the restrictions on the use of a class, and `NONE` for types that are not classes.
    pub fn flags(&self) -> TypeFlags
        ensures is_abstract { (name : List ℕ) → result.is_abstract ≡ (type_of name self.now).is_abstract }
        ensures is_final { (name : List ℕ) → result.is_final ≡ (type_of name self.now).is_final }
    {
        match self {
            TypeEntry::Class(class) => class.flags,
            TypeEntry::Interface(_) => TypeFlags::NONE,
            TypeEntry::Enum(_) => TypeFlags::NONE,
            TypeEntry::Flags(_) => TypeFlags::NONE,
        }
    }

    /// Returns the members of an enum. Empty for other types.
    pub fn enum_members(&self) -> &[EnumMember]
        ensures { (name : List ℕ) → (type_of name self.now).sort ≡ enum → map enum_member result.now ≡ (type_of name self.now).members }
    {
        match self {
            TypeEntry::Enum(members) => members.as_slice(),
            TypeEntry::Class(_) => &[],
            TypeEntry::Interface(_) => &[],
            TypeEntry::Flags(_) => &[],
        }
    }

    /// Returns the members of a flags type. Empty for other types.
    pub fn flags_members(&self) -> &[FlagsMember]
        ensures { (name : List ℕ) → (type_of name self.now).sort ≡ flags → map flags_member result.now ≡ (type_of name self.now).members }
    {
        match self {
            TypeEntry::Flags(members) => members.as_slice(),
            TypeEntry::Class(_) => &[],
            TypeEntry::Interface(_) => &[],
            TypeEntry::Enum(_) => &[],
        }
    }

    /// Returns whether a member of an enum has this number.
    pub fn has_number(&self, number: i128) -> bool
        ensures { (name : List ℕ) → (type_of name self.now).sort ≡ enum → result ≡ has_number (type_of name self.now).members number }
    {
        match self {
            TypeEntry::Enum(members) => members.has_number(number),
            TypeEntry::Class(_) => false,
            TypeEntry::Interface(_) => false,
            TypeEntry::Flags(_) => false,
        }
    }

    /// Returns the number as an `i32` if a member of the enum has it.
    pub fn member_number(&self, number: i128) -> Option<i32>
        ensures { (name : List ℕ) → (type_of name self.now).sort ≡ enum → MatchOption result (has_number (type_of name self.now).members number ≡ false)
            (λ n. (n ≡ number) × (has_number (type_of name self.now).members number ≡ true)) }
    {
        match self {
            TypeEntry::Enum(members) => members.member_number(number),
            TypeEntry::Class(_) => None,
            TypeEntry::Interface(_) => None,
            TypeEntry::Flags(_) => None,
        }
    }

    /// Returns the number of the enum member with this name, or else with this nick.
    pub fn number_called(&self, word: &str) -> Option<i32>
        ensures { (name : List ℕ) → (type_of name self.now).sort ≡ enum → result ≡ number_called (type_of name self.now).members word.now }
    {
        match self {
            TypeEntry::Enum(members) => members.number_called(word),
            TypeEntry::Class(_) => None,
            TypeEntry::Interface(_) => None,
            TypeEntry::Flags(_) => None,
        }
    }

    /// Returns the bits of the flags member with this name, or else with this nick.
    pub fn bits_called(&self, word: &[u8]) -> Option<u32>
        ensures { (name : List ℕ) → (type_of name self.now).sort ≡ flags → option_map pos result ≡ number_called (type_of name self.now).members word.now }
    {
        match self {
            TypeEntry::Flags(members) => members.bits_called(word),
            TypeEntry::Class(_) => None,
            TypeEntry::Interface(_) => None,
            TypeEntry::Enum(_) => None,
        }
    }

    /// Returns the union of the bits of all members of a flags type, and 0 for other types.
    pub fn known_bits(&self) -> u32
        ensures { (name : List ℕ) → (type_of name self.now).sort ≡ flags → result ≡ known_bits (type_of name self.now).members }
    {
        match self {
            TypeEntry::Flags(members) => members.known_bits(),
            TypeEntry::Class(_) => 0,
            TypeEntry::Interface(_) => 0,
            TypeEntry::Enum(_) => 0,
        }
    }

    /// Returns whether the type is an enum.
    pub fn is_enum(&self) -> bool
        ensures { (name : List ℕ) → IsTrue result ↔ ((type_of name self.now).sort ≡ enum) }
    {
        match self {
            TypeEntry::Enum(_) => true,
            TypeEntry::Class(_) => false,
            TypeEntry::Interface(_) => false,
            TypeEntry::Flags(_) => false,
        }
    }

    /// Returns whether the type is a flags type.
    pub fn is_flags(&self) -> bool
        ensures { (name : List ℕ) → IsTrue result ↔ ((type_of name self.now).sort ≡ flags) }
    {
        match self {
            TypeEntry::Flags(_) => true,
            TypeEntry::Class(_) => false,
            TypeEntry::Interface(_) => false,
            TypeEntry::Enum(_) => false,
        }
    }
}
