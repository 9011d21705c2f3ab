//! The type tree and its queries.

ghost use Rattle.std.specs.Prelude.{◌≡◌, ℕ, ◌+◌, ◌<◌, ◌≤◌, List, [], ◌∷◌, ◌++◌, length, map, string_bytes, Option, None, Some, option_map, pos, IsSome, IfSome, IfNone, MatchOption, ◌↔◌, false, nat_eq, true, IsTrue};
ghost use Rattle.std.specs.List.{list_any};
ghost use Rattle.std.specs.Option.{ForSome};
ghost use Rattle.ui_machine.specs.Seq.{read};
ghost use Rattle.ui_machine.specs.Definition.Types.{GType, enum, flags};
ghost use Rattle.ui_machine.specs.Output.Text.{no_type, members_of};
ghost use Rattle.ui_machine.specs.Rules.Transform.{has_number, known_bits};
ghost use Rattle.ui_machine.specs.Rules.Ancestry.{is_a, depth, parent_of, implemented_by, is_or_implements};
ghost use Rattle.type_tree.specs.Entry.{type_of, enum_member, flags_member, view_of_sort};
ghost use Rattle.type_tree.specs.Adding.{Adds, find_type, sort_of};
ghost use Rattle.type_tree.specs.Naming.{number_called};

use crate::entry::{TypeEntry, TypeFlags, TypeSort};
use crate::error::TypeError;
use crate::member::{EnumMember, FlagsMember};
use crate::type_id::TypeId;
use indexmap::IndexMap;
use std::alloc::Global;
use std::marker::Model;

/// The most types in a tree, including the two of a new tree.
pub const MOST_TYPES: usize = 256;

/// The most classes from the root down to any class, both included.
pub const MOST_DEPTH: usize = 16;

/// Types with their names, in the order in which they were added. A contract sees the list of the types, and a `TypeId` as an index into
/// it.
#[derive(Drop)]
pub struct TypeTree {
    types: IndexMap<String, TypeEntry>,
}

impl Model for TypeTree {
    ghost use Rattle.std.specs.Prelude.{List, map, string_bytes};
    ghost use Rattle.ui_machine.specs.Definition.Types.{GType};
    ghost use Rattle.type_tree.specs.Entry.{type_of};
    ghost use Rattle.type_tree.specs.Tree.{IsTree};

    ghost Value = { List GType };

    ghost view = { λ t. map (λ e. type_of (string_bytes e.0) e.1) t.types.entries };

    ghost invariant = { λ t. IsTree (map (λ e. type_of (string_bytes e.0) e.1) t.types.entries) };
}

impl TypeTree {
    ghost use Rattle.type_tree.specs.Tree.{IsTree};

    /// Returns the number of types.
    pub fn len(&self) -> usize
        ensures { result ≡ length self.now }
    {
        self.types.len()
    }

    /// Returns the type with this name, or `None` if no type has it.
    pub fn find(&self, name: &str) -> Option<TypeId>
        ensures named { result ≡ find_type self.now name.now }
        ensures within { IfSome result (λ t. t < length self.now) }
    {
        let index = self.types.get_index_of(name)?;
        Some(TypeId::new(index as u16))
    }

    // Returns the entry of a type, or `None` if the tree has no such type.
    pub(crate) fn entry(&self, t: TypeId) -> Option<&TypeEntry>
        ensures entry { IfSome result (λ e. read no_type self.now t ≡ type_of (read no_type self.now t).name e.now) }
        ensures within { IsSome result ↔ (t < length self.now) }
        ensures none { IfNone result (read no_type self.now t ≡ no_type) }
    {
        let (_, entry) = self.types.get_index(t.index())?;
        Some(entry)
    }

    /// Returns the sort of a type.
    pub fn sort(&self, t: TypeId) -> TypeSort
        requires { t < length self.now }
        ensures { view_of_sort result ≡ sort_of self.now t }
    {
        match self.entry(t) {
            Some(TypeEntry::Interface(_)) => TypeSort::Interface,
            Some(TypeEntry::Enum(_)) => TypeSort::Enum,
            Some(TypeEntry::Flags(_)) => TypeSort::Flags,
            Some(TypeEntry::Class(_)) | None => TypeSort::Class,
        }
    }

    /// Returns whether a type is an enum.
    pub fn is_enum(&self, t: TypeId) -> bool
        ensures { IsTrue result ↔ (sort_of self.now t ≡ enum) }
    {
        match self.entry(t) {
            Some(entry) => entry.is_enum(),
            None => false,
        }
    }

    /// Returns whether a type is a flags type.
    pub fn is_flags(&self, t: TypeId) -> bool
        ensures { IsTrue result ↔ (sort_of self.now t ≡ flags) }
    {
        match self.entry(t) {
            Some(entry) => entry.is_flags(),
            None => false,
        }
    }

    /// Returns the parent of a class, which comes before it in the tree. Returns `None` for the root and for types that are not classes.
    pub fn parent(&self, t: TypeId) -> Option<TypeId>
        ensures parent { result ≡ parent_of self.now t }
        ensures before { IfSome result (λ p. p < t) }
        ensures few { IfSome result (λ p. p < 256) }
        ensures tree { IsTree self.now }
    {
        // For the proof: the tree's invariant is known once a field is read.
        let _ = &self.types;
        self.entry(t)?.parent()
    }

    /// Returns the interfaces that a class implements, or the types that an interface requires, in the order in which they were given.
    pub fn interfaces(&self, t: TypeId) -> &[TypeId]
        ensures { result.now ≡ (read no_type self.now t).interfaces }
    {
        match self.entry(t) {
            Some(entry) => entry.interfaces(),
            None => &[],
        }
    }

    /// Returns whether a class is abstract and whether it is final.
    pub fn flags(&self, t: TypeId) -> TypeFlags
        ensures is_abstract { result.is_abstract ≡ (read no_type self.now t).is_abstract }
        ensures is_final { result.is_final ≡ (read no_type self.now t).is_final }
    {
        match self.entry(t) {
            Some(entry) => entry.flags(),
            None => TypeFlags::NONE,
        }
    }

    /// Returns the name of a type.
    pub fn name(&self, t: TypeId) -> &str
        requires { t < length self.now }
        ensures { result.now ≡ (read no_type self.now t).name }
    {
        match self.types.get_index(t.index()) {
            Some((name, _)) => name.as_str(),
            None => "",
        }
    }

    /// Returns the members of an enum in their order.
    pub fn enum_members(&self, t: TypeId) -> &[EnumMember]
        ensures { sort_of self.now t ≡ enum → map enum_member result.now ≡ members_of self.now t }
    {
        match self.entry(t) {
            Some(entry) => entry.enum_members(),
            None => &[],
        }
    }

    /// Returns the members of a flags type in their order.
    pub fn flags_members(&self, t: TypeId) -> &[FlagsMember]
        ensures { sort_of self.now t ≡ flags → map flags_member result.now ≡ members_of self.now t }
    {
        match self.entry(t) {
            Some(entry) => entry.flags_members(),
            None => &[],
        }
    }

    /// Returns whether a member of an enum has this number.
    pub fn has_number(&self, t: TypeId, number: i128) -> bool
        ensures { sort_of self.now t ≡ enum → result ≡ has_number (members_of self.now t) number }
    {
        match self.entry(t) {
            Some(entry) => entry.has_number(number),
            None => false,
        }
    }

    /// Returns the number as an `i32` if a member of the enum has it.
    pub fn member_number(&self, t: TypeId, number: i128) -> Option<i32>
        ensures { sort_of self.now t ≡ enum → MatchOption result (has_number (members_of self.now t) number ≡ false)
            (λ n. (n ≡ number) × (has_number (members_of self.now t) number ≡ true)) }
    {
        match self.entry(t) {
            Some(entry) => entry.member_number(number),
            None => None,
        }
    }

    /// Returns the number of the enum member with this name, or else with this nick.
    pub fn number_called(&self, t: TypeId, word: &str) -> Option<i32>
        ensures { sort_of self.now t ≡ enum → result ≡ number_called (members_of self.now t) word.now }
    {
        self.entry(t)?.number_called(word)
    }

    /// Returns the bits of the flags member with this name, or else with this nick.
    pub fn bits_called(&self, t: TypeId, word: &[u8]) -> Option<u32>
        ensures { sort_of self.now t ≡ flags → option_map pos result ≡ number_called (members_of self.now t) word.now }
    {
        self.entry(t)?.bits_called(word)
    }

    /// Returns the union of the bits of all members of a flags type.
    pub fn known_bits(&self, t: TypeId) -> u32
        ensures { sort_of self.now t ≡ flags → result ≡ known_bits (members_of self.now t) }
    {
        match self.entry(t) {
            Some(entry) => entry.known_bits(),
            None => 0,
        }
    }

    // Returns the interfaces that a class itself implements, without those of its ancestors.
    fn implemented(&self, t: TypeId) -> &[TypeId]
        ensures { result.now ≡ implemented_by self.now t }
    {
        match self.entry(t) {
            Some(entry) => entry.implemented(),
            None => &[],
        }
    }

    // Returns whether `t` is `b` or itself implements `b`.
    fn is_or_implements(&self, t: TypeId, b: TypeId) -> bool
        ensures { result ≡ is_or_implements self.now b t }
    {
        t == b || contains(self.implemented(t), b)
    }

    /// Returns whether `b` is `a`, an ancestor of `a`, or an interface that `a` or an ancestor of `a` implements. An interface is only
    /// itself.
    pub fn is_a(&self, a: TypeId, b: TypeId) -> bool
        ensures { result ≡ is_a self.now a b }
    {
        // For the proof: the tree's invariant is known once a field is read.
        let _ = &self.types;
        if self.is_or_implements(a, b) {
            return true;
        }
        match self.parent(a) {
            Some(parent) => self.is_a(parent, b),
            None => false,
        }
    }

    /// Returns the number of classes from the root down to this one, both included.
    pub fn depth(&self, t: TypeId) -> usize
        ensures depth { result ≡ depth self.now t }
        ensures bound { result ≤ t + 1 }
    {
        // For the proof: the tree's invariant is known once a field is read.
        let _ = &self.types;
        match self.parent(t) {
            Some(parent) => self.depth(parent) + 1,
            None => 1,
        }
    }

    /// Creates a tree without types.
    pub(crate) fn empty(alloc: Global) -> Self
        ensures { result ≡ [] }
    {
        TypeTree {
            types: IndexMap::new(alloc),
        }
    }

    /// Returns the allocator that the tree was created with.
    pub(crate) fn allocator(&self) -> Global {
        *self.types.allocator()
    }

    /// Adds a type at the end.
    ///
    /// # Errors
    ///
    /// Returns `OutOfMemory` if memory is refused.
    pub(crate) fn append(&mut self, name: &str, entry: TypeEntry) -> Result<TypeId, TypeError>
        requires fresh { find_type self.old name.now ≡ None }
        requires room { length self.old < 256 }
        requires parent { ForSome (type_of name.now entry).parent (λ p. p < length self.old) }
        ensures { Adds result None (type_of name.now entry) self.old self.new }
    {
        let number = self.types.len();
        let name = String::from_str(*self.types.allocator(), name)?;
        let _ = self.types.insert(name, entry)?;
        Ok(TypeId::new(number as u16))
    }
}

// Returns whether `t` is one of these types.
pub(crate) fn contains(types: &[TypeId], t: TypeId) -> bool
    ensures { result ≡ list_any (nat_eq t) types.now }
{
    types.iter().any(|u| t == *u)
}
