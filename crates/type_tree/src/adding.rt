//! Tests and additions of new types.

ghost use Rattle.std.specs.Prelude.{◌≡◌, ◌<◌, ◌∷◌, ◌++◌, [], List, map, length, IfOk, is_some, nat_eq, not, OnOk, OnErr, IfSome, Option, Some, None};
ghost use Rattle.std.specs.List.{list_all, list_any, filter_map, find, flat_map};
ghost use Rattle.ui_machine.specs.Definition.Types.{predeclared};
ghost use Rattle.type_tree.specs.Adding.{Adds, class_named, interface_named, required_named, name_fault, class_fault, parent_fault, child_fault, interface_fault, required_fault, members_fault, are_named, missing_type, missing_of, first_required, required_by, would_be, room_fault, new_class, new_interface, new_enum, new_flags};
ghost use Rattle.type_tree.specs.Entry.{class_type, interface_type, enum_member, flags_member};

use crate::entry::{ClassEntry, TypeEntry, TypeFlags, TypeSort};
use crate::enum_members::EnumMembers;
use crate::error::{TypeError, TypeFault, TypeLimit};
use crate::flags_members::FlagsMembers;
use crate::member::{EnumMember, FlagsMember};
use crate::name::is_type_name;
use crate::tree::{MOST_DEPTH, MOST_TYPES, TypeTree, contains};
use crate::type_id::TypeId;
use std::alloc::{AllocError, Global};

impl TypeTree {
    /// Returns the class with this name, or `None` if no class has it.
    pub fn find_class(&self, name: &str) -> Option<TypeId>
        ensures class { result ≡ class_named self.now name.now }
        ensures within { IfSome result (λ t. t < length self.now) }
    {
        let t = self.find(name)?;
        if self.sort(t) == TypeSort::Class {
            Some(t)
        } else {
            None
        }
    }

    /// Returns the interface with this name, or `None` if no interface has it.
    pub fn find_interface(&self, name: &str) -> Option<TypeId>
        ensures { result ≡ interface_named self.now name.now }
    {
        let t = self.find(name)?;
        if self.sort(t) == TypeSort::Interface {
            Some(t)
        } else {
            None
        }
    }

    /// Returns the class or interface with this name, which is what an interface may require, or `None` if there is none.
    pub fn find_required(&self, name: &str) -> Option<TypeId>
        ensures { result ≡ required_named self.now name.now }
    {
        let t = self.find(name)?;
        match self.sort(t) {
            TypeSort::Class | TypeSort::Interface => Some(t),
            TypeSort::Enum | TypeSort::Flags => None,
        }
    }

    /// Returns why no type may be added under this name: it is not a type name, or a type has it already. `None` if the name is free.
    pub fn name_fault(&self, name: &str) -> Option<TypeFault>
        ensures { result ≡ name_fault self.now name.now }
    {
        if !is_type_name(name) {
            return Some(TypeFault::BadName);
        }
        match self.find(name) {
            Some(_) => Some(TypeFault::Duplicate),
            None => None,
        }
    }

    /// Returns why no further type may be added, which is that there are 256 types already. `None` if there is room.
    pub fn room_fault(&self) -> Option<TypeFault>
        ensures { result ≡ room_fault self.now }
    {
        if self.len() >= MOST_TYPES {
            return Some(TypeFault::Limit(TypeLimit::Types));
        }
        None
    }

    // Returns whether each name is the name of an interface.
    fn are_interfaces(&self, names: &[&str]) -> bool
        ensures { result ≡ are_named (λ name. interface_named self.now name.now) names.now }
    {
        names.iter().all(|name| self.find_interface(name).is_some())
    }

    // Returns whether each name is the name of a class or an interface.
    fn are_required(&self, names: &[&str]) -> bool
        ensures { result ≡ are_named (λ name. required_named self.now name.now) names.now }
    {
        names.iter().all(|name| self.find_required(name).is_some())
    }

    // Collects the interfaces with these names, in this order. Names of anything else are left out.
    fn find_interfaces(&self, alloc: Global, names: &[&str]) -> Result<Vec<TypeId>, AllocError>
        ensures { IfOk result (λ v. v.items ≡ filter_map (λ name. interface_named self.now name.now) names.now) }
    {
        names
            .iter()
            .filter_map(|name| self.find_interface(name))
            .collect(alloc)
    }

    // Collects the classes and interfaces with these names, in this order. Names of anything else are left out.
    fn find_all_required(&self, alloc: Global, names: &[&str]) -> Result<Vec<TypeId>, AllocError>
        ensures { IfOk result (λ v. v.items ≡ filter_map (λ name. required_named self.now name.now) names.now) }
    {
        names
            .iter()
            .filter_map(|name| self.find_required(name))
            .collect(alloc)
    }

    // Returns whether `t` is one of the interfaces with these names.
    fn is_named(&self, names: &[&str], t: TypeId) -> bool
        ensures { result ≡ list_any (nat_eq t) (filter_map (λ name. interface_named self.now name.now) names.now) }
    {
        names
            .iter()
            .filter_map(|name| self.find_interface(name))
            .any(|u| t == u)
    }

    // Returns whether a class with this parent and these interfaces would be a `t`.
    fn would_be(&self, parent: TypeId, interfaces: &[&str], t: TypeId) -> bool
        ensures { result ≡ would_be self.now parent (filter_map (λ name. interface_named self.now name.now) interfaces.now) t }
    {
        self.is_a(parent, t) || self.is_named(interfaces, t)
    }

    // Returns the first type that `interface` requires and that a class with this parent and these interfaces would not be.
    fn missing_in(&self, parent: TypeId, interfaces: &[&str], interface: TypeId) -> Option<TypeId>
        ensures { result ≡ find (λ t. not (would_be self.now parent (filter_map (λ name. interface_named self.now name.now) interfaces.now) t))
            (required_by self.now interface) }
    {
        self.interfaces(interface)
            .iter()
            .copied()
            .find(|t| !self.would_be(parent, interfaces, *t))
    }

    // Like `missing_in`, for the interface with this name. Returns `None` if no interface has the name.
    fn missing_of(&self, parent: TypeId, interfaces: &[&str], name: &str) -> Option<TypeId>
        ensures { result
            ≡ first_required (λ t. not (would_be self.now parent (filter_map (λ name. interface_named self.now name.now) interfaces.now) t))
            (required_by self.now) (interface_named self.now name.now) }
    {
        match self.find_interface(name) {
            Some(interface) => self.missing_in(parent, interfaces, interface),
            None => None,
        }
    }

    // Returns the first type that one of these interfaces requires and that a class with this parent and these interfaces would not be.
    fn missing_type(&self, parent: TypeId, interfaces: &[&str]) -> Option<TypeId>
        ensures { result ≡ missing_type self.now parent (filter_map (λ name. interface_named self.now name.now) interfaces.now) }
    {
        'names: for name in interfaces {
            let missing = self.missing_of(parent, interfaces, name);
            if missing.is_some() {
                return missing;
            }
        }
        None
    }

    // Returns whether a class with this parent and these interfaces would be a `t`. Looks at the interfaces first, since a parent may have
    // many ancestors.
    fn is_one_of(&self, parent: TypeId, interfaces: &[TypeId], t: TypeId) -> bool
        ensures { result ≡ would_be self.now parent interfaces.now t }
    {
        contains(interfaces, t) || self.is_a(parent, t)
    }

    /// Returns the first type that `interface` requires and that a class with this parent and these interfaces would not be.
    pub fn missing_prerequisite(
        &self,
        parent: TypeId,
        interfaces: &[TypeId],
        interface: TypeId,
    ) -> Option<TypeId>
        ensures { result ≡ missing_of self.now parent interfaces.now interface }
    {
        self.interfaces(interface)
            .iter()
            .copied()
            .find(|t| !self.is_one_of(parent, interfaces, *t))
    }

    // Returns why no class may be added under this parent with these interfaces, or `None` if one may. The name is not tested.
    fn child_fault(&self, parent: TypeId, interfaces: &[&str]) -> Option<TypeFault>
        ensures { result
            ≡ child_fault self.now parent (are_named (λ name. interface_named self.now name.now) interfaces.now)
            (filter_map (λ name. interface_named self.now name.now) interfaces.now) }
    {
        if !self.are_interfaces(interfaces) {
            return Some(TypeFault::UnknownParent);
        }
        if self.flags(parent).is_final {
            return Some(TypeFault::FinalParent);
        }
        if let Some(missing) = self.missing_type(parent, interfaces) {
            return Some(TypeFault::Prerequisite(missing));
        }
        if self.len() >= MOST_TYPES {
            return Some(TypeFault::Limit(TypeLimit::Types));
        }
        if self.depth(parent) >= MOST_DEPTH {
            return Some(TypeFault::Limit(TypeLimit::Depth));
        }
        None
    }

    // Returns why a class may not be added, or `None` if it may.
    #[tactic(auto, using(crate::proofs::Texts::are_named_texts, crate::proofs::Texts::filter_map_texts))]
    fn class_fault(&self, name: &str, parent: &str, interfaces: &[&str]) -> Option<TypeFault>
        ensures { result ≡ class_fault self.now name.now parent.now (map (λ n. n.now) interfaces.now) }
    {
        if let Some(fault) = self.name_fault(name) {
            return Some(fault);
        }
        match self.find_class(parent) {
            Some(parent) => self.child_fault(parent, interfaces),
            None => Some(TypeFault::UnknownParent),
        }
    }

    // Returns why an interface with these requirements may not be added, or `None` if it may. The name is not tested.
    fn required_fault(&self, required: &[&str]) -> Option<TypeFault>
        ensures { result ≡ required_fault self.now (are_named (λ name. required_named self.now name.now) required.now) }
    {
        if !self.are_required(required) {
            return Some(TypeFault::UnknownParent);
        }
        self.room_fault()
    }

    // Returns why an interface may not be added, or `None` if it may.
    #[tactic(auto, using(crate::proofs::Texts::are_named_texts))]
    fn interface_fault(&self, name: &str, required: &[&str]) -> Option<TypeFault>
        ensures { result ≡ interface_fault self.now name.now (map (λ n. n.now) required.now) }
    {
        if let Some(fault) = self.name_fault(name) {
            return Some(fault);
        }
        self.required_fault(required)
    }

    // Returns why an enum or flags type may not be added under this name, or `None` if it may.
    fn members_fault(&self, name: &str) -> Option<TypeFault>
        ensures { result ≡ members_fault self.now name.now }
    {
        if let Some(fault) = self.name_fault(name) {
            return Some(fault);
        }
        self.room_fault()
    }

    /// Adds a class under a parent, with the interfaces that it implements. Tests, in this order: the form of the name, whether it is
    /// taken, parent and interfaces, whether the parent is final, what the interfaces require, the number of types, and the depth.
    ///
    /// # Errors
    ///
    /// Returns `Refused` with the first test that fails, or `OutOfMemory` if memory is refused. The tree is unchanged then.
    pub fn add_class(
        &mut self,
        name: &str,
        parent: &str,
        flags: TypeFlags,
        interfaces: &[&str],
    ) -> Result<TypeId, TypeError>
        ensures { let names = map (λ n. n.now) interfaces.now in
            Adds result (class_fault self.old name.now parent.now names) (new_class self.old name.now parent.now flags names) self.old self.new }
    {
        if let Some(fault) = self.class_fault(name, parent, interfaces) {
            return Err(TypeError::Refused(fault));
        }
        let parent = self.find_class(parent);
        let interfaces = self.find_interfaces(self.allocator(), interfaces)?;
        self.append(
            name,
            TypeEntry::Class(ClassEntry {
                parent,
                flags,
                interfaces,
            }),
        )
    }

    /// Adds an interface, with the classes and interfaces that it requires. Tests, in this order: the form of the name, whether it is
    /// taken, what is required, and the number of types.
    ///
    /// # Errors
    ///
    /// Returns `Refused` with the first test that fails, or `OutOfMemory` if memory is refused. The tree is unchanged then.
    pub fn add_interface(&mut self, name: &str, required: &[&str]) -> Result<TypeId, TypeError>
        ensures { let names = map (λ n. n.now) required.now in
            Adds result (interface_fault self.old name.now names) (new_interface self.old name.now names) self.old self.new }
    {
        if let Some(fault) = self.interface_fault(name, required) {
            return Err(TypeError::Refused(fault));
        }
        let required = self.find_all_required(self.allocator(), required)?;
        self.append(name, TypeEntry::Interface(required))
    }

    /// Adds an enum. Tests, in this order: the form of the name, whether it is taken, and the number of types.
    ///
    /// # Errors
    ///
    /// Returns `Refused` with the first test that fails, or `OutOfMemory` if memory is refused. The tree is unchanged then.
    pub fn add_enum(&mut self, name: &str, members: Vec<EnumMember>) -> Result<TypeId, TypeError>
        ensures { Adds result (members_fault self.old name.now) (new_enum name.now (map enum_member members.items)) self.old self.new }
    {
        if let Some(fault) = self.members_fault(name) {
            return Err(TypeError::Refused(fault));
        }
        let members = EnumMembers::new(self.allocator(), members)?;
        self.append(name, TypeEntry::Enum(members))
    }

    /// Adds a flags type. Tests, in this order: the form of the name, whether it is taken, and the number of types.
    ///
    /// # Errors
    ///
    /// Returns `Refused` with the first test that fails, or `OutOfMemory` if memory is refused. The tree is unchanged then.
    pub fn add_flags(&mut self, name: &str, members: Vec<FlagsMember>) -> Result<TypeId, TypeError>
        ensures { Adds result (members_fault self.old name.now) (new_flags name.now (map flags_member members.items)) self.old self.new }
    {
        if let Some(fault) = self.members_fault(name) {
            return Err(TypeError::Refused(fault));
        }
        let members = FlagsMembers::new(self.allocator(), members)?;
        self.append(name, TypeEntry::Flags(members))
    }

    /// Adds a class under a parent, with the interfaces that it implements. The caller has tested the name and the number of types.
    ///
    /// # Errors
    ///
    /// `AllocError` if memory is refused. The tree is unchanged then.
    pub fn append_class(
        &mut self,
        name: &str,
        parent: TypeId,
        flags: TypeFlags,
        interfaces: Vec<TypeId>,
    ) -> Result<TypeId, AllocError>
        requires name { name_fault self.old name.now ≡ None }
        requires room { room_fault self.old ≡ None }
        requires parent { parent < length self.old }
        ensures ok { OnOk result (self.new ≡ self.old ++ class_type name.now parent flags interfaces.items ∷ []) }
        ensures class { IfOk result (λ t. t ≡ length self.old) }
        ensures err { OnErr result (self.new ≡ self.old) }
    {
        let class = ClassEntry {
            parent: Some(parent),
            flags,
            interfaces,
        };
        let Ok(t) = self.append(name, TypeEntry::Class(class)) else {
            return Err(AllocError);
        };
        Ok(t)
    }

    /// Adds an interface, with the types that it requires. The caller has tested the name and the number of types.
    ///
    /// # Errors
    ///
    /// `AllocError` if memory is refused. The tree is unchanged then.
    pub fn append_interface(
        &mut self,
        name: &str,
        required: Vec<TypeId>,
    ) -> Result<TypeId, AllocError>
        requires name { name_fault self.old name.now ≡ None }
        requires room { room_fault self.old ≡ None }
        ensures ok { OnOk result (self.new ≡ self.old ++ interface_type name.now required.items ∷ []) }
        ensures interface { IfOk result (λ t. t ≡ length self.old) }
        ensures err { OnErr result (self.new ≡ self.old) }
    {
        let Ok(t) = self.append(name, TypeEntry::Interface(required)) else {
            return Err(AllocError);
        };
        Ok(t)
    }

    /// Adds an enum. The caller has tested the name and the number of types.
    ///
    /// # Errors
    ///
    /// `AllocError` if memory is refused. The tree is unchanged then.
    pub fn append_enum(
        &mut self,
        name: &str,
        members: Vec<EnumMember>,
    ) -> Result<TypeId, AllocError>
        requires name { name_fault self.old name.now ≡ None }
        requires room { room_fault self.old ≡ None }
        ensures ok { OnOk result (self.new ≡ self.old ++ new_enum name.now (map enum_member members.items) ∷ []) }
        ensures enumerated { IfOk result (λ t. t ≡ length self.old) }
        ensures err { OnErr result (self.new ≡ self.old) }
    {
        let members = EnumMembers::new(self.allocator(), members)?;
        let Ok(t) = self.append(name, TypeEntry::Enum(members)) else {
            return Err(AllocError);
        };
        Ok(t)
    }

    /// Adds a flags type. The caller has tested the name and the number of types.
    ///
    /// # Errors
    ///
    /// `AllocError` if memory is refused. The tree is unchanged then.
    pub fn append_flags(
        &mut self,
        name: &str,
        members: Vec<FlagsMember>,
    ) -> Result<TypeId, AllocError>
        requires name { name_fault self.old name.now ≡ None }
        requires room { room_fault self.old ≡ None }
        ensures ok { OnOk result (self.new ≡ self.old ++ new_flags name.now (map flags_member members.items) ∷ []) }
        ensures flags { IfOk result (λ t. t ≡ length self.old) }
        ensures err { OnErr result (self.new ≡ self.old) }
    {
        let members = FlagsMembers::new(self.allocator(), members)?;
        let Ok(t) = self.append(name, TypeEntry::Flags(members)) else {
            return Err(AllocError);
        };
        Ok(t)
    }

    /// Creates the tree that holds `GObject` and its child `GInitiallyUnowned`, and no other type.
    ///
    /// # Errors
    ///
    /// `AllocError` if memory is refused.
    pub fn new(alloc: Global) -> Result<Self, AllocError>
        ensures { IfOk result (λ tree. tree ≡ predeclared) }
    {
        let mut tree = TypeTree::empty(alloc);
        let root = ClassEntry {
            parent: None,
            flags: TypeFlags::NONE,
            interfaces: Vec::new(alloc),
        };
        let Ok(root) = tree.append("GObject", TypeEntry::Class(root)) else {
            return Err(AllocError);
        };
        let child = ClassEntry {
            parent: Some(root),
            flags: TypeFlags::NONE,
            interfaces: Vec::new(alloc),
        };
        let Ok(_) = tree.append("GInitiallyUnowned", TypeEntry::Class(child)) else {
            return Err(AllocError);
        };
        Ok(tree)
    }
}
