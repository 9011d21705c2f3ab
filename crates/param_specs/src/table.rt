//! The table of the properties of all types.

ghost use Rattle.std.specs.Prelude.{◌≡◌, ◌≢◌, ◌<◌, ◌≤◌, ◌+◌, ◌*◌, List, [], map, length, string_bytes, slice_get, position, option_map, None, Some, IfSome, IfNone, true, OnOk, OnErr};
ghost use Rattle.std.specs.Rc.{rc_str_bytes};
ghost use Rattle.ui_machine.specs.Definition.Names.{same_name, canonical, place_named};
ghost use Rattle.param_specs.specs.View.{spec_view, specs_in, AreNamed, entries_or_none};
ghost use Rattle.indexmap.specs.IndexMap.{keys};
ghost use Rattle.g_values.specs.View.{IsKnown};
ghost use Rattle.type_tree.specs.PropertyName.{is_property_name};
ghost use Rattle.param_specs.specs.Table.{own_of, specs_of, slot_named, AddsSpec, SameSpecs, Installs, install_fault};

use crate::error::{SpecError, SpecFault};
use crate::growing::{add, grow};
use crate::spec::Spec;
use crate::validating::is_valid_default;
use indexmap::IndexMap;
use std::alloc::{AllocError, Global};
use std::marker::Model;
use std::rc::RcStr;
use type_tree::{
    TypeId, TypeTree, canonical_name, has_canonical_bytes, is_property_name, is_spelling,
};
use ui_machine::Slot;

/// The most properties of a type, including the inherited ones.
pub const MOST_PROPERTIES: usize = 64;

/// For each type, the properties that were installed for it, by their canonical names. A type's slots are numbered from the root down, so
/// inherited properties come before its own. A contract sees the list of the types' own lists.
#[derive(Drop)]
pub struct SpecTable {
    own: Vec<IndexMap<String, Spec>>,
}

impl Model for SpecTable {
    ghost use Rattle.std.specs.Prelude.{List};
    ghost use Rattle.ui_machine.specs.Definition.Properties as properties;
    ghost use Rattle.param_specs.specs.View.{specs_in, lists_of, AllNamed};
    ghost use Rattle.param_specs.specs.Table.{IsTable};

    ghost Value = { List (List properties.Spec) };

    ghost view = { λ t. lists_of (λ m. specs_in m.entries) t.own.items };

    ghost invariant = { λ t. IsTable (lists_of (λ m. specs_in m.entries) t.own.items) × AllNamed (λ m. m.entries) t.own.items };
}

impl SpecTable {
    /// Creates a table without properties. Takes no memory.
    pub fn new(alloc: Global) -> Self
        ensures { result ≡ [] }
    {
        SpecTable {
            own: Vec::new(alloc),
        }
    }

    // Returns the properties installed for a type itself, or `None` if there is no list for it.
    fn own(&self, t: TypeId) -> Option<&IndexMap<String, Spec>>
        ensures own { map spec_view (specs_in (entries_or_none (option_map (λ m. m.now.entries) result))) ≡ own_of self.now t }
        ensures few { IfSome result (λ m. length m.now.entries ≤ 64) }
        ensures named { IfSome result (λ m. AreNamed m.now.entries) }
    {
        let at = t.index();
        if at < self.own.len() {
            Some(&self.own[at])
        } else {
            None
        }
    }

    /// Returns the number of properties installed for a type itself.
    pub fn own_count(&self, t: TypeId) -> usize
        ensures count { result ≡ length (own_of self.now t) }
        ensures few { result ≤ 64 }
    {
        match self.own(t) {
            Some(own) => own.len(),
            None => 0,
        }
    }

    /// Returns the number of properties of a type, including the inherited ones.
    pub fn slots_of(&self, tree: &TypeTree, t: TypeId) -> usize
        ensures count { result ≡ length (specs_of tree.now self.now t) }
        ensures bound { result ≤ 64 * (t + 1) }
        ensures few { result ≤ 16448 }
        ensures own { length (own_of self.now t) ≤ result }
    {
        let own = self.own_count(t);
        match tree.parent(t) {
            Some(parent) => self.slots_of(tree, parent) + own,
            None => own,
        }
    }

    // Returns the index of a type's own property with this name, in any spelling.
    fn own_slot(&self, t: TypeId, name: &str) -> Option<usize>
        ensures slot { result ≡ slot_named (own_of self.now t) name.now }
        ensures within { IfSome result (λ i. i < 64) }
    {
        position_of(self.own(t)?, name)
    }

    /// Returns a type's own property by its index among the type's own.
    pub fn own_spec(&self, t: TypeId, slot: usize) -> &Spec
        requires { slot < length (own_of self.now t) }
        ensures { slice_get (own_of self.now t) slot ≡ Some (spec_view result.now) }
    {
        let Some(own) = self.own(t) else {
            unreachable!()
        };
        let Some((_, spec)) = own.get_index(slot) else {
            unreachable!()
        };
        spec
    }

    // Returns the slot of a type's property with this name, its own or inherited, in any spelling.
    pub(crate) fn slot(&self, tree: &TypeTree, t: TypeId, name: &str) -> Option<usize>
        ensures slot { result ≡ slot_named (specs_of tree.now self.now t) name.now }
        ensures bound { IfSome result (λ i. i < 16448) }
    {
        let own = self.own_slot(t, name);
        let Some(parent) = tree.parent(t) else {
            return own;
        };
        match self.slot(tree, parent, name) {
            Some(slot) => Some(slot),
            None => Some(self.slots_of(tree, parent) + own?),
        }
    }

    // Returns the property in a slot of a type.
    pub(crate) fn spec_at(&self, tree: &TypeTree, t: TypeId, slot: usize) -> &Spec
        requires { slot < length (specs_of tree.now self.now t) }
        ensures { slice_get (specs_of tree.now self.now t) slot ≡ Some (spec_view result.now) }
    {
        let Some(parent) = tree.parent(t) else {
            return self.own_spec(t, slot);
        };
        let inherited = self.slots_of(tree, parent);
        if slot < inherited {
            self.spec_at(tree, parent, slot)
        } else {
            self.own_spec(t, slot - inherited)
        }
    }

    // Adds a property under this name to a type's own.
    fn add_own(&mut self, t: TypeId, name: String, spec: Spec) -> Result<(), AllocError>
        requires room { length (own_of self.old t) < 64 }
        requires named { string_bytes name ≡ rc_str_bytes spec.name }
        requires new { place_named (λ s. s.name) (own_of self.old t) (string_bytes name) ≡ None }
        ensures ok { OnOk result (AddsSpec self.old self.new t (spec_view spec)) }
        ensures err { OnErr result (SameSpecs self.old self.new) }
    {
        let at = t.index();
        let alloc = *self.own.allocator();
        grow(alloc, &mut self.own, at + 1)?;
        add(&mut self.own, at, name, spec)?;
        Ok(())
    }

    // Returns why a property may not be installed, or `None` if it may.
    fn install_fault(&self, tree: &TypeTree, t: TypeId, spec: &Spec) -> Option<SpecFault>
        requires { IsKnown tree.now spec.now.kind }
        ensures fault { result ≡ install_fault tree.now (specs_of tree.now self.now t) (spec_view spec.now) }
        ensures named { IfNone result (is_property_name (rc_str_bytes spec.now.name) ≡ true) }
        ensures room { IfNone result (length (specs_of tree.now self.now t) < 64) }
        ensures new { IfNone result (slot_named (specs_of tree.now self.now t) (rc_str_bytes spec.now.name) ≡ None) }
    {
        if !is_property_name(spec.name.as_str()) {
            return Some(SpecFault::BadName);
        }
        if self.slot(tree, t, spec.name.as_str()).is_some() {
            return Some(SpecFault::Duplicate);
        }
        if spec.flags.is_clash() {
            return Some(SpecFault::FlagsClash);
        }
        if spec.max < spec.min {
            return Some(SpecFault::RangeEmpty);
        }
        if !is_valid_default(tree, spec) {
            return Some(SpecFault::DefaultInvalid);
        }
        if self.slots_of(tree, t) >= MOST_PROPERTIES {
            return Some(SpecFault::Limit);
        }
        None
    }

    // Returns the allocator that the table was created with.
    fn allocator(&self) -> Global {
        *self.own.allocator()
    }

    /// Installs a property for a type, under its canonical name, and returns its slot. Tests, in this order: the form of the name, whether
    /// the type has a property of that name, its own or inherited, the flags, the range, the default, and the number of properties.
    ///
    /// # Errors
    ///
    /// Returns `Refused` with the first test that fails, or `OutOfMemory` if memory is refused. The properties are unchanged then.
    pub fn install(&mut self, tree: &TypeTree, t: TypeId, spec: Spec) -> Result<Slot, SpecError>
        requires { IsKnown tree.now spec.kind }
        ensures { let specs = specs_of tree.now self.old t in
            Installs result (install_fault tree.now specs (spec_view spec)) specs t (spec_view spec) self.old self.new }
    {
        if let Some(fault) = self.install_fault(tree, t, &spec) {
            return Err(SpecError::Refused(fault));
        }
        let slot = self.slots_of(tree, t);
        let key = canonical_name(self.allocator(), spec.name.as_str())?;
        let name = RcStr::from_str(self.allocator(), key.as_str())?;
        let spec = renamed(spec, name);
        self.add_own(t, key, spec)?;
        Ok(slot as Slot)
    }

    /// Returns the slot of a type's property with this name, its own or inherited, in any spelling.
    pub fn find(&self, tree: &TypeTree, t: TypeId, name: &str) -> Option<Slot>
        ensures { result ≡ slot_named (specs_of tree.now self.now t) name.now }
    {
        let slot = self.slot(tree, t, name)?;
        Some(slot as Slot)
    }

    /// Returns the property in a slot of a type.
    pub fn spec(&self, tree: &TypeTree, t: TypeId, slot: Slot) -> &Spec
        requires { slot < length (specs_of tree.now self.now t) }
        ensures { slice_get (specs_of tree.now self.now t) slot ≡ Some (spec_view result.now) }
    {
        self.spec_at(tree, t, slot as usize)
    }
}

// Returns the index of the property with this name, in any spelling. A name in the canonical spelling is looked up directly, without
// walking over the names.
fn position_of(own: &IndexMap<String, Spec>, name: &str) -> Option<usize>
    requires { AreNamed own.now.entries }
    ensures place { result ≡ slot_named (map spec_view (specs_in own.now.entries)) name.now }
    ensures within { IfSome result (λ i. i < length own.now.entries) }
{
    if has_canonical_bytes(name) {
        own.get_index_of(name)
    } else {
        spelled_position(own, name)
    }
}

// Like `position_of`, but walks over the names.
fn spelled_position(own: &IndexMap<String, Spec>, name: &str) -> Option<usize>
    ensures place { result ≡ position (λ k. same_name (string_bytes k) (canonical name.now)) (keys own.now) }
    ensures within { IfSome result (λ i. i < length own.now.entries) }
{
    own.keys().position(|key| is_spelling(key.as_str(), name))
}

// Returns the property under another name.
fn renamed(spec: Spec, name: RcStr) -> Spec
    ensures { spec_view result ≡ record (spec_view spec) { name = rc_str_bytes name } }
{
    let mut spec = spec;
    spec.name = name;
    spec
}
