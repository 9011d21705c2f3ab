//! Tests that a type has the properties of an interface.

ghost use Rattle.std.specs.Prelude.{◌≡◌, ◌<◌, length, position, option_map, IfSome};
ghost use Rattle.param_specs.specs.View.{spec_view};
ghost use Rattle.param_specs.specs.Table.{specs_of};
ghost use Rattle.param_specs.specs.Overriding.{same_range, same_rest, same_spec, spec_named, is_missing, differs, override_fault, fine_or};

use crate::error::OverrideFault;
use crate::spec::Spec;
use crate::table::SpecTable;
use g_values::is_same;
use type_tree::{TypeId, TypeTree};
use ui_machine::Slot;

impl SpecTable {
    /// Tests that a type has each property of an interface, its own or inherited, with the same kind, range, default, weakness and flags.
    ///
    /// # Errors
    ///
    /// Returns `Missing` with the first property that the type lacks, or else `Differs` with the first property that the type declares
    /// differently, both by their slots in the interface.
    pub fn override_from(
        &self,
        tree: &TypeTree,
        t: TypeId,
        interface: TypeId,
    ) -> Result<(), OverrideFault>
        ensures { result ≡ fine_or (override_fault (specs_of tree.now self.now t) (specs_of tree.now self.now interface)) }
    {
        if let Some(slot) = self.first_missing(tree, t, interface) {
            return Err(OverrideFault::Missing(slot as Slot));
        }
        if let Some(slot) = self.first_different(tree, t, interface) {
            return Err(OverrideFault::Differs(slot as Slot));
        }
        Ok(())
    }

    // Returns the slot of the interface's first property that a type lacks.
    fn first_missing(&self, tree: &TypeTree, t: TypeId, interface: TypeId) -> Option<usize>
        ensures slot { result ≡ position (is_missing (specs_of tree.now self.now t)) (specs_of tree.now self.now interface) }
        ensures few { IfSome result (λ i. i < 16448) }
    {
        for slot in 0..self.slots_of(tree, interface) {
            if self.is_missing(tree, t, self.spec_at(tree, interface, slot)) {
                return Some(slot);
            }
        }
        None
    }

    // Returns the slot of the interface's first property that a type declares differently.
    fn first_different(&self, tree: &TypeTree, t: TypeId, interface: TypeId) -> Option<usize>
        ensures slot { result ≡ position (differs (specs_of tree.now self.now t)) (specs_of tree.now self.now interface) }
        ensures few { IfSome result (λ i. i < 16448) }
    {
        for slot in 0..self.slots_of(tree, interface) {
            if self.differs(tree, t, self.spec_at(tree, interface, slot)) {
                return Some(slot);
            }
        }
        None
    }

    // Returns whether a type has no property with the name of `wanted`.
    fn is_missing(&self, tree: &TypeTree, t: TypeId, wanted: &Spec) -> bool
        ensures { result ≡ is_missing (specs_of tree.now self.now t) (spec_view wanted.now) }
    {
        self.slot(tree, t, wanted.name.as_str()).is_none()
    }

    /// Returns the property of a type, its own or inherited, with this name in any spelling.
    #[tactic(auto, using(crate::proofs::Within::slot_within))]
    pub fn named(&self, tree: &TypeTree, t: TypeId, name: &str) -> Option<&Spec>
        ensures { option_map (λ s. spec_view s.now) result ≡ spec_named (specs_of tree.now self.now t) name.now }
    {
        match self.slot(tree, t, name) {
            Some(slot) => Some(self.spec_at(tree, t, slot)),
            None => None,
        }
    }

    // Returns whether a type has a property with the name of `wanted` that differs from it.
    fn differs(&self, tree: &TypeTree, t: TypeId, wanted: &Spec) -> bool
        ensures { result ≡ differs (specs_of tree.now self.now t) (spec_view wanted.now) }
    {
        match self.named(tree, t, wanted.name.as_str()) {
            Some(spec) => !is_same_spec(spec, wanted),
            None => false,
        }
    }
}

/// Returns whether two properties have the same kind, range, default, weakness and flags.
pub fn is_same_spec(a: &Spec, b: &Spec) -> bool
    ensures { result ≡ same_spec (spec_view a.now) (spec_view b.now) }
{
    has_same_range(a, b) && has_same_rest(a, b)
}

// Returns whether two properties have the same kind and range.
fn has_same_range(a: &Spec, b: &Spec) -> bool
    ensures { result ≡ same_range (spec_view a.now) (spec_view b.now) }
{
    a.kind == b.kind && a.min == b.min && a.max == b.max
}

// Returns whether two properties have the same default, weakness and flags.
fn has_same_rest(a: &Spec, b: &Spec) -> bool
    ensures { result ≡ same_rest (spec_view a.now) (spec_view b.now) }
{
    is_same(&a.default, &b.default) && a.weak == b.weak && a.flags == b.flags
}
