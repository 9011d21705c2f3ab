//! The lists of the types' own properties, as they grow.

ghost use Rattle.std.specs.Prelude.{◌≡◌, ℕ, ◌+◌, ◌<◌, ◌≤◌, List, [], ◌∷◌, ◌++◌, map, nat_eq, None, string_bytes, if◌then◌else◌, vec_len, OnOk, OnErr};
ghost use Rattle.std.specs.Rc.{rc_str_bytes};
ghost use Rattle.ui_machine.specs.Definition.Names.{place_named};
ghost use Rattle.param_specs.specs.View.{spec_view, specs_in, lists_of, AllNamed};
ghost use Rattle.param_specs.specs.Table.{AddsSpec, SameSpecs, own_of};

use crate::spec::Spec;
use indexmap::IndexMap;
use std::alloc::{AllocError, Global};

/// Adds empty lists until there are at least `len`. A list that is missing reads as empty, so no type's properties change.
///
/// # Errors
///
/// `AllocError` if memory is refused.
pub fn grow(
    alloc: Global,
    lists: &mut Vec<IndexMap<String, Spec>>,
    len: usize,
) -> Result<(), AllocError>
    ensures same { SameSpecs (lists_of (λ m. specs_in m.entries) lists.old.items) (lists_of (λ m. specs_in m.entries) lists.new.items) }
    ensures named { AllNamed (λ m. m.entries) lists.old.items → AllNamed (λ m. m.entries) lists.new.items }
    ensures ok { OnOk result (len ≤ vec_len lists.new) }
{
    'growing: while lists.len() < len {
        lists.push(IndexMap::new(alloc))?;
    }
    Ok(())
}

/// Adds a spec under its name to the list at `at`, which has no property of that name.
///
/// # Errors
///
/// `AllocError` if memory is refused.
pub fn add(
    lists: &mut Vec<IndexMap<String, Spec>>,
    at: usize,
    name: String,
    spec: Spec,
) -> Result<(), AllocError>
    requires within { at < vec_len lists.old }
    requires named { string_bytes name ≡ rc_str_bytes spec.name }
    requires new { place_named (λ s. s.name) (own_of (lists_of (λ m. specs_in m.entries) lists.old.items) at) (string_bytes name) ≡ None }
    requires all { AllNamed (λ m. m.entries) lists.old.items }
    ensures ok { OnOk result (AddsSpec (lists_of (λ m. specs_in m.entries) lists.old.items) (lists_of (λ m. specs_in m.entries) lists.new.items) at (spec_view spec)) }
    ensures err { OnErr result (SameSpecs (lists_of (λ m. specs_in m.entries) lists.old.items) (lists_of (λ m. specs_in m.entries) lists.new.items)) }
    ensures named { AllNamed (λ m. m.entries) lists.new.items }
{
    lists[at].insert(name, spec)?;
    Ok(())
}
