//! The set of the names of a definition's bindings.

ghost use Rattle.std.specs.Prelude.{◌≡◌, ◌||◌, ℕ, List, IfOk, OnOk, option_map};
ghost use Rattle.std.specs.List.{list_any};
ghost use Rattle.std.specs.BTreeSet.{contains_text};
ghost use Rattle.law_typing.specs.Rules.Typing.{is_called};
ghost use Rattle.verify_operands.specs.BindNames.{name_at};
ghost use Rattle.verify_operands.specs.Parts.{is_named};

use definitions::Definition;
use std::alloc::{AllocError, Global};
use std::collections::BTreeSet;

// Collects the names of the bindings.
pub(crate) fn names_of(
    alloc: Global,
    definition: &Definition,
) -> Result<BTreeSet<String>, AllocError>
    ensures { (name : List ℕ) → IfOk result (λ names. contains_text names name ≡ list_any (is_named name) definition.now.bindings) }
{
    let mut names = BTreeSet::new(alloc);
    for number in 0..definition.binding_count() {
        add_name(alloc, &mut names, name_at(definition, number))?;
    }
    Ok(names)
}

// Returns the name of the binding with this number, if it has one.
fn name_at(definition: &Definition, number: usize) -> Option<&str>
    ensures { option_map (λ s. s.now) result ≡ name_at definition.now.bindings number }
{
    let bind = definition.binding(number)?;
    match &bind.name {
        Some(name) => Some(name.as_str()),
        None => None,
    }
}

// Adds a name, if there is one.
fn add_name(
    alloc: Global,
    names: &mut BTreeSet<String>,
    own: Option<&str>,
) -> Result<(), AllocError>
    ensures { (name : List ℕ) → OnOk result (contains_text names.new name ≡ (contains_text names.old name || is_called name (option_map (λ s. s.now) own.entry))) }
{
    if let Some(text) = own {
        names.insert(String::from_str(alloc, text)?)?;
    }
    Ok(())
}
