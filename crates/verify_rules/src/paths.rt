//! The paths of a definition's parts in its document.

ghost use Rattle.std.specs.Prelude.{◌≡◌, ◌<◌, ◌++◌, length, string_bytes, IfOk};
ghost use Rattle.ui_machine.specs.Output.Text.{no_type};
ghost use Rattle.ui_machine.specs.Seq.{read};
ghost use Rattle.definition_format.specs.Meaning.{place_number};
ghost use Rattle.law_typing.specs.Verdict.FaultText.{before_in_list, binding_path, class_path, entry_of, handling_path, is_beside, is_class, path_within, place_path, same_parent};
ghost use Rattle.verify_rules.specs.Faults.{handling_view};
ghost use Rattle.definitions.specs.EntryView.{entry_view};
ghost use Rattle.verify_rules.specs.Places.{classes_before};

use crate::Handling;
use definitions::{Definition, ObjectEntry};
use std::alloc::{AllocError, Global};
use type_tree::{TypeId, TypeSort, TypeTree};
use ui_machine::Place;

// Returns the path of entry `number` of the list `member`.
fn entry_of(alloc: Global, member: &str, number: usize) -> Result<String, AllocError>
    ensures { IfOk result (λ text. string_bytes text ≡ entry_of member.now number) }
{
    format!(in alloc; "/{member}/{number}")
}

// Returns whether a type is a class.
fn is_class(types: &TypeTree, t: TypeId) -> bool
    requires { t < length types.now }
    ensures { result ≡ is_class (read no_type types.now t) }
{
    matches!(types.sort(t), TypeSort::Class)
}

// Returns the number of classes before a type.
fn classes_before(types: &TypeTree, class: TypeId) -> usize
    ensures { result ≡ classes_before types.now class }
{
    let mut count = 0;
    for number in 0..class.index().min(types.len()) {
        if is_class(types, TypeId::new(number as u16)) {
            count += 1;
        }
    }
    count
}

// Returns the path of a class.
fn class_path(alloc: Global, definition: &Definition, class: TypeId) -> Result<String, AllocError>
    ensures { IfOk result (λ text. string_bytes text ≡ class_path definition.now class) }
{
    let before = classes_before(definition.types(), class);
    entry_of(alloc, "classes", before.saturating_sub(2))
}

// Returns whether two objects have the same parent, or both have none.
fn same_parent(parent: Option<Place>, other: Option<Place>) -> bool
    ensures { result ≡ same_parent (place_number parent) (place_number other) }
{
    match parent {
        None => other.is_none(),
        Some(parent) => match other {
            None => false,
            Some(other) => parent.0 == other.0,
        },
    }
}

// Returns whether two places are in the same list of the document.
fn is_beside(entry: &ObjectEntry<'_>, other: &ObjectEntry<'_>) -> bool
    ensures { result ≡ is_beside (entry_view entry.now) (entry_view other.now) }
{
    if entry.is_prototype {
        return other.is_prototype;
    }
    !other.is_prototype && same_parent(entry.parent, other.parent)
}

// Returns how many places before this one are in the same list.
fn before_in_list(definition: &Definition, place: usize, entry: &ObjectEntry<'_>) -> usize
    ensures { result ≡ before_in_list definition.now place (entry_view entry.now) }
{
    let mut count = 0;
    for number in 0..place.min(definition.place_count()) {
        let Some(other) = definition.object(number) else {
            return count;
        };
        if is_beside(entry, &other) {
            count += 1;
        }
    }
    count
}

// Joins two texts.
fn joined(alloc: Global, text: &str, more: &str) -> Result<String, AllocError>
    ensures { IfOk result (λ whole. string_bytes whole ≡ text.now ++ more.now) }
{
    format!(in alloc; "{text}{more}")
}

// Returns the path of a place that has at most `steps` places above it. Each step leads from a child to its parent.
fn path_within(
    alloc: Global,
    definition: &Definition,
    steps: u16,
    place: Place,
) -> Result<String, AllocError>
    ensures { IfOk result (λ text. string_bytes text ≡ path_within steps definition.now place.0) }
{
    let number = usize::from(place.0);
    let Some(entry) = definition.object(number) else {
        return String::from_str(alloc, "");
    };
    let before = before_in_list(definition, number, &entry);
    if entry.is_prototype {
        return entry_of(alloc, "prototypes", before);
    }
    let Some(parent) = entry.parent else {
        return entry_of(alloc, "objects", before);
    };
    let own = entry_of(alloc, "children", before)?;
    if steps == 0 {
        return Ok(own);
    }
    let above = path_within(alloc, definition, steps - 1, parent)?;
    joined(alloc, above.as_str(), own.as_str())
}

// Returns the path of a place.
fn place_path(alloc: Global, definition: &Definition, place: Place) -> Result<String, AllocError>
    ensures { IfOk result (λ text. string_bytes text ≡ place_path definition.now place.0) }
{
    path_within(alloc, definition, place.0, place)
}

/// Returns the path where a program is named that does not take what it is given there.
///
/// # Errors
///
/// `AllocError` if memory is refused.
pub(crate) fn handling_path(
    alloc: Global,
    definition: &Definition,
    handling: Handling,
) -> Result<String, AllocError>
    ensures { IfOk result (λ text. string_bytes text ≡ handling_path definition.now (handling_view handling)) }
{
    match handling {
        Handling::ClassHandler { class, number } => {
            let path = class_path(alloc, definition, class)?;
            let entry = entry_of(alloc, "class-handlers", number)?;
            joined(alloc, path.as_str(), entry.as_str())
        }
        Handling::Constructed(class) => {
            let path = class_path(alloc, definition, class)?;
            joined(alloc, path.as_str(), "/constructed")
        }
        Handling::Attached { place, number } => {
            let path = place_path(alloc, definition, place)?;
            let entry = entry_of(alloc, "signals", number)?;
            joined(alloc, path.as_str(), entry.as_str())
        }
    }
}

/// Returns the path of a binding.
///
/// # Errors
///
/// `AllocError` if memory is refused.
pub(crate) fn binding_path(
    alloc: Global,
    definition: &Definition,
    number: usize,
) -> Result<String, AllocError>
    ensures { IfOk result (λ text. string_bytes text ≡ binding_path definition.now number) }
{
    let Some(binding) = definition.binding(number) else {
        return String::from_str(alloc, "");
    };
    let path = place_path(alloc, definition, binding.target)?;
    let entry = entry_of(alloc, "properties", binding.at)?;
    let bind = joined(alloc, entry.as_str(), "/bind")?;
    joined(alloc, path.as_str(), bind.as_str())
}
