//! Objects as JSON.

ghost use Rattle.std.specs.Prelude.{◌≡◌, ◌++◌, codes, map, IfOk, OnOk, string_bytes};
ghost use Rattle.ui_machine.specs.Definition.Lookups.{type_of};
ghost use Rattle.definitions.specs.EntryView.{entry_view};
ghost use Rattle.instance_tables.specs.Store.{id_of, ids_of};
ghost use Rattle.object_texts.specs.ObjectTexts.{family_text, number_text, numbers_text, object_text, origin_text, quoted, truth_text};

use crate::values::{push_unsigned, quoted, truth_text};
use definitions::{Definition, ObjectEntry};
use instance_tables::Object;
use std::alloc::{AllocError, Global};
use ui_machine::ObjectId;

/// Returns an object as JSON: the id of the place that it was made from, whether that is a prototype, and the object's class, parent,
/// children in their order, and whether it is disposed. Other objects are named by their identities.
///
/// # Errors
///
/// `AllocError` if memory is refused.
pub fn object_text(
    alloc: Global,
    definition: &Definition,
    place: &ObjectEntry<'_>,
    object: &Object,
) -> Result<String, AllocError>
    ensures { IfOk result (λ text. string_bytes text ≡ object_text definition.now (entry_view place.now) object.now) }
{
    let mut text = origin_text(alloc, definition, place, object)?;
    push_family(&mut text, object)?;
    text.push_str(",\"disposed\":")?;
    text.push_str(truth_text(object.is_disposed()))?;
    text.push_str("}")?;
    Ok(text)
}

// Returns the beginning of an object's text, which says from which place it was made, and its class.
fn origin_text(
    alloc: Global,
    definition: &Definition,
    place: &ObjectEntry<'_>,
    object: &Object,
) -> Result<String, AllocError>
    ensures { IfOk result (λ text. string_bytes text ≡ origin_text definition.now (entry_view place.now) object.now) }
{
    let id = quoted(alloc, place.id)?;
    let class = class_text(alloc, definition, object)?;
    named_text(alloc, id.as_str(), place.is_prototype, class.as_str())
}

// Returns the name of an object's class as a JSON string.
fn class_text(alloc: Global, definition: &Definition, object: &Object) -> Result<String, AllocError>
    ensures { IfOk result (λ text. string_bytes text ≡ quoted (type_of definition.now object.now.class).name) }
{
    quoted(alloc, definition.class_name(object.class()))
}

// Returns the beginning of an object's text, of an id and the name of a class that are JSON strings already.
fn named_text(
    alloc: Global,
    id: &str,
    is_prototype: bool,
    class: &str,
) -> Result<String, AllocError>
    ensures { IfOk result (λ text. string_bytes text ≡ codes "{\"id\":" ++ id.now ++ codes ",\"prototype\":" ++ truth_text is_prototype ++ codes ",\"class\":" ++ class.now) }
{
    let mut text = String::from_str(alloc, "{\"id\":")?;
    text.push_str(id)?;
    text.push_str(",\"prototype\":")?;
    text.push_str(truth_text(is_prototype))?;
    text.push_str(",\"class\":")?;
    text.push_str(class)?;
    Ok(text)
}

// Appends the parent and the children of an object.
fn push_family(text: &mut String, object: &Object) -> Result<(), AllocError>
    ensures { OnOk result (string_bytes text.new ≡ string_bytes text.old ++ family_text object.now) }
{
    text.push_str(",\"parent\":")?;
    push_identity(text, object.parent())?;
    text.push_str(",\"children\":[")?;
    push_identities(text, object.children())?;
    text.push_str("]")
}

// Appends an identity, or null.
fn push_identity(text: &mut String, id: Option<ObjectId>) -> Result<(), AllocError>
    ensures { OnOk result (string_bytes text.new ≡ string_bytes text.old ++ number_text (id_of id)) }
{
    match id {
        Some(id) => push_unsigned(text, id.0),
        None => text.push_str("null"),
    }
}

// Appends identities, joined by commas.
fn push_identities(text: &mut String, ids: &[ObjectId]) -> Result<(), AllocError>
    ensures { OnOk result (string_bytes text.new ≡ string_bytes text.old ++ numbers_text (ids_of ids.now)) }
{
    let mut left = ids;
    'ids: while let [id, others @ ..] = left {
        push_unsigned(text, id.0)?;
        if !others.is_empty() {
            text.push_str(",")?;
        }
        left = others;
    }
    Ok(())
}
