//! Properties of a class as JSON.

ghost use Rattle.std.specs.Fmt.{signed_decimal};
ghost use Rattle.std.specs.Prelude.{◌≡◌, ◌++◌, codes, IfOk, OnOk, map, string_bytes};
ghost use Rattle.ui_machine.specs.Definition.Lookups.{specs_of};
ghost use Rattle.g_values.specs.View.{kind_view};
ghost use Rattle.param_specs.specs.View.{spec_view};
ghost use Rattle.object_texts.specs.ObjectTexts.{truth_text};
ghost use Rattle.class_texts.specs.ClassTexts.{property_origin, property_text, range_text};
ghost use Rattle.class_texts.specs.Lists.{joined, list_text};

use crate::flags::{property_words, words_text};
use crate::kinds::kind_text;
use crate::owners::property_owner;
use crate::texts::{push_separator, quoted, truth_text};
use definitions::Definition;
use g_values::Kind;
use itoa::Buffer;
use object_texts::value_text;
use param_specs::Spec;
use std::alloc::{AllocError, Global};
use type_tree::TypeId;
use ui_machine::Slot;

/// Returns the properties of a class, inherited ones first, as a JSON list in the order of the slots.
///
/// # Errors
///
/// `AllocError` if memory is refused.
pub(crate) fn properties_text(
    alloc: Global,
    definition: &Definition,
    class: TypeId,
) -> Result<String, AllocError>
    ensures { IfOk result (λ text. string_bytes text ≡ list_text (map (property_text definition.now class) (specs_of definition.now class))) }
{
    let mut text = String::from_str(alloc, "[")?;
    push_properties(alloc, &mut text, definition, class)?;
    text.push_str("]")?;
    Ok(text)
}

// Appends the properties of a class, joined by commas.
fn push_properties(
    alloc: Global,
    text: &mut String,
    definition: &Definition,
    class: TypeId,
) -> Result<(), AllocError>
    ensures { OnOk result (string_bytes text.new ≡ string_bytes text.old ++ joined (map (property_text definition.now class) (specs_of definition.now class))) }
{
    for slot in 0..definition.slots(class) {
        let Some(spec) = definition.spec(class, slot as Slot) else {
            unreachable!()
        };
        let property = property_text(alloc, definition, class, spec)?;
        push_separator(text, slot)?;
        text.push_str(property.as_str())?;
    }
    Ok(())
}

// Returns a property of a class.
fn property_text(
    alloc: Global,
    definition: &Definition,
    class: TypeId,
    spec: &Spec,
) -> Result<String, AllocError>
    ensures { IfOk result (λ text. string_bytes text ≡ property_text definition.now class (spec_view spec.now)) }
{
    let words = property_words(alloc, spec.flags)?;
    let flags = words_text(alloc, words.as_slice())?;
    let range = range_text(alloc, spec)?;
    let default = value_text(alloc, definition.types(), &spec.default)?;
    let mut text = property_origin(alloc, definition, class, spec)?;
    text.push_str(",\"flags\":")?;
    text.push_str(flags.as_str())?;
    text.push_str(range.as_str())?;
    text.push_str(",\"default\":")?;
    text.push_str(default.as_str())?;
    text.push_str("}")?;
    Ok(text)
}

// Returns the beginning of a property's text: its name, the class that declares it, and its kind.
fn property_origin(
    alloc: Global,
    definition: &Definition,
    class: TypeId,
    spec: &Spec,
) -> Result<String, AllocError>
    ensures { IfOk result (λ text. string_bytes text ≡ property_origin definition.now class (spec_view spec.now)) }
{
    let owner = property_owner(definition, class, spec.name.as_str());
    let name = quoted(alloc, spec.name.as_str())?;
    let owner = quoted(alloc, definition.class_name(owner))?;
    let kind = kind_text(alloc, definition, spec.kind)?;
    let mut text = String::from_str(alloc, "{\"name\":")?;
    text.push_str(name.as_str())?;
    text.push_str(",\"owner\":")?;
    text.push_str(owner.as_str())?;
    text.push_str(",\"kind\":")?;
    text.push_str(kind.as_str())?;
    Ok(text)
}

// Returns the ends of the range of a whole number, and for an object whether it is held weakly. Nothing else has such members.
fn range_text(alloc: Global, spec: &Spec) -> Result<String, AllocError>
    ensures { IfOk result (λ text. string_bytes text ≡ range_text (kind_view spec.now.kind) (spec_view spec.now)) }
{
    match spec.kind {
        Kind::Int | Kind::UInt | Kind::Int64 | Kind::UInt64 => {
            ends_text(alloc, spec.min, spec.max)
        }
        Kind::Object(_) => weak_text(alloc, spec.weak),
        Kind::Bool | Kind::Text | Kind::Enum(_) | Kind::Flags(_) => Ok(String::new(alloc)),
    }
}

// Returns the ends of a range.
fn ends_text(alloc: Global, min: i128, max: i128) -> Result<String, AllocError>
    ensures { IfOk result (λ text. string_bytes text ≡ codes ",\"min\":" ++ signed_decimal min ++ codes ",\"max\":" ++ signed_decimal max) }
{
    let mut digits = Buffer::new();
    let mut text = String::from_str(alloc, ",\"min\":")?;
    text.push_str(digits.format(min))?;
    text.push_str(",\"max\":")?;
    text.push_str(digits.format(max))?;
    Ok(text)
}

// Returns whether an object is held weakly.
fn weak_text(alloc: Global, weak: bool) -> Result<String, AllocError>
    ensures { IfOk result (λ text. string_bytes text ≡ codes ",\"weak\":" ++ truth_text weak) }
{
    let mut text = String::from_str(alloc, ",\"weak\":")?;
    text.push_str(truth_text(weak))?;
    Ok(text)
}
