//! Classes as JSON.

ghost use Rattle.std.specs.Prelude.{◌≡◌, IfOk, option_map, string_bytes};
ghost use Rattle.ui_machine.specs.Definition.Lookups.{type_of};
ghost use Rattle.class_texts.specs.ClassTexts.{class_origin, class_text, text_of_class, type_or_null};

use crate::interfaces::interfaces_text;
use crate::properties::properties_text;
use crate::signals::signals_text;
use crate::texts::{quoted, truth_text};
use definitions::Definition;
use std::alloc::{AllocError, Global};
use type_tree::TypeId;

/// Returns the class with this name as JSON, or `None` if no class has it: its name and parent, whether it is abstract or final, the interfaces
/// that it implements, its properties in the order of their slots, and its signals in the order of their numbers. What it inherits is there
/// too. A property or signal has the members that a definition gives it, and under `owner` the type that declares it.
///
/// # Errors
///
/// `AllocError` if memory is refused.
pub fn class_text(
    alloc: Global,
    definition: &Definition,
    name: &str,
) -> Result<Option<String>, AllocError>
    ensures { IfOk result (λ text. option_map string_bytes text ≡ class_text definition.now name.now) }
{
    let Some(class) = definition.types().find_class(name) else {
        return Ok(None);
    };
    let text = text_of_class(alloc, definition, class)?;
    Ok(Some(text))
}

// Returns a class.
fn text_of_class(
    alloc: Global,
    definition: &Definition,
    class: TypeId,
) -> Result<String, AllocError>
    ensures { IfOk result (λ text. string_bytes text ≡ text_of_class definition.now class) }
{
    let interfaces = interfaces_text(alloc, definition, class)?;
    let properties = properties_text(alloc, definition, class)?;
    let signals = signals_text(alloc, definition, class)?;
    let mut text = class_origin(alloc, definition, class)?;
    text.push_str(",\"interfaces\":")?;
    text.push_str(interfaces.as_str())?;
    text.push_str(",\"properties\":")?;
    text.push_str(properties.as_str())?;
    text.push_str(",\"signals\":")?;
    text.push_str(signals.as_str())?;
    text.push_str("}")?;
    Ok(text)
}

// Returns the beginning of a class's text: its name and parent, and whether it is abstract or final.
fn class_origin(alloc: Global, definition: &Definition, class: TypeId) -> Result<String, AllocError>
    ensures { IfOk result (λ text. string_bytes text ≡ class_origin definition.now (type_of definition.now class)) }
{
    let types = definition.types();
    let flags = types.flags(class);
    let name = quoted(alloc, definition.class_name(class))?;
    let parent = type_or_null(alloc, definition, types.parent(class))?;
    let mut text = String::from_str(alloc, "{\"name\":")?;
    text.push_str(name.as_str())?;
    text.push_str(",\"parent\":")?;
    text.push_str(parent.as_str())?;
    text.push_str(",\"abstract\":")?;
    text.push_str(truth_text(flags.is_abstract))?;
    text.push_str(",\"final\":")?;
    text.push_str(truth_text(flags.is_final))?;
    Ok(text)
}

// Returns the name of a type as a JSON string, or null.
fn type_or_null(
    alloc: Global,
    definition: &Definition,
    t: Option<TypeId>,
) -> Result<String, AllocError>
    ensures { IfOk result (λ text. string_bytes text ≡ type_or_null definition.now t) }
{
    match t {
        Some(t) => quoted(alloc, definition.class_name(t)),
        None => String::from_str(alloc, "null"),
    }
}
