//! The interfaces of a class.

ghost use Rattle.std.specs.Prelude.{◌≡◌, ◌<◌, ◌++◌, [], ◌∷◌, cond, IfOk, OnOk, length, map, string_bytes};
ghost use Rattle.class_texts.specs.ClassTexts.{implements, interfaces_of, type_text};
ghost use Rattle.class_texts.specs.Lists.{joined, list_text};

use crate::texts::quoted;
use definitions::Definition;
use std::alloc::{AllocError, Global};
use type_tree::{TypeId, TypeSort, TypeTree};

/// Returns the names of the interfaces that a class implements, itself or by an ancestor, as a JSON list.
///
/// # Errors
///
/// `AllocError` if memory is refused.
pub(crate) fn interfaces_text(
    alloc: Global,
    definition: &Definition,
    class: TypeId,
) -> Result<String, AllocError>
    ensures { IfOk result (λ text. string_bytes text ≡ list_text (map (type_text definition.now) (interfaces_of definition.now.types class))) }
{
    let interfaces = interfaces(alloc, definition.types(), class)?;
    let mut text = String::from_str(alloc, "[")?;
    push_types(alloc, &mut text, definition, interfaces.as_slice())?;
    text.push_str("]")?;
    Ok(text)
}

// Collects the interfaces that a class implements, itself or by an ancestor, in the order in which they are declared.
fn interfaces(alloc: Global, types: &TypeTree, class: TypeId) -> Result<Vec<TypeId>, AllocError>
    ensures { IfOk result (λ interfaces. interfaces.items ≡ interfaces_of types.now class) }
{
    let mut interfaces = Vec::new(alloc);
    // A tree has at most 256 types, as asking it for a parent ensures.
    let _parent = types.parent(class);
    for at in 0..types.len() {
        let t = TypeId::new(at as u16);
        push_if(&mut interfaces, implements(types, class, t), t)?;
    }
    Ok(interfaces)
}

// Appends a type if it is wanted.
fn push_if(types: &mut Vec<TypeId>, is_wanted: bool, t: TypeId) -> Result<(), AllocError>
    ensures { OnOk result (types.new.items ≡ types.old.items ++ cond is_wanted (t ∷ []) []) }
{
    if is_wanted {
        types.push(t)?;
    }
    Ok(())
}

// Returns whether a class implements an interface, itself or by an ancestor.
fn implements(types: &TypeTree, class: TypeId, t: TypeId) -> bool
    requires { t < length types.now }
    ensures { result ≡ implements types.now class t }
{
    types.sort(t) == TypeSort::Interface && types.is_a(class, t)
}

// Appends the names of types as JSON strings, joined by commas.
fn push_types(
    alloc: Global,
    text: &mut String,
    definition: &Definition,
    types: &[TypeId],
) -> Result<(), AllocError>
    ensures { OnOk result (string_bytes text.new ≡ string_bytes text.old ++ joined (map (type_text definition.now) types.now)) }
{
    let mut left = types;
    'types: while let [t, others @ ..] = left {
        let name = quoted(alloc, definition.class_name(*t))?;
        text.push_str(name.as_str())?;
        if !others.is_empty() {
            text.push_str(",")?;
        }
        left = others;
    }
    Ok(())
}
