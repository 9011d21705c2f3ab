//! The transformation of a value on its way from one property to another (GObject manual, GValue: `g_value_transform`, and GBinding).

ghost use Rattle.std.specs.Prelude.{◌≡◌, option_map, IfOk};
ghost use Rattle.ui_machine.specs.Rules.Transform.{converted, transformed};
ghost use Rattle.ui_machine.specs.Rules.Transfers.{inverted};
ghost use Rattle.g_values.specs.View.{IsKnown, kind_view, value_view};
ghost use Rattle.engine_world.specs.TransferView.{kept_in};

use g_values::{Kind, TransformError, Value, transform, transformable};
use std::alloc::{AllocError, Global};
use type_tree::TypeTree;

// Returns the value as it is if it and `to` are both objects, both enums or both flags, their types left aside, and None otherwise. The
// class of an object is that of the property, not its own.
fn kept_in(value: &Value, to: Kind) -> Option<Value>
    ensures { option_map value_view result ≡ kept_in (value_view value.now) (kind_view to) }
{
    match (value, to) {
        (Value::Object(_, id), Kind::Object(t)) => Some(Value::Object(t, *id)),
        (Value::Enum(t, n), Kind::Enum(_)) => Some(Value::Enum(*t, *n)),
        (Value::Flags(t, bits), Kind::Flags(_)) => Some(Value::Flags(*t, *bits)),
        _ => None,
    }
}

// Returns what a value becomes in a kind that its own goes to, or None if there is no such member.
fn converted(
    alloc: Global,
    types: &TypeTree,
    value: &Value,
    to: Kind,
) -> Result<Option<Value>, AllocError>
    requires known { IsKnown types.now to }
    ensures { IfOk result (λ v. option_map value_view v ≡ converted types.now (kind_view to) (value_view value.now)) }
{
    let kind = to;
    if let Some(same) = kept_in(value, kind) {
        return Ok(Some(same));
    }
    match transform(alloc, types, value, to) {
        Ok(value) => Ok(Some(value)),
        Err(TransformError::Refused(_)) => Ok(None),
        Err(TransformError::OutOfMemory) => Err(AllocError),
    }
}

/// Returns what a property's value becomes in the kind of another property, or None if the one kind does not go to the other or there is no
/// such member. The kinds are those of the properties, as a value that names an object knows its own class.
///
/// # Errors
///
/// `AllocError` if memory for a text is refused.
pub fn transformed(
    alloc: Global,
    types: &TypeTree,
    from: Kind,
    to: Kind,
    value: &Value,
) -> Result<Option<Value>, AllocError>
    requires known { IsKnown types.now to }
    ensures { IfOk result (λ v. option_map value_view v ≡ transformed types.now (kind_view from) (kind_view to) (value_view value.now)) }
{
    let kind = to;
    if !transformable(types, from, kind) {
        return Ok(None);
    }
    converted(alloc, types, value, to)
}

/// Returns the value as it is, or with `invert` the opposite of a truth value. What is no truth value has no opposite.
pub fn inverted(invert: bool, value: Option<Value>) -> Option<Value>
    ensures { option_map value_view result ≡ inverted invert (option_map value_view value) }
{
    if !invert {
        return value;
    }
    match value {
        Some(Value::Bool(b)) => Some(Value::Bool(!b)),
        _ => None,
    }
}
