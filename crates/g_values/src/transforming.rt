//! Transformations of values from one kind to another.

ghost use Rattle.std.specs.Prelude.{◌≡◌, pos, ◌<ℤ◌, ◌≤ℤ◌, neg_ℤ, List, true, unsigned_abs, Option, option_map};
ghost use Rattle.std.specs.Rc.{rc_str_bytes};
ghost use Rattle.ui_machine.specs.Definition.Kinds.{Whole};
ghost use Rattle.ui_machine.specs.Definition.Kinds as kinds;
ghost use Rattle.ui_machine.specs.Definition.Values as values;
ghost use Rattle.ui_machine.specs.Definition.Types.{GType, enum, flags};
ghost use Rattle.ui_machine.specs.Output.Text.{members_of};
ghost use Rattle.type_tree.specs.Adding.{sort_of};
ghost use Rattle.ui_machine.specs.Rules.Transform.{is_transformable, converted, transformed, has_number, is_known, if_so};
ghost use Rattle.g_values.specs.View.{kind_view, value_view, value_kind, is_whole_kind, IsKnown, Becomes, BecomesWhole, Yields, Transforms};

use crate::error::{TransformError, TransformFault};
use crate::kind::Kind;
use crate::members::known_flags;
use crate::value::{Value, kind_of};
use crate::whole::{number_text, wrapped_int, wrapped_int64, wrapped_uint, wrapped_uint64};
use std::alloc::{AllocError, Global};
use std::rc::RcStr;
use type_tree::{TypeId, TypeTree};
use ui_machine::ObjectId;

/// Returns whether values of the kind `from` may be transformed to the kind `to`.
pub fn transformable(tree: &TypeTree, from: Kind, to: Kind) -> bool
    ensures { result ≡ is_transformable tree.now (kind_view from) (kind_view to) }
{
    match from {
        Kind::Bool => is_whole(to) || matches!(to, Kind::Bool | Kind::Text),
        Kind::Int | Kind::UInt | Kind::Int64 | Kind::UInt64 => !matches!(to, Kind::Object(_)),
        Kind::Text => matches!(to, Kind::Text),
        Kind::Enum(t) => is_whole(to) || to == Kind::Enum(t),
        Kind::Flags(t) => is_whole(to) || to == Kind::Flags(t),
        Kind::Object(t) => match to {
            Kind::Object(u) => tree.is_a(t, u),
            _ => false,
        },
    }
}

// Returns whether a kind is one of the four integer kinds.
fn is_whole(kind: Kind) -> bool
    ensures { result ≡ is_whole_kind (kind_view kind) }
{
    matches!(kind, Kind::Int | Kind::UInt | Kind::Int64 | Kind::UInt64)
}

// Wraps a number to an integer kind. Returns `None` for other kinds.
fn whole_value(number: i128, kind: Kind) -> Option<Value>
    ensures { BecomesWhole result (kind_view kind) number }
{
    match kind {
        Kind::Int => Some(Value::Int(wrapped_int(number))),
        Kind::UInt => Some(Value::UInt(wrapped_uint(number))),
        Kind::Int64 => Some(Value::Int64(wrapped_int64(number))),
        Kind::UInt64 => Some(Value::UInt64(wrapped_uint64(number))),
        Kind::Bool => None,
        Kind::Text => None,
        Kind::Enum(_) => None,
        Kind::Flags(_) => None,
        Kind::Object(_) => None,
    }
}

// Transforms a boolean to a kind.
fn from_bool(
    alloc: Global,
    tree: &TypeTree,
    value: bool,
    kind: Kind,
) -> Result<Option<Value>, AllocError>
    ensures { Yields result (kind_view kind) (converted tree.now (kind_view kind) (values.bool value)) }
{
    match kind {
        Kind::Bool => Ok(Some(Value::Bool(value))),
        Kind::Text => {
            let text = RcStr::from_str(alloc, if value { "TRUE" } else { "FALSE" })?;
            Ok(Some(Value::Text(Some(text))))
        }
        _ => Ok(whole_value(i128::from(value), kind)),
    }
}

// Transforms an integer to a kind.
fn from_number(
    alloc: Global,
    tree: &TypeTree,
    number: i128,
    kind: Kind,
) -> Result<Option<Value>, AllocError>
    requires known { IsKnown tree.now kind }
    requires low { neg_ℤ (pos 9223372036854775808) ≤ℤ number }
    requires high { number <ℤ pos 18446744073709551616 }
    ensures { (k : Whole) → Yields result (kind_view kind) (converted tree.now (kind_view kind) (values.whole k number)) }
{
    match kind {
        Kind::Bool => Ok(Some(Value::Bool(number != 0))),
        Kind::Text => {
            let text = number_text(alloc, number)?;
            Ok(Some(Value::Text(Some(text))))
        }
        Kind::Enum(t) => Ok(enum_value(tree, t, number)),
        Kind::Flags(t) => Ok(flags_value(tree, t, number)),
        Kind::Object(_) => Ok(None),
        Kind::Int => Ok(whole_value(number, kind)),
        Kind::UInt => Ok(whole_value(number, kind)),
        Kind::Int64 => Ok(whole_value(number, kind)),
        Kind::UInt64 => Ok(whole_value(number, kind)),
    }
}

// Transforms a number to an enum. Returns `None` if no member has it.
fn enum_value(tree: &TypeTree, t: TypeId, number: i128) -> Option<Value>
    requires { sort_of tree.now t ≡ enum }
    ensures { Becomes result (kinds.enum t) (if_so (has_number (members_of tree.now t) number) (values.enum t number)) }
{
    let number = tree.member_number(t, number)?;
    Some(Value::Enum(t, number))
}

// Transforms a number to a flags type. Returns `None` if it is negative or has a bit that no member has.
fn flags_value(tree: &TypeTree, t: TypeId, number: i128) -> Option<Value>
    requires { sort_of tree.now t ≡ flags }
    ensures { Becomes result (kinds.flags t) (if_so (is_known (members_of tree.now t) number) (values.flags t (unsigned_abs number))) }
{
    let bits = known_flags(tree, t, number)?;
    Some(Value::Flags(t, bits))
}

// Transforms a text to a kind. Returns `None` unless the kind is text.
fn from_text(text: &Option<RcStr>, kind: Kind) -> Result<Option<Value>, AllocError>
    ensures { (tree : List GType) → Yields result (kind_view kind) (converted tree (kind_view kind) (values.text (option_map rc_str_bytes text.now))) }
{
    match kind {
        Kind::Text => match text {
            Some(text) => Ok(Some(Value::Text(Some(text.clone()?)))),
            None => Ok(Some(Value::Text(None))),
        },
        Kind::Bool | Kind::Int | Kind::UInt | Kind::Int64 | Kind::UInt64 => Ok(None),
        Kind::Enum(_) | Kind::Flags(_) | Kind::Object(_) => Ok(None),
    }
}

// Transforms an enum value to a kind for which this is allowed.
fn from_enum(tree: &TypeTree, t: TypeId, number: i32, kind: Kind) -> Option<Value>
    requires { is_transformable tree.now (kinds.enum t) (kind_view kind) ≡ true }
    ensures { Becomes result (kind_view kind) (converted tree.now (kind_view kind) (values.enum t number)) }
{
    match kind {
        Kind::Enum(_) => Some(Value::Enum(t, number)),
        Kind::Int | Kind::UInt | Kind::Int64 | Kind::UInt64 => whole_value(
            i128::from(number),
            kind,
        ),
        Kind::Bool | Kind::Text | Kind::Flags(_) | Kind::Object(_) => None,
    }
}

// Transforms bits of a flags type to a kind for which this is allowed.
fn from_flags(tree: &TypeTree, t: TypeId, bits: u32, kind: Kind) -> Option<Value>
    requires { is_transformable tree.now (kinds.flags t) (kind_view kind) ≡ true }
    ensures { Becomes result (kind_view kind) (converted tree.now (kind_view kind) (values.flags t bits)) }
{
    match kind {
        Kind::Flags(_) => Some(Value::Flags(t, bits)),
        Kind::Int | Kind::UInt | Kind::Int64 | Kind::UInt64 => whole_value(i128::from(bits), kind),
        Kind::Bool | Kind::Text | Kind::Enum(_) | Kind::Object(_) => None,
    }
}

// Transforms an object to a kind. Returns `None` unless the kind is one of objects.
fn from_object(id: Option<ObjectId>, kind: Kind) -> Option<Value>
    ensures { (tree : List GType) → Becomes result (kind_view kind) (converted tree (kind_view kind) (values.object (option_map (λ o. o.0) id))) }
{
    match kind {
        Kind::Object(u) => Some(Value::Object(u, id)),
        Kind::Bool | Kind::Text | Kind::Enum(_) | Kind::Flags(_) => None,
        Kind::Int | Kind::UInt | Kind::Int64 | Kind::UInt64 => None,
    }
}

// Transforms a value to a kind for which this is allowed. Returns `None` if the value has no counterpart in it.
fn convert(
    alloc: Global,
    tree: &TypeTree,
    value: &Value,
    kind: Kind,
) -> Result<Option<Value>, AllocError>
    requires known { IsKnown tree.now kind }
    requires transformable { is_transformable tree.now (value_kind value.now) (kind_view kind) ≡ true }
    ensures { Yields result (kind_view kind) (converted tree.now (kind_view kind) (value_view value.now)) }
{
    match value {
        Value::Bool(b) => from_bool(alloc, tree, *b, kind),
        Value::Int(n) => from_number(alloc, tree, i128::from(*n), kind),
        Value::UInt(n) => from_number(alloc, tree, i128::from(*n), kind),
        Value::Int64(n) => from_number(alloc, tree, i128::from(*n), kind),
        Value::UInt64(n) => from_number(alloc, tree, i128::from(*n), kind),
        Value::Text(text) => from_text(text, kind),
        Value::Enum(t, n) => Ok(from_enum(tree, *t, *n, kind)),
        Value::Flags(t, bits) => Ok(from_flags(tree, *t, *bits, kind)),
        Value::Object(_, id) => Ok(from_object(*id, kind)),
    }
}

/// Transforms a value to another kind. Integers keep their low bits in two's complement.
///
/// # Errors
///
/// Returns `NoTransform` if no value of the one kind can be transformed to the other, `NotAMember` if no member of the enum has the number
/// or the number is negative or has a bit that no member of the flags type has, and `OutOfMemory` if memory is refused.
pub fn transform(
    alloc: Global,
    tree: &TypeTree,
    value: &Value,
    kind: Kind,
) -> Result<Value, TransformError>
    requires { IsKnown tree.now kind }
    ensures { Transforms result tree.now (value_kind value.now) (kind_view kind) (value_view value.now) }
{
    let to = kind;
    if transformable(tree, kind_of(value), to) {
        transform_one(alloc, tree, value, kind)
    } else {
        Err(TransformError::Refused(TransformFault::NoTransform))
    }
}

// Transforms a value to a kind for which this is allowed.
fn transform_one(
    alloc: Global,
    tree: &TypeTree,
    value: &Value,
    kind: Kind,
) -> Result<Value, TransformError>
    requires known { IsKnown tree.now kind }
    requires transformable { is_transformable tree.now (value_kind value.now) (kind_view kind) ≡ true }
    ensures { Transforms result tree.now (value_kind value.now) (kind_view kind) (value_view value.now) }
{
    let becomes = convert(alloc, tree, value, kind)?;
    match becomes {
        Some(value) => Ok(value),
        None => Err(TransformError::Refused(TransformFault::NotAMember)),
    }
}
