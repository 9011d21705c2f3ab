//! Values read from JSON.

ghost use Rattle.std.specs.Prelude.{◌≡◌, ◌≤ℤ◌, ℤ, pos, option_map, IfOk};
ghost use Rattle.std.specs.Rc.{rc_str_bytes};
ghost use Rattle.serde_json.specs.View.{view};
ghost use Rattle.serde_json.specs.Find.{as_null, as_bool, as_str};
ghost use Rattle.ui_machine.specs.Definition.Types.{enum, flags};
ghost use Rattle.ui_machine.specs.Output.Text.{members_of};
ghost use Rattle.type_tree.specs.Adding.{sort_of};
ghost use Rattle.g_values.specs.View.{kind_view, value_view, value_kind, IsKnown};
ghost use Rattle.g_values.specs.Reading.{whole_number, number_between, enum_number, flags_bits, text_or_null, expected, json_value, Means};

use crate::error::{JsonError, JsonFault};
use crate::kind::Kind;
use crate::naming::bits_named;
use crate::value::Value;
use std::alloc::Global;
use std::rc::RcStr;
use type_tree::{TypeId, TypeTree};

/// The most bytes of a text.
pub const MOST_TEXT_BYTES: usize = 4_096;

/// Reads a value of a kind from JSON: true or false, a whole number, a text or null, an enum member by its name, nick or number, flags as a
/// number or as names and nicks between bars. For an object only null can be read.
///
/// # Errors
///
/// Returns `WrongJson` if JSON of this type never denotes a value of the kind, `OutOfRange` if the number is outside the kind's range,
/// `UnknownMember` if no member has the name, nick or number, `TextTooLong` if the text has more than 4,096 bytes, and `OutOfMemory` if
/// memory is refused.
pub fn from_json(
    alloc: Global,
    tree: &TypeTree,
    json: &serde_json::Value,
    kind: Kind,
) -> Result<Value, JsonError>
    requires { IsKnown tree.now kind }
    ensures value { Means value_view result (json_value tree.now (kind_view kind) (view json.now)) }
    ensures kind { IfOk result (λ v. value_kind v ≡ kind_view kind) }
{
    match kind {
        Kind::Bool => Ok(Value::Bool(truth_in(json)?)),
        Kind::Int => {
            let number = number_in(json, i128::from(i32::MIN), i128::from(i32::MAX))?;
            Ok(Value::Int(number as i32))
        }
        Kind::UInt => {
            let number = number_in(json, 0, i128::from(u32::MAX))?;
            Ok(Value::UInt(number as u32))
        }
        Kind::Int64 => {
            let number = number_in(json, i128::from(i64::MIN), i128::from(i64::MAX))?;
            Ok(Value::Int64(number as i64))
        }
        Kind::UInt64 => {
            let number = number_in(json, 0, i128::from(u64::MAX))?;
            Ok(Value::UInt64(number as u64))
        }
        Kind::Text => Ok(Value::Text(text_in(alloc, json)?)),
        Kind::Enum(t) => Ok(Value::Enum(t, enum_number_in(tree, t, json)?)),
        Kind::Flags(t) => Ok(Value::Flags(t, bits_in(tree, t, json)?)),
        Kind::Object(t) => {
            null_in(json)?;
            Ok(Value::Object(t, None))
        }
    }
}

// Reads a boolean.
fn truth_in(json: &serde_json::Value) -> Result<bool, JsonFault>
    ensures { result ≡ expected (as_bool (view json.now)) }
{
    json.as_bool().ok_or(JsonFault::WrongJson)
}

// Reads null.
fn null_in(json: &serde_json::Value) -> Result<(), JsonFault>
    ensures { result ≡ expected (as_null (view json.now)) }
{
    json.as_null().ok_or(JsonFault::WrongJson)
}

// Reads a whole number of 64 bits, signed or unsigned.
fn whole_number(json: &serde_json::Value) -> Option<i128>
    ensures { result ≡ whole_number (view json.now) }
{
    json.as_number()?.as_i128()
}

// Reads a whole number from `low` to `high`, both included.
fn number_in(json: &serde_json::Value, low: i128, high: i128) -> Result<i128, JsonFault>
    ensures number { result ≡ number_between low high (whole_number (view json.now)) }
    ensures low { IfOk result (λ n. low ≤ℤ n) }
    ensures high { IfOk result (λ n. n ≤ℤ high) }
{
    let Some(number) = whole_number(json) else {
        return Err(JsonFault::WrongJson);
    };
    if number < low || number > high {
        return Err(JsonFault::OutOfRange);
    }
    Ok(number)
}

// Reads null or a text of at most `MOST_TEXT_BYTES` bytes.
fn text_in(alloc: Global, json: &serde_json::Value) -> Result<Option<RcStr>, JsonError>
    ensures { Means (option_map rc_str_bytes) result (text_or_null (view json.now)) }
{
    if json.is_null() {
        return Ok(None);
    }
    let Some(text) = json.as_str() else {
        return Err(JsonError::Refused(JsonFault::WrongJson));
    };
    if text.len() > MOST_TEXT_BYTES {
        return Err(JsonError::Refused(JsonFault::TextTooLong));
    }
    let text = RcStr::from_str(alloc, text)?;
    Ok(Some(text))
}

// Reads the number of an enum member, given by its name or nick or as the number itself.
fn enum_number_in(tree: &TypeTree, t: TypeId, json: &serde_json::Value) -> Result<i32, JsonFault>
    requires { sort_of tree.now t ≡ enum }
    ensures { result ≡ enum_number (members_of tree.now t) (as_str (view json.now)) (whole_number (view json.now)) }
{
    if let Some(word) = json.as_str() {
        return tree.number_called(t, word).ok_or(JsonFault::UnknownMember);
    }
    let number = number_in(json, i128::from(i32::MIN), i128::from(i32::MAX))?;
    if tree.has_number(t, number) {
        Ok(number as i32)
    } else {
        Err(JsonFault::UnknownMember)
    }
}

// Reads bits of a flags type, given by names and nicks or as any number of 32 bits.
fn bits_in(tree: &TypeTree, t: TypeId, json: &serde_json::Value) -> Result<u32, JsonFault>
    requires { sort_of tree.now t ≡ flags }
    ensures { result ≡ flags_bits (members_of tree.now t) (as_str (view json.now)) (whole_number (view json.now)) }
{
    if let Some(text) = json.as_str() {
        return bits_named(tree, t, text).ok_or(JsonFault::UnknownMember);
    }
    let number = number_in(json, 0, i128::from(u32::MAX))?;
    Ok(number as u32)
}
