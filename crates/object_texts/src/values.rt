//! Values as JSON.

ghost use Rattle.std.specs.Prelude.{◌≡◌, ◌++◌, codes, decimal, IfOk, OnOk, string_bytes};
ghost use Rattle.std.specs.Fmt.{signed_decimal};
ghost use Rattle.serde_json.specs.Data.{string};
ghost use Rattle.serde_json.specs.Written.{compact_text};
ghost use Rattle.g_values.specs.View.{value_view};
ghost use Rattle.object_texts.specs.ObjectTexts.{quoted, truth_text, value_text};

use g_values::Value;
use itoa::Buffer;
use std::alloc::{AllocError, Global};
use type_tree::TypeTree;
use ui_machine::ObjectId;

/// Returns a value as JSON: a truth value, a number, a text or null, an enum's nick as a text, the number of flags, and an object as its
/// identity under `object`, or null.
///
/// # Errors
///
/// `AllocError` if memory is refused.
pub fn value_text(alloc: Global, types: &TypeTree, value: &Value) -> Result<String, AllocError>
    ensures { IfOk result (λ text. string_bytes text ≡ value_text types.now (value_view value.now)) }
{
    match value {
        Value::Bool(truth) => String::from_str(alloc, truth_text(*truth)),
        Value::Int(number) => signed_text(alloc, i64::from(*number)),
        Value::UInt(number) => unsigned_text(alloc, u64::from(*number)),
        Value::Int64(number) => signed_text(alloc, *number),
        Value::UInt64(number) => unsigned_text(alloc, *number),
        Value::Text(None) => String::from_str(alloc, "null"),
        Value::Text(Some(text)) => quoted(alloc, text.as_str()),
        Value::Enum(class, number) => quoted(alloc, types.nick(*class, *number)),
        Value::Flags(_, bits) => unsigned_text(alloc, u64::from(*bits)),
        Value::Object(_, None) => String::from_str(alloc, "null"),
        Value::Object(_, Some(object)) => identity_text(alloc, *object),
    }
}

/// Returns a text as a JSON string.
///
/// # Errors
///
/// `AllocError` if memory is refused.
#[tactic(auto, unfolding(crate::specs::ObjectTexts::quoted))]
pub(crate) fn quoted(alloc: Global, text: &str) -> Result<String, AllocError>
    ensures { IfOk result (λ written. string_bytes written ≡ quoted text.now) }
{
    serde_json::Value::String(String::from_str(alloc, text)?).to_string(alloc)
}

/// Returns a truth value as JSON.
pub(crate) fn truth_text(truth: bool) -> &'static str
    ensures { result.now ≡ truth_text truth }
{
    if truth { "true" } else { "false" }
}

/// Appends a number in decimal.
///
/// # Errors
///
/// `AllocError` if memory is refused.
pub(crate) fn push_unsigned(text: &mut String, number: u64) -> Result<(), AllocError>
    ensures { OnOk result (string_bytes text.new ≡ string_bytes text.old ++ decimal number) }
{
    let mut digits = Buffer::new();
    text.push_str(digits.format(number))
}

// Returns a number in decimal.
fn unsigned_text(alloc: Global, number: u64) -> Result<String, AllocError>
    ensures { IfOk result (λ text. string_bytes text ≡ decimal number) }
{
    let mut digits = Buffer::new();
    String::from_str(alloc, digits.format(number))
}

// Returns a number in decimal, with its sign.
fn signed_text(alloc: Global, number: i64) -> Result<String, AllocError>
    ensures { IfOk result (λ text. string_bytes text ≡ signed_decimal number) }
{
    let mut digits = Buffer::new();
    String::from_str(alloc, digits.format(number))
}

// Returns an object's identity as a value.
fn identity_text(alloc: Global, object: ObjectId) -> Result<String, AllocError>
    ensures { IfOk result (λ text. string_bytes text ≡ codes "{\"object\":" ++ (decimal object.0 ++ codes "}")) }
{
    let mut text = String::from_str(alloc, "{\"object\":")?;
    push_unsigned(&mut text, object.0)?;
    text.push_str("}")?;
    Ok(text)
}
