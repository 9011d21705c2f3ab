//! Calls of the crate `g_values`.

use crate::call_faults::CallFault;
use crate::words::{number, parts, seen};
use g_values::{
    JsonError, Kind, TransformError, Value, from_json, is_known, transform, transformable,
};
use std::alloc::Global;
use type_tree::{TypeId, TypeTree};
use ui_machine::ObjectId;

// Returns the kind that a word names, if it names one.
fn kind_named(word: &str) -> Option<Kind> {
    match word {
        "bool" => Some(Kind::Bool),
        "int" => Some(Kind::Int),
        "uint" => Some(Kind::UInt),
        "int64" => Some(Kind::Int64),
        "uint64" => Some(Kind::UInt64),
        "text" => Some(Kind::Text),
        "mode" => Some(Kind::Enum(TypeId::new(2))),
        "marks" => Some(Kind::Flags(TypeId::new(3))),
        "object" => Some(Kind::Object(TypeId::new(0))),
        _ => None,
    }
}

// Returns the low 32 bits of a number.
fn low_32(number: i128) -> u32 {
    number.rem_euclid(4294967296) as u32
}

// Returns the low 64 bits of a number.
fn low_64(number: i128) -> u64 {
    number.rem_euclid(18446744073709551616) as u64
}

// Returns the value of a kind that has this number: a truth value, a number of the kind, a member, bits, or an object. A text is null.
fn value_of(kind: Kind, number: i128) -> Value {
    match kind {
        Kind::Bool => Value::Bool(number != 0),
        Kind::Int => Value::Int(low_32(number).cast_signed()),
        Kind::UInt => Value::UInt(low_32(number)),
        Kind::Int64 => Value::Int64(low_64(number).cast_signed()),
        Kind::UInt64 => Value::UInt64(low_64(number)),
        Kind::Text => Value::Text(None),
        Kind::Enum(t) => Value::Enum(t, low_32(number).cast_signed()),
        Kind::Flags(t) => Value::Flags(t, low_32(number)),
        Kind::Object(t) => Value::Object(t, Some(ObjectId(low_64(number)))),
    }
}

// Returns the kind that a word names. The tree has to know it.
fn known_kind(tree: &TypeTree, word: &str) -> Result<Kind, CallFault> {
    let Some(kind) = kind_named(word) else {
        return Err(CallFault::Line);
    };
    let asked = kind;
    if is_known(tree, asked) {
        Ok(kind)
    } else {
        Err(CallFault::Line)
    }
}

/// Answers a call: `transform KIND NUMBER KIND`, `transformable KIND KIND`, `json KIND JSON`.
///
/// # Errors
///
/// Returns `Line` if the words are not a call.
pub fn answer_of_values(
    alloc: Global,
    tree: &TypeTree,
    call: &str,
    words: &str,
) -> Result<String, CallFault> {
    let (word, rest) = parts(words)?;
    let kind = known_kind(tree, word)?;
    match call {
        "transform" => transformed(alloc, tree, kind, rest),
        "transformable" => {
            let to = known_kind(tree, rest)?;
            seen(alloc, &transformable(tree, kind, to))
        }
        "json" => read(alloc, tree, word, rest),
        _ => Err(CallFault::Line),
    }
}

// Answers with the value of a kind and number, transformed to another kind.
fn transformed(
    alloc: Global,
    tree: &TypeTree,
    kind: Kind,
    words: &str,
) -> Result<String, CallFault> {
    let (from, to) = parts(words)?;
    let value = value_of(kind, number(from)?);
    let Some(to) = kind_named(to) else {
        return Err(CallFault::Line);
    };
    let asked = to;
    if !is_known(tree, asked) {
        return Err(CallFault::Line);
    }
    match transform(alloc, tree, &value, to) {
        Ok(value) => seen(alloc, &value),
        Err(TransformError::Refused(fault)) => seen(alloc, &fault),
        Err(TransformError::OutOfMemory) => Err(CallFault::OutOfMemory),
    }
}

// Answers with the value of a kind that a JSON text denotes.
fn read(alloc: Global, tree: &TypeTree, word: &str, text: &str) -> Result<String, CallFault> {
    let Ok(json) = serde_json::Value::from_str(alloc, text) else {
        return Err(CallFault::Line);
    };
    let Some(kind) = kind_named(word) else {
        return Err(CallFault::Line);
    };
    let asked = kind;
    if !is_known(tree, asked) {
        return Err(CallFault::Line);
    }
    match from_json(alloc, tree, &json, kind) {
        Ok(value) => seen(alloc, &value),
        Err(JsonError::Refused(fault)) => seen(alloc, &fault),
        Err(JsonError::OutOfMemory) => Err(CallFault::OutOfMemory),
    }
}
