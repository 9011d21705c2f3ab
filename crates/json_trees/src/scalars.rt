//! Reads values of kinds.

ghost use Rattle.std.specs.Prelude.{◌≡◌, IfOk};
ghost use Rattle.serde_json.specs.View as serde_json;
ghost use Rattle.json_trees.specs.Outermost.{outermost};
ghost use Rattle.json_trees.specs.View.{view};
ghost use Rattle.g_values.specs.View.{kind_view, value_view, value_kind, IsKnown};
ghost use Rattle.g_values.specs.Reading.{json_value};
ghost use Rattle.json_trees.specs.Reads.{Reads};

use crate::value::Value;
use g_values::{JsonError, Kind};
use std::alloc::{AllocError, Global};
use std::collections::BTreeMap;
use type_tree::TypeTree;

// Returns a value of `serde_json` with the same data, but with nothing in a list or an object.
fn outermost(alloc: Global, json: &Value) -> Result<serde_json::Value, AllocError>
    ensures { IfOk result (λ v. serde_json.view v ≡ outermost (view json.now)) }
{
    match json {
        Value::Null => Ok(serde_json::Value::Null),
        Value::Bool(truth) => Ok(serde_json::Value::Bool(*truth)),
        Value::Number(number) => Ok(serde_json::Value::Number(*number)),
        Value::String(text) => Ok(serde_json::Value::String(text.clone()?)),
        Value::Array(_) => Ok(serde_json::Value::Array(Vec::new(alloc))),
        Value::Object(_) => Ok(serde_json::Value::Object(BTreeMap::new(alloc))),
    }
}

/// Reads a value of a kind from JSON, as [`g_values::from_json`] does.
///
/// # Errors
///
/// Returns `WrongJson` if JSON of this type never denotes a value of the kind, `OutOfRange` if the number is outside the kind's range,
/// `UnknownMember` if no member has the name, nick or number, and `TextTooLong` if the text has more than 4,096 bytes. Returns
/// `OutOfMemory` instead of any of them if a copy of a text can't be allocated.
#[tactic(auto, using(crate::proofs::OutermostValues::same_value))]
pub fn from_json(
    alloc: Global,
    types: &TypeTree,
    json: &Value,
    kind: Kind,
) -> Result<g_values::Value, JsonError>
    requires { IsKnown types.now kind }
    ensures value { Reads value_view result (json_value types.now (kind_view kind) (view json.now)) }
    ensures kind { IfOk result (λ v. value_kind v ≡ kind_view kind) }
{
    let json = outermost(alloc, json)?;
    match g_values::from_json(alloc, types, &json, kind) {
        Ok(value) => Ok(value),
        Err(JsonError::OutOfMemory) => Err(JsonError::OutOfMemory),
        Err(JsonError::Refused(cause)) => Err(JsonError::Refused(cause)),
    }
}
