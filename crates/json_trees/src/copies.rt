//! Copies of values of `serde_json`.

ghost use Rattle.std.specs.Prelude.{◌≡◌, IfOk};
ghost use Rattle.serde_json.specs.View as serde_json;
ghost use Rattle.json_trees.specs.View.{view, items_view, members_view};

use crate::value::Value;
use serde_json::Map;
use std::alloc::{AllocError, Global};

impl Value {
    /// Returns a value with the same data as one of `serde_json`.
    ///
    /// # Errors
    ///
    /// `AllocError` if memory is refused.
    pub fn copied(alloc: Global, json: &serde_json::Value) -> Result<Value, AllocError>
        ensures { IfOk result (λ v. view v ≡ serde_json.view json.now) }
    {
        copy(alloc, json)
    }
}

// Copies a value. It calls itself as deep as lists and objects nest.
#[cycle(copy)]
fn copy(alloc: Global, json: &serde_json::Value) -> Result<Value, AllocError>
    ensures { IfOk result (λ v. view v ≡ serde_json.view json.now) }
{
    match json {
        serde_json::Value::Null => Ok(Value::Null),
        serde_json::Value::Bool(truth) => Ok(Value::Bool(*truth)),
        serde_json::Value::Number(number) => Ok(Value::Number(*number)),
        serde_json::Value::String(text) => Ok(Value::String(text.clone()?)),
        serde_json::Value::Array(items) => Ok(Value::Array(copy_items(alloc, items)?)),
        serde_json::Value::Object(members) => Ok(Value::Object(copy_members(alloc, members)?)),
    }
}

// Copies the items of a list.
#[cycle(copy)]
fn copy_items(alloc: Global, items: &Vec<serde_json::Value>) -> Result<Vec<Value>, AllocError>
    ensures { IfOk result (λ v. items_view v.items ≡ serde_json.items_view items.now.items) }
{
    let mut copies = Vec::with_capacity(alloc, items.len())?;
    for item in items {
        copies.push(copy(alloc, item)?)?;
    }
    Ok(copies)
}

// Copies the members of an object.
#[cycle(copy)]
fn copy_members(
    alloc: Global,
    members: &Map<String, serde_json::Value>,
) -> Result<Vec<(String, Value)>, AllocError>
    ensures { IfOk result (λ v. members_view v.items ≡ serde_json.members_view members.now.entries) }
{
    let mut copies = Vec::with_capacity(alloc, members.len())?;
    for (key, member) in members.iter() {
        let name = key.clone()?;
        copies.push((name, copy(alloc, member)?))?;
    }
    Ok(copies)
}
