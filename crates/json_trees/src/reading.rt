//! Reads a value from a text, in one pass over its tokens.

ghost use Rattle.std.specs.Prelude.{◌≡◌, ◌<◌, length, Some, None, Err, IfOk, OnOk};
ghost use Rattle.json.specs.Json.{value, items, members};
ghost use Rattle.serde_json.specs.Data.{no_members};
ghost use Rattle.serde_json.specs.Read.{of_json, of_items, of_members, converted, read as read_text};
ghost use Rattle.json_trees.specs.View.{view, items_view, members_view};

use crate::error::ReadFault;
use crate::numbers::number_in;
use crate::value::Value;
use json::{Reader, Scratch, Token};
use std::alloc::{AllocError, Global};
use std::collections::BTreeMap;

// The most levels that lists and objects may nest.
const MAX_DEPTH: usize = 127;

impl Value {
    /// Reads the value that a text is. Of a key that comes twice in an object the last value counts.
    ///
    /// # Errors
    ///
    /// Returns `NotJson` if the text is no JSON, nests more than 127 levels deep or has a number that is too large for a float, and
    /// `OutOfMemory` if memory is refused.
    pub fn from_str(alloc: Global, text: &str) -> Result<Value, ReadFault>
        ensures ok { IfOk result (λ v. read_text text.now ≡ Some (view v)) }
        ensures err { result ≡ Err ReadFault.NotJson → read_text text.now ≡ None }
        ensures memory { result ≡ Err ReadFault.OutOfMemory → 0 < length text.now }
    {
        let mut scratch = Scratch::new(alloc);
        read_whole(alloc, text, &mut scratch)
    }
}

// Reads a value that the text ends with.
fn read_whole(alloc: Global, text: &str, scratch: &mut Scratch) -> Result<Value, ReadFault>
    ensures ok { IfOk result (λ v. read_text text.now ≡ Some (view v)) }
    ensures err { result ≡ Err ReadFault.NotJson → read_text text.now ≡ None }
    ensures memory { result ≡ Err ReadFault.OutOfMemory → 0 < length text.now }
{
    let mut reader = Reader::new(text, scratch)?;
    let value = read(alloc, &mut reader, MAX_DEPTH)?;
    match reader.next() {
        Some(_) => Err(ReadFault::NotJson),
        None => Ok(value),
    }
}

// Reads a value that nests at most `depth` levels deep.
#[cycle(read)]
fn read(alloc: Global, reader: &mut Reader<'_>, depth: usize) -> Result<Value, ReadFault>
    ensures ok { IfOk result (λ v. converted of_json (value depth reader.old) ≡ Some (view v, reader.new)) }
    ensures shorter { OnOk result (length reader.new < length reader.old) }
    ensures err { result ≡ Err ReadFault.NotJson → converted of_json (value depth reader.old) ≡ None }
    ensures memory { result ≡ Err ReadFault.OutOfMemory → 0 < length reader.old }
{
    let token = reader.next().ok_or(ReadFault::NotJson)?;
    match token {
        Token::String(text) => Ok(Value::String(String::from_str(alloc, text)?)),
        Token::Number(text) => match number_in(text) {
            Some(number) => Ok(Value::Number(number)),
            None => Err(ReadFault::NotJson),
        },
        Token::Bool(truth) => Ok(Value::Bool(truth)),
        Token::Null => Ok(Value::Null),
        Token::EndObject | Token::EndArray | Token::Key(_) | Token::Bad => Err(ReadFault::NotJson),
        Token::BeginArray => {
            if depth == 0 {
                return Err(ReadFault::NotJson);
            }
            Ok(Value::Array(read_items(alloc, reader, depth - 1)?))
        }
        Token::BeginObject => {
            if depth == 0 {
                return Err(ReadFault::NotJson);
            }
            Ok(Value::Object(read_members(alloc, reader, depth - 1)?))
        }
    }
}

// Returns a list of the same items with room for just these.
fn fitted<T: Drop>(alloc: Global, mut items: Vec<T>) -> Result<Vec<T>, AllocError>
    ensures { IfOk result (λ v. v.items ≡ items.items) }
{
    let mut all = Vec::with_capacity(alloc, items.len())?;
    all.append(&mut items)?;
    Ok(all)
}

// Reads the items of a list after its opening bracket.
#[cycle(read)]
#[inline(never)]
fn read_items(alloc: Global, reader: &mut Reader<'_>, depth: usize) -> Result<Vec<Value>, ReadFault>
    ensures ok { IfOk result (λ v. converted of_items (items (value depth) (length reader.old) reader.old) ≡ Some (items_view v.items, reader.new)) }
    ensures shorter { OnOk result (length reader.new < length reader.old) }
    ensures err { result ≡ Err ReadFault.NotJson → converted of_items (items (value depth) (length reader.old) reader.old) ≡ None }
{
    let mut found = Vec::new(alloc);
    'items: while !reader.take_end_array() {
        let item = read(alloc, reader, depth)?;
        found.push(item)?;
    }
    let all = fitted(alloc, found)?;
    Ok(all)
}

// Returns the entries of a map in order, in a list with room for just these.
fn listed(
    alloc: Global,
    members: BTreeMap<String, Value>,
) -> Result<Vec<(String, Value)>, AllocError>
    ensures { IfOk result (λ v. v.items ≡ members.entries) }
{
    let entries = members.into_iter().collect(alloc)?;
    fitted(alloc, entries)
}

// Reads the members of an object after its opening brace.
#[cycle(read)]
#[inline(never)]
fn read_members(
    alloc: Global,
    reader: &mut Reader<'_>,
    depth: usize,
) -> Result<Vec<(String, Value)>, ReadFault>
    ensures ok { IfOk result (λ v. converted (λ ms. of_members ms no_members) (members (value depth) (length reader.old) reader.old) ≡ Some (members_view v.items, reader.new)) }
    ensures shorter { OnOk result (length reader.new < length reader.old) }
    ensures err { result ≡ Err ReadFault.NotJson → converted (λ ms. of_members ms no_members) (members (value depth) (length reader.old) reader.old) ≡ None }
{
    let mut found = BTreeMap::new(alloc);
    'members: while let Some(name) = reader.next_key()? {
        let key = String::from_str(alloc, name)?;
        let member = read(alloc, reader, depth)?;
        drop(found.insert(key, member)?);
    }
    let all = listed(alloc, found)?;
    Ok(all)
}
