//! JSON values and look-ups in them.

ghost use Rattle.std.specs.Prelude.{◌≡◌, is_some, option_copied, option_map, option_and_then, string_bytes};
ghost use Rattle.std.specs.List.{find};
ghost use Rattle.std.specs.Str.{bytes_eq};
ghost use Rattle.serde_json.specs.Find.{as_null, as_bool, as_number, as_u64, as_str, as_array, as_object, at, get, get_item, get_member};
ghost use Rattle.serde_json.specs.View.{number_view};
ghost use Rattle.json_trees.specs.View.{view, items_view, members_view};

use serde_json::Number;

/// A JSON value. A list and an object that was read have room for just what is in them.
#[derive(Drop)]
pub enum Value {
    Null,
    Bool(bool),
    Number(Number),
    String(String),
    Array(Vec<Value>),
    /// The members, in the order of their keys. Each key comes once.
    Object(Vec<(String, Value)>),
}

// Returns the entry of the member with this key.
fn entry_called<'a>(members: &'a [(String, Value)], key: &str) -> Option<&'a (String, Value)>
    ensures { option_copied result ≡ find (λ m. bytes_eq key.now (string_bytes m.0)) members.now }
{
    members.iter().find(|member| key == member.0.as_str())
}

// Returns the value of the member with this key.
fn member_called<'a>(members: &'a [(String, Value)], key: &str) -> Option<&'a Value>
    ensures { option_map (λ v. view v.now) result ≡ get_member key.now (members_view members.now) }
{
    match entry_called(members, key) {
        Some((_, value)) => Some(value),
        None => None,
    }
}

// Returns the item at an index.
fn item_at(items: &Vec<Value>, index: usize) -> Option<&Value>
    ensures { option_map (λ v. view v.now) result ≡ get_item index (items_view items.now.items) }
{
    if index < items.len() {
        Some(&items[index])
    } else {
        None
    }
}

impl Value {
    /// Returns the member with this key, or `None` if there is none or the value is no object.
    pub fn get(&self, key: &str) -> Option<&Value>
        ensures { option_map (λ v. view v.now) result ≡ get key.now (view self.now) }
    {
        match self {
            Value::Object(members) => member_called(members.as_slice(), key),
            _ => None,
        }
    }

    /// Returns an item, or `None` if there is none at this index or the value is no list.
    pub fn item(&self, index: usize) -> Option<&Value>
        ensures { option_map (λ v. view v.now) result ≡ at index (view self.now) }
    {
        match self {
            Value::Array(items) => item_at(items, index),
            _ => None,
        }
    }

    /// Returns the members of an object, in the order of their keys.
    pub fn as_object(&self) -> Option<&Vec<(String, Value)>>
        ensures { option_map (λ m. members_view m.now.items) result ≡ as_object (view self.now) }
    {
        match self {
            Value::Object(members) => Some(members),
            _ => None,
        }
    }

    /// Returns the items of a list.
    pub fn as_array(&self) -> Option<&Vec<Value>>
        ensures { option_map (λ v. items_view v.now.items) result ≡ as_array (view self.now) }
    {
        match self {
            Value::Array(items) => Some(items),
            _ => None,
        }
    }

    /// Returns the text.
    pub fn as_str(&self) -> Option<&str>
        ensures { option_map (λ s. s.now) result ≡ as_str (view self.now) }
    {
        match self {
            Value::String(text) => Some(text.as_str()),
            _ => None,
        }
    }

    /// Returns the number.
    pub fn as_number(&self) -> Option<&Number>
        ensures { option_map (λ n. number_view n.now) result ≡ as_number (view self.now) }
    {
        match self {
            Value::Number(number) => Some(number),
            _ => None,
        }
    }

    /// Returns the number if it is a whole number of 64 bits without a sign.
    pub fn as_u64(&self) -> Option<u64>
        ensures { result ≡ option_and_then as_u64 (as_number (view self.now)) }
    {
        match self.as_number() {
            Some(number) => number.as_u64(),
            None => None,
        }
    }

    /// Returns the truth value.
    pub fn as_bool(&self) -> Option<bool>
        ensures { result ≡ as_bool (view self.now) }
    {
        match self {
            Value::Bool(truth) => Some(*truth),
            _ => None,
        }
    }

    /// Returns whether the value is null.
    pub fn is_null(&self) -> bool
        ensures { result ≡ is_some (as_null (view self.now)) }
    {
        match self {
            Value::Null => true,
            _ => false,
        }
    }
}
