//! Names other than those of types and properties.

ghost use Rattle.std.specs.Prelude.{◌≡◌, option_map};
ghost use Rattle.serde_json.specs.Find.{as_str};
ghost use Rattle.json_trees.specs.View.{view};
ghost use Rattle.std.specs.List.{list_all};
ghost use Rattle.type_tree.specs.TypeName.{is_within};
ghost use Rattle.definition_format.specs.Denoted.Enums.{name_at, name_if};
ghost use Rattle.definition_format.specs.Denoted.Names.{is_name_byte, is_name};
ghost use Rattle.definition_format.specs.Document.{path_of, under};
ghost use Rattle.definition_format.specs.Refusals.{Gives};

use crate::document::{Part, bad_shape, bad_shape_at};
use definition_format::ReadError;
use json_trees::Value;

// Returns whether a byte is an ASCII letter, a digit, `-` or `_`.
fn is_name_byte(byte: u8) -> bool
    ensures { result ≡ is_name_byte byte }
{
    matches!(byte, b'a'..=b'z' | b'A'..=b'Z' | b'0'..=b'9') || byte == b'-' || byte == b'_'
}

// Returns whether all bytes of a text may be in a name.
fn are_name_bytes(name: &str) -> bool
    ensures { result ≡ list_all is_name_byte name.now }
{
    name.as_bytes().iter().all(|byte| is_name_byte(*byte))
}

// Returns whether a name may have this many bytes, which is 1 to 64.
fn is_name_length(bytes: usize) -> bool
    ensures { result ≡ is_within 1 64 bytes }
{
    1 <= bytes && bytes <= 64
}

/// Returns whether a text may be an id, or the name or nick of a member.
pub fn is_name(name: &str) -> bool
    ensures { result ≡ is_name name.now }
{
    is_name_length(name.len()) && are_name_bytes(name)
}

/// Returns the name in a value, or `None` if the value is no string or not a name.
pub fn name_in(value: &Value) -> Option<&str>
    ensures { option_map (λ s. s.now) result ≡ name_if (as_str (view value.now)) }
{
    let name = value.as_str()?;
    if is_name(name) { Some(name) } else { None }
}

/// Reads a name from `value`, which is the member `key` of `part`.
///
/// # Errors
///
/// Returns `Shape` at the member if the value is no name, or `OutOfMemory` if memory is refused.
pub fn name_under<'a>(part: Part<'_>, key: &str, value: &'a Value) -> Result<&'a str, ReadError>
    ensures { Gives (λ s. s.now) result (name_at (under (path_of part.entry.path) key.now) (view value.now)) }
{
    match name_in(value) {
        Some(name) => Ok(name),
        None => Err(bad_shape(part.alloc, part.path, key)?),
    }
}

/// Reads a name that is an entry of a list.
///
/// # Errors
///
/// Returns `Shape` at the entry if it is no name, or `OutOfMemory` if memory is refused.
pub fn name_of_entry<'a>(part: Part<'a>) -> Result<&'a str, ReadError>
    ensures { Gives (λ s. s.now) result (name_at (path_of part.entry.path) (view part.entry.value.now)) }
{
    match name_in(part.value) {
        Some(name) => Ok(name),
        None => Err(bad_shape_at(part, None)?),
    }
}
