//! The parts of a JSON document, with their paths.

ghost use Rattle.std.specs.Prelude.{◌≡◌, ◌∷◌, [], map, not, is_some, string_bytes, option_copied, option_map, IfOk, ◌++◌, OnOk};
ghost use Rattle.std.specs.Char.{encode_utf8};
ghost use Rattle.std.specs.List.{find, list_any};
ghost use Rattle.std.specs.Str.{bytes_eq};
ghost use Rattle.json_trees.specs.View.{view, items_view, members_view};
ghost use Rattle.serde_json.specs.Find.{as_str, get};
ghost use Rattle.definition_format.specs.Refusals.{Gives, IsRefusal, or_refused, shape, unknown, value_fault};
ghost use Rattle.definition_format.specs.Document.{under, nth, path_of, at_key, members_at, text_at, truth_at, entries_at, listed_ahead, escaped, only_at, document};

use definition_format::{DefinitionFault, Path, ReadError};
use g_values::JsonFault;
use json_trees::{ReadFault, Value};
use std::alloc::{AllocError, Global};

/// The greatest number of bytes of a definition.
pub const MAX_BYTES: usize = 4_194_304;

/// Parses the bytes of a definition as JSON.
///
/// # Errors
///
/// Returns `TooLong`, `NotUtf8` or `NotJson`, tested in this order, or `OutOfMemory` if memory is refused.
#[tactic(auto, unfolding(definition_format::specs::Document::document))]
pub fn parsed(alloc: Global, bytes: &[u8]) -> Result<Value, ReadError>
    ensures { Gives view result (document bytes.now) }
{
    if bytes.len() > MAX_BYTES {
        return Err(ReadError::Refused(DefinitionFault::TooLong));
    }
    let Ok(text) = str::from_utf8(bytes) else {
        return Err(ReadError::Refused(DefinitionFault::NotUtf8));
    };
    match Value::from_str(alloc, text) {
        Ok(value) => Ok(value),
        Err(ReadFault::OutOfMemory) => Err(ReadError::OutOfMemory),
        Err(ReadFault::NotJson) => Err(ReadError::Refused(DefinitionFault::NotJson)),
    }
}

/// A value of a document and its path.
#[derive(Clone, Copy)]
pub struct Part<'a> {
    pub alloc: Global,
    pub path: Path<'a>,
    pub value: &'a Value,
}

/// The entries of a list of a document and the path of the list.
#[derive(Clone, Copy)]
pub struct Entries<'a> {
    pub alloc: Global,
    pub path: &'a str,
    pub items: &'a [Value],
}

// Returns the path of an entry of the list at `path`.
fn path_of_entry(alloc: Global, path: &str, index: usize) -> Result<String, AllocError>
    ensures { IfOk result (λ s. string_bytes s ≡ nth path.now index) }
{
    Ok(format!(in alloc; "{path}/{index}")?)
}

/// Returns the text of a path.
///
/// # Errors
///
/// `AllocError` if memory is refused.
pub fn path_text(alloc: Global, path: Path<'_>) -> Result<String, AllocError>
    ensures { IfOk result (λ s. string_bytes s ≡ path_of path.entry) }
{
    match path.index {
        Some(index) => path_of_entry(alloc, path.base, index),
        None => String::from_str(alloc, path.base),
    }
}

/// Returns the path of the member `key` of the value at `path`.
///
/// # Errors
///
/// `AllocError` if memory is refused.
pub fn path_under(alloc: Global, path: Path<'_>, key: &str) -> Result<String, AllocError>
    ensures { IfOk result (λ s. string_bytes s ≡ under (path_of path.entry) key.now) }
{
    let whole = path_text(alloc, path)?;
    let start = whole.as_str();
    Ok(format!(in alloc; "{start}/{key}")?)
}

/// Returns the path of an entry of the list at `path`.
///
/// # Errors
///
/// `AllocError` if memory is refused.
pub fn path_within(alloc: Global, path: Path<'_>, index: usize) -> Result<String, AllocError>
    ensures { IfOk result (λ s. string_bytes s ≡ nth (path_of path.entry) index) }
{
    let whole = path_text(alloc, path)?;
    path_of_entry(alloc, whole.as_str(), index)
}

/// Reads a name that is an entry of a list.
///
/// # Errors
///
/// Returns `Shape` at the entry if it is no text, or `OutOfMemory` if memory is refused.
pub fn entry_name<'a>(part: Part<'a>) -> Result<&'a str, ReadError>
    ensures { Gives (λ s. s.now) result (or_refused (shape (path_of part.entry.path)) (as_str (view part.entry.value.now))) }
{
    match part.value.as_str() {
        Some(name) => Ok(name),
        None => Err(ReadError::Refused(DefinitionFault::Shape(path_text(part.alloc, part.path)?))),
    }
}

/// Makes the refusal `Shape` at the member `key`.
///
/// # Errors
///
/// `OutOfMemory` if memory is refused.
pub fn bad_shape(alloc: Global, path: Path<'_>, key: &str) -> Result<ReadError, ReadError>
    ensures { IsRefusal (shape (under (path_of path.entry) key.now)) result }
{
    Ok(ReadError::Refused(DefinitionFault::Shape(path_under(alloc, path, key)?)))
}

/// Makes the refusal `Unknown` at the member `key`, with a name that nothing has.
///
/// # Errors
///
/// `OutOfMemory` if memory is refused.
pub fn unknown_name(part: Part<'_>, key: &str, name: &str) -> Result<ReadError, ReadError>
    ensures { IsRefusal (unknown (under (path_of part.entry.path) key.now) name.now) result }
{
    let path = path_under(part.alloc, part.path, key)?;
    let name = String::from_str(part.alloc, name)?;
    Ok(ReadError::Refused(DefinitionFault::Unknown(path, name)))
}

// Returns the path of the member `key` of the value at `path`, or of this value if there is no key.
fn path_at(alloc: Global, path: Path<'_>, key: Option<&str>) -> Result<String, AllocError>
    ensures { IfOk result (λ s. string_bytes s ≡ at_key (path_of path.entry) (option_map (λ k. k.now) key.entry)) }
{
    match key {
        Some(key) => path_under(alloc, path, key),
        None => path_text(alloc, path),
    }
}

/// Makes the refusal `Shape` at the member `key`, or at the value itself if there is no key.
///
/// # Errors
///
/// `OutOfMemory` if memory is refused.
pub fn bad_shape_at(part: Part<'_>, key: Option<&str>) -> Result<ReadError, ReadError>
    ensures { IsRefusal (shape (at_key (path_of part.entry.path) (option_map (λ k. k.now) key.entry))) result }
{
    Ok(ReadError::Refused(DefinitionFault::Shape(path_at(part.alloc, part.path, key)?)))
}

/// Makes the refusal `Unknown` with a name that nothing has, at the member `key`, or at the value itself if there is no key.
///
/// # Errors
///
/// `OutOfMemory` if memory is refused.
pub fn unknown_at(part: Part<'_>, key: Option<&str>, name: &str) -> Result<ReadError, ReadError>
    ensures { IsRefusal (unknown (at_key (path_of part.entry.path) (option_map (λ k. k.now) key.entry)) name.now) result }
{
    let path = path_at(part.alloc, part.path, key)?;
    let name = String::from_str(part.alloc, name)?;
    Ok(ReadError::Refused(DefinitionFault::Unknown(path, name)))
}

/// Makes the refusal `ValueFault` with this cause at the member `key`.
///
/// # Errors
///
/// `OutOfMemory` if memory is refused.
pub fn bad_value(
    alloc: Global,
    path: Path<'_>,
    key: &str,
    cause: JsonFault,
) -> Result<ReadError, ReadError>
    ensures { IsRefusal (value_fault (under (path_of path.entry) key.now) cause) result }
{
    let path = path_under(alloc, path, key)?;
    Ok(ReadError::Refused(DefinitionFault::ValueFault(path, cause)))
}

/// Returns the entries of the list under `key`, or no entries if there is no list. It refuses nothing, so it may look ahead of what is
/// read.
pub fn listed_ahead<'a>(value: &'a Value, key: &str) -> &'a [Value]
    ensures { items_view result.now ≡ listed_ahead key.now (view value.now) }
{
    match value.get(key).and_then(Value::as_array) {
        Some(items) => items.as_slice(),
        None => &[],
    }
}

impl<'a> Part<'a> {
    /// Returns the members of the value.
    ///
    /// # Errors
    ///
    /// Returns `Shape` at the value if it is no object, or `OutOfMemory` if memory is refused.
    pub fn members(self) -> Result<&'a [(String, Value)], ReadError>
        ensures { Gives (λ m. members_view m.now) result (members_at (path_of self.entry.path) (view self.entry.value.now)) }
    {
        match self.value.as_object() {
            Some(members) => Ok(members.as_slice()),
            None => Err(ReadError::Refused(DefinitionFault::Shape(path_text(
                self.alloc, self.path,
            )?))),
        }
    }

    /// Returns the text under `key`.
    ///
    /// # Errors
    ///
    /// Returns `Shape` at the member if it is absent or no text, or `OutOfMemory` if memory is refused.
    pub fn text(self, key: &str) -> Result<&'a str, ReadError>
        ensures { Gives (λ s. s.now) result (text_at (path_of self.entry.path) (view self.entry.value.now) key.now) }
    {
        match self.value.get(key).and_then(Value::as_str) {
            Some(text) => Ok(text),
            None => Err(bad_shape(self.alloc, self.path, key)?),
        }
    }

    /// Returns the truth value under `key`, which is false if it is absent.
    ///
    /// # Errors
    ///
    /// Returns `Shape` at the member if it is no truth value, or `OutOfMemory` if memory is refused.
    pub fn truth(self, key: &str) -> Result<bool, ReadError>
        ensures { Gives (λ b. b) result (truth_at (path_of self.entry.path) (view self.entry.value.now) key.now) }
    {
        let Some(value) = self.value.get(key) else {
            return Ok(false);
        };
        match value.as_bool() {
            Some(truth) => Ok(truth),
            None => Err(bad_shape(self.alloc, self.path, key)?),
        }
    }

    /// Returns the entries of the list under `key`, or no entries if it is absent.
    ///
    /// # Errors
    ///
    /// Returns `Shape` at the member if it is no list, or `OutOfMemory` if memory is refused.
    pub fn entries(self, key: &str) -> Result<&'a [Value], ReadError>
        ensures { Gives (λ s. items_view s.now) result (entries_at (path_of self.entry.path) (view self.entry.value.now) key.now) }
    {
        let Some(list) = self.value.get(key) else {
            return Ok(&[]);
        };
        match list.as_array() {
            Some(items) => Ok(items.as_slice()),
            None => Err(bad_shape(self.alloc, self.path, key)?),
        }
    }

    /// Checks that each member has one of these keys.
    ///
    /// # Errors
    ///
    /// Returns `Shape` at the first member that has another key, or `OutOfMemory` if memory is refused.
    #[tactic(auto, using(crate::proofs::Members::first_other_is))]
    pub fn check_only(self, members: &[(String, Value)], keys: &[&str]) -> Result<(), ReadError>
        ensures { Gives (λ _. tt) result (only_at (path_of self.entry.path) (members_view members.now) (map (λ k. k.now) keys.now)) }
    {
        match first_other(members, keys) {
            None => Ok(()),
            Some((key, _)) => {
                let key = escaped(self.alloc, key.as_str())?;
                Err(bad_shape(self.alloc, self.path, key.as_str())?)
            }
        }
    }
}

// Returns whether `key` is one of `keys`.
fn is_among(keys: &[&str], key: &str) -> bool
    ensures { result ≡ list_any (λ k. bytes_eq k.now key.now) keys.now }
{
    keys.iter().any(|known| *known == key)
}

// Returns the first member whose key is not in `known`.
fn first_other<'a>(members: &'a [(String, Value)], known: &[&str]) -> Option<&'a (String, Value)>
    ensures { option_copied result ≡ find (λ m. not (list_any (λ k. bytes_eq k.now (string_bytes m.0)) known.now)) members.now }
{
    members
        .iter()
        .find(|member| !is_among(known, member.0.as_str()))
}

// Appends a character in the form that it has in a path.
#[tactic(auto, using(crate::proofs::Escapes::escaped_plain))]
fn push_escaped(out: &mut String, c: char) -> Result<(), AllocError>
    ensures { OnOk result (string_bytes out.new ≡ string_bytes out.old ++ escaped (encode_utf8 c)) }
{
    match c {
        '~' => out.push_str("~0")?,
        '/' => out.push_str("~1")?,
        _ => out.push(c)?,
    }
    Ok(())
}

/// Returns a key in the form that it has in a path, with `~0` for `~` and `~1` for `/`.
///
/// # Errors
///
/// `AllocError` if memory is refused.
pub fn escaped(alloc: Global, key: &str) -> Result<String, AllocError>
    ensures { IfOk result (λ s. string_bytes s ≡ escaped key.now) }
{
    let mut out = String::new(alloc);
    for c in key.chars() {
        push_escaped(&mut out, c)?;
    }
    Ok(out)
}
