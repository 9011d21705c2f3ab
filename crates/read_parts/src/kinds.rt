//! Reads kinds of properties, arguments and results from their words.

ghost use Rattle.std.specs.Prelude.{◌≡◌, List, option_map, IfOk, IfSome};
ghost use Rattle.json_trees.specs.View.{view};
ghost use Rattle.ui_machine.specs.Definition.Types.{GType, enum, flags};
ghost use Rattle.type_tree.specs.Adding.{sort_of};
ghost use Rattle.g_values.specs.View.{kind_view, is_whole_kind, IsKnown};
ghost use Rattle.definition_format.specs.Refusals.{Gives};
ghost use Rattle.definition_format.specs.Document.{at_key, path_of};
ghost use Rattle.definition_format.specs.Denoted.Kinds.{kind_named, enum_named, flags_named, object_type, is_object_kind, parted, kind_of_type, kind_by, kind_at, lowest, highest};

use crate::document::{Part, bad_shape_at, unknown_at};
use crate::entries::TypeNames;
use definition_format::ReadError;
use g_values::Kind;
use type_tree::{TypeId, TypeTree};

/// Returns the kind for a word that names no type, such as `int`.
pub fn kind_named(word: &str) -> Option<Kind>
    ensures kind { option_map kind_view result ≡ kind_named word.now }
    ensures known { IfSome result (λ k. (types : List GType) → IsKnown types k) }
{
    if word == "bool" {
        Some(Kind::Bool)
    } else if word == "int" {
        Some(Kind::Int)
    } else if word == "uint" {
        Some(Kind::UInt)
    } else if word == "int64" {
        Some(Kind::Int64)
    } else if word == "uint64" {
        Some(Kind::UInt64)
    } else if word == "text" {
        Some(Kind::Text)
    } else {
        None
    }
}

// Returns the enum with this name.
fn enum_named(types: &TypeTree, name: &str) -> Option<TypeId>
    ensures named { result ≡ enum_named types.now name.now }
    ensures known { IfSome result (λ t. sort_of types.now t ≡ enum) }
{
    let found = types.find(name)?;
    if types.is_enum(found) {
        Some(found)
    } else {
        None
    }
}

// Returns the flags type with this name.
fn flags_named(types: &TypeTree, name: &str) -> Option<TypeId>
    ensures named { result ≡ flags_named types.now name.now }
    ensures known { IfSome result (λ t. sort_of types.now t ≡ flags) }
{
    let found = types.find(name)?;
    if types.is_flags(found) {
        Some(found)
    } else {
        None
    }
}

// Splits a word at its first colon, or returns `None` if it has no colon.
fn parted(word: &str) -> Option<(&str, &str)>
    ensures { option_map (λ p. (p.0.now, p.1.now)) result ≡ parted word.now }
{
    word.split_once(':')
}

// Returns the class or interface with this name, which may come later in the document.
fn object_type(types: &TypeTree, names: &TypeNames<'_>, name: &str) -> Option<TypeId>
    ensures { result ≡ object_type types.now names.now name.now }
{
    if let Some(found) = types.find_class(name) {
        return Some(found);
    }
    let number = names.number(name)?;
    Some(TypeId::new(number))
}

// Returns the kind with this sort, which is `enum`, `flags` or `object`, and the type with this name. A fault is reported at the member
// `key`, or at the value itself if there is no key.
fn kind_of_type(
    part: Part<'_>,
    key: Option<&str>,
    types: &TypeTree,
    names: &TypeNames<'_>,
    sort: &str,
    name: &str,
) -> Result<Kind, ReadError>
    ensures kind { Gives kind_view result (kind_of_type (at_key (path_of part.entry.path) (option_map (λ k. k.now) key.entry)) types.now names.now sort.now name.now) }
    ensures known { IfOk result (λ k. IsKnown types.now k) }
{
    if sort == "enum" {
        return match enum_named(types, name) {
            Some(found) => Ok(Kind::Enum(found)),
            None => Err(unknown_at(part, key, name)?),
        };
    }
    if sort == "flags" {
        return match flags_named(types, name) {
            Some(found) => Ok(Kind::Flags(found)),
            None => Err(unknown_at(part, key, name)?),
        };
    }
    if sort == "object" {
        return match object_type(types, names, name) {
            Some(found) => Ok(Kind::Object(found)),
            None => Err(unknown_at(part, key, name)?),
        };
    }
    Err(bad_shape_at(part, key)?)
}

/// Returns the kind that a word names. An enum or flags type must be in `types`, a class or interface may also come later in the document.
/// A fault is reported at the member `key`, or at the value itself if there is no key.
///
/// # Errors
///
/// Returns `Shape` if the word has no form of a kind, `Unknown` if nothing has the name of its type, or `OutOfMemory` if memory is refused.
pub fn kind_of_word(
    part: Part<'_>,
    key: Option<&str>,
    types: &TypeTree,
    names: &TypeNames<'_>,
    word: &str,
) -> Result<Kind, ReadError>
    ensures kind { Gives kind_view result (kind_by (at_key (path_of part.entry.path) (option_map (λ k. k.now) key.entry)) types.now names.now word.now (parted word.now)) }
    ensures known { IfOk result (λ k. IsKnown types.now k) }
{
    if let Some((sort, name)) = parted(word) {
        return kind_of_type(part, key, types, names, sort, name);
    }
    match kind_named(word) {
        Some(kind) => Ok(kind),
        None => Err(bad_shape_at(part, key)?),
    }
}

/// Reads the kind of a property.
///
/// # Errors
///
/// Returns `Refused` with the first fault in document order, or `OutOfMemory` if memory is refused.
pub fn kind_of(part: Part<'_>, types: &TypeTree, names: &TypeNames<'_>) -> Result<Kind, ReadError>
    ensures kind { Gives kind_view result (kind_at (path_of part.entry.path) types.now names.now (view part.entry.value.now)) }
    ensures known { IfOk result (λ k. IsKnown types.now k) }
{
    let word = part.text("kind")?;
    let kind = kind_of_word(part, Some("kind"), types, names, word)?;
    Ok(kind)
}

/// Returns whether a kind is one of objects.
pub fn is_object(kind: &Kind) -> bool
    ensures { result ≡ is_object_kind (kind_view kind.now) }
{
    matches!(kind, Kind::Object(_))
}

/// Returns the least number of a kind of whole numbers, and 0 for any other kind.
pub fn lowest(kind: &Kind) -> i128
    ensures { result ≡ lowest (kind_view kind.now) }
{
    match kind {
        Kind::Int => i128::from(i32::MIN),
        Kind::Int64 => i128::from(i64::MIN),
        _ => 0,
    }
}

/// Returns the greatest number of a kind of whole numbers, and 0 for any other kind.
pub fn highest(kind: &Kind) -> i128
    ensures { result ≡ highest (kind_view kind.now) }
{
    match kind {
        Kind::Int => i128::from(i32::MAX),
        Kind::UInt => i128::from(u32::MAX),
        Kind::Int64 => i128::from(i64::MAX),
        Kind::UInt64 => i128::from(u64::MAX),
        _ => 0,
    }
}

/// Returns whether a kind is one of whole numbers.
pub fn is_whole(kind: &Kind) -> bool
    ensures { result ≡ is_whole_kind (kind_view kind.now) }
{
    matches!(kind, Kind::Int | Kind::UInt | Kind::Int64 | Kind::UInt64)
}
