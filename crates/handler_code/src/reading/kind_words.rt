//! Reads kinds of values from their words.

ghost use Rattle.std.specs.Prelude.{◌≡◌, List, option_map, IfOk, IfSome};
ghost use Rattle.ui_machine.specs.Definition.Types.{GType, enum, flags};
ghost use Rattle.type_tree.specs.Adding.{sort_of};
ghost use Rattle.g_values.specs.View.{kind_view, IsKnown};
ghost use Rattle.bytecode.specs.Reading.KindWords.{kind_named, enum_named, flags_named, parted, or_no_kind, kind_of_type, kind_by};
ghost use Rattle.handler_code.specs.Reading.ReaderViews.{kind_fault};
ghost use Rattle.bytecode.specs.Reading.Views.{seen};

use g_values::Kind;
use type_tree::{TypeId, TypeTree};

// The reason why a word names no kind.
#[derive(Clone, Copy)]
pub(crate) enum KindFault<'a> {
    // The word does not have the form of a kind.
    NoKind,
    // There is nothing with this name.
    Unknown(&'a str),
}

// Returns the kind for a word that names no type, such as `int`.
fn kind_named(word: &str) -> Option<Kind>
    ensures kind { option_map kind_view result ≡ kind_named word.now }
    ensures known { IfSome result (λ k. (types : List GType) → IsKnown types k) }
{
    if word == "bool" {
        Some(Kind::Bool)
    } else if word == "int" {
        Some(Kind::Int)
    } else if word == "uint" {
        Some(Kind::UInt)
    } else if word == "int64" {
        Some(Kind::Int64)
    } else if word == "uint64" {
        Some(Kind::UInt64)
    } else if word == "text" {
        Some(Kind::Text)
    } else {
        None
    }
}

// Returns the enum with this name.
fn enum_named(types: &TypeTree, name: &str) -> Option<TypeId>
    ensures named { result ≡ enum_named types.now name.now }
    ensures known { IfSome result (λ t. sort_of types.now t ≡ enum) }
{
    let found = types.find(name)?;
    if types.is_enum(found) {
        Some(found)
    } else {
        None
    }
}

// Returns the flags type with this name.
fn flags_named(types: &TypeTree, name: &str) -> Option<TypeId>
    ensures named { result ≡ flags_named types.now name.now }
    ensures known { IfSome result (λ t. sort_of types.now t ≡ flags) }
{
    let found = types.find(name)?;
    if types.is_flags(found) {
        Some(found)
    } else {
        None
    }
}

// Splits a word at its first colon, or returns `None` if it has no colon.
pub(crate) fn parted(word: &str) -> Option<(&str, &str)>
    ensures { option_map (λ p. (p.0.now, p.1.now)) result ≡ parted word.now }
{
    word.split_once(':')
}

// Returns the kind for a word that names no type, or `NoKind` if there is none.
pub(crate) fn plain_kind(word: &str) -> Result<Kind, KindFault<'_>>
    ensures kind { seen kind_view kind_fault result ≡ or_no_kind (kind_named word.now) }
    ensures known { IfOk result (λ k. (types : List GType) → IsKnown types k) }
{
    match kind_named(word) {
        Some(kind) => Ok(kind),
        None => Err(KindFault::NoKind),
    }
}

// Returns the kind with this sort, which is `enum`, `flags` or `object`, and the type with this name.
pub(crate) fn kind_of_type<'a>(
    types: &TypeTree,
    sort: &str,
    name: &'a str,
) -> Result<Kind, KindFault<'a>>
    ensures kind { seen kind_view kind_fault result ≡ kind_of_type types.now sort.now name.now }
    ensures known { IfOk result (λ k. IsKnown types.now k) }
{
    if sort == "enum" {
        return match enum_named(types, name) {
            Some(found) => Ok(Kind::Enum(found)),
            None => Err(KindFault::Unknown(name)),
        };
    }
    if sort == "flags" {
        return match flags_named(types, name) {
            Some(found) => Ok(Kind::Flags(found)),
            None => Err(KindFault::Unknown(name)),
        };
    }
    if sort == "object" {
        return match types.find_required(name) {
            Some(found) => Ok(Kind::Object(found)),
            None => Err(KindFault::Unknown(name)),
        };
    }
    Err(KindFault::NoKind)
}

// Returns the kind of values that a word names.
pub(crate) fn kind_of_word<'a>(types: &TypeTree, word: &'a str) -> Result<Kind, KindFault<'a>>
    ensures kind { seen kind_view kind_fault result ≡ kind_by types.now word.now (parted word.now) }
    ensures known { IfOk result (λ k. IsKnown types.now k) }
{
    match parted(word) {
        Some((sort, name)) => kind_of_type(types, sort, name),
        None => plain_kind(word),
    }
}
