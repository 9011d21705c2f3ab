//! Kinds as JSON, in the words of the format.

ghost use Rattle.std.specs.Prelude.{◌≡◌, ◌++◌, IfOk, OnOk, map, string_bytes};
ghost use Rattle.ui_machine.specs.Definition.Lookups.{type_of};
ghost use Rattle.g_values.specs.View.{kind_view};
ghost use Rattle.object_texts.specs.ObjectTexts.{quoted};
ghost use Rattle.class_texts.specs.ClassTexts.{kind_text};
ghost use Rattle.class_texts.specs.Kinds.{kind_word};
ghost use Rattle.class_texts.specs.Lists.{joined, list_text};

use crate::texts::quoted;
use definitions::Definition;
use g_values::Kind;
use std::alloc::{AllocError, Global};

/// Returns a kind as a JSON string.
///
/// # Errors
///
/// `AllocError` if memory is refused.
pub(crate) fn kind_text(
    alloc: Global,
    definition: &Definition,
    kind: Kind,
) -> Result<String, AllocError>
    ensures { IfOk result (λ text. string_bytes text ≡ kind_text definition.now (kind_view kind)) }
{
    let word = kind_word(alloc, definition, kind)?;
    quoted(alloc, word.as_str())
}

// Returns the word for a kind.
fn kind_word(alloc: Global, definition: &Definition, kind: Kind) -> Result<String, AllocError>
    ensures { IfOk result (λ text. string_bytes text ≡ kind_word definition.now (kind_view kind)) }
{
    match kind {
        Kind::Bool => String::from_str(alloc, "bool"),
        Kind::Int => String::from_str(alloc, "int"),
        Kind::UInt => String::from_str(alloc, "uint"),
        Kind::Int64 => String::from_str(alloc, "int64"),
        Kind::UInt64 => String::from_str(alloc, "uint64"),
        Kind::Text => String::from_str(alloc, "text"),
        Kind::Enum(t) => joined_words(alloc, "enum:", definition.class_name(t)),
        Kind::Flags(t) => joined_words(alloc, "flags:", definition.class_name(t)),
        Kind::Object(t) => joined_words(alloc, "object:", definition.class_name(t)),
    }
}

// Returns one word behind another.
fn joined_words(alloc: Global, first: &str, second: &str) -> Result<String, AllocError>
    ensures { IfOk result (λ text. string_bytes text ≡ first.now ++ second.now) }
{
    let mut text = String::from_str(alloc, first)?;
    text.push_str(second)?;
    Ok(text)
}

/// Returns kinds as a JSON list of strings.
///
/// # Errors
///
/// `AllocError` if memory is refused.
pub(crate) fn kinds_text(
    alloc: Global,
    definition: &Definition,
    kinds: &[Kind],
) -> Result<String, AllocError>
    ensures { IfOk result (λ text. string_bytes text ≡ list_text (map (kind_text definition.now) (map kind_view kinds.now))) }
{
    let mut text = String::from_str(alloc, "[")?;
    push_kinds(alloc, &mut text, definition, kinds)?;
    text.push_str("]")?;
    Ok(text)
}

// Appends kinds as JSON strings, joined by commas.
fn push_kinds(
    alloc: Global,
    text: &mut String,
    definition: &Definition,
    kinds: &[Kind],
) -> Result<(), AllocError>
    ensures { OnOk result (string_bytes text.new ≡ string_bytes text.old ++ joined (map (kind_text definition.now) (map kind_view kinds.now))) }
{
    let mut left = kinds;
    'kinds: while let [kind, others @ ..] = left {
        let kind = kind_text(alloc, definition, *kind)?;
        text.push_str(kind.as_str())?;
        if !others.is_empty() {
            text.push_str(",")?;
        }
        left = others;
    }
    Ok(())
}
