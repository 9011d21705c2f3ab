//! Texts, truth values and commas as JSON.

ghost use Rattle.std.specs.Prelude.{◌≡◌, ◌++◌, IfOk, OnOk, string_bytes};
ghost use Rattle.serde_json.specs.Data.{string};
ghost use Rattle.serde_json.specs.Written.{compact_text};
ghost use Rattle.object_texts.specs.ObjectTexts.{quoted, truth_text};
ghost use Rattle.class_texts.specs.Lists.{separator};

use std::alloc::{AllocError, Global};

/// Returns a text as a JSON string.
///
/// # Errors
///
/// `AllocError` if memory is refused.
#[tactic(auto, unfolding(object_texts::specs::ObjectTexts::quoted))]
pub(crate) fn quoted(alloc: Global, text: &str) -> Result<String, AllocError>
    ensures { IfOk result (λ written. string_bytes written ≡ quoted text.now) }
{
    serde_json::Value::String(String::from_str(alloc, text)?).to_string(alloc)
}

/// Returns a truth value as JSON.
pub(crate) fn truth_text(truth: bool) -> &'static str
    ensures { result.now ≡ truth_text truth }
{
    if truth { "true" } else { "false" }
}

/// Appends the comma that parts an entry of a list from the one before. The first entry has none.
///
/// # Errors
///
/// `AllocError` if memory is refused.
pub(crate) fn push_separator(text: &mut String, place: usize) -> Result<(), AllocError>
    ensures { OnOk result (string_bytes text.new ≡ string_bytes text.old ++ separator place) }
{
    if place == 0 {
        return Ok(());
    }
    text.push_str(",")
}
