//! Signals of a class as JSON.

ghost use Rattle.std.specs.Prelude.{◌≡◌, ◌++◌, codes, IfOk, OnOk, map, option_map, string_bytes};
ghost use Rattle.ui_machine.specs.Definition.Lookups.{class_of};
ghost use Rattle.g_values.specs.View.{kind_view};
ghost use Rattle.signal_core.specs.Emission.{accumulator_of};
ghost use Rattle.signal_core.specs.SignalView.{declared_view};
ghost use Rattle.class_texts.specs.ClassTexts.{accumulator_text, result_text, signal_origin, signal_text};
ghost use Rattle.class_texts.specs.Kinds.{accumulator_word};
ghost use Rattle.class_texts.specs.Lists.{joined, list_text};

use crate::flags::{signal_words, words_text};
use crate::kinds::{kind_text, kinds_text};
use crate::owners::signal_owner;
use crate::texts::{push_separator, quoted};
use definitions::Definition;
use g_values::Kind;
use signal_core::{Accumulator, DeclaredSignal};
use std::alloc::{AllocError, Global};
use type_tree::TypeId;
use ui_machine::SignalId;

/// Returns the signals of a class, beginning with `notify`, as a JSON list in the order of their numbers.
///
/// # Errors
///
/// `AllocError` if memory is refused.
pub(crate) fn signals_text(
    alloc: Global,
    definition: &Definition,
    class: TypeId,
) -> Result<String, AllocError>
    ensures { IfOk result (λ text. string_bytes text ≡ list_text (map (signal_text definition.now class) (class_of definition.now class).signals)) }
{
    let mut text = String::from_str(alloc, "[")?;
    push_signals(alloc, &mut text, definition, class)?;
    text.push_str("]")?;
    Ok(text)
}

// Appends the signals of a class, joined by commas.
fn push_signals(
    alloc: Global,
    text: &mut String,
    definition: &Definition,
    class: TypeId,
) -> Result<(), AllocError>
    ensures { OnOk result (string_bytes text.new ≡ string_bytes text.old ++ joined (map (signal_text definition.now class) (class_of definition.now class).signals)) }
{
    for number in 0..definition.signal_count(class) {
        let Some(signal) = definition.signal(class, number as SignalId) else {
            unreachable!()
        };
        let signal = signal_text(alloc, definition, class, signal)?;
        push_separator(text, number)?;
        text.push_str(signal.as_str())?;
    }
    Ok(())
}

// Returns a signal of a class.
fn signal_text(
    alloc: Global,
    definition: &Definition,
    class: TypeId,
    signal: DeclaredSignal<'_>,
) -> Result<String, AllocError>
    ensures { IfOk result (λ text. string_bytes text ≡ signal_text definition.now class (declared_view signal.entry)) }
{
    let words = signal_words(alloc, signal.flags)?;
    let flags = words_text(alloc, words.as_slice())?;
    let params = kinds_text(alloc, definition, signal.params)?;
    let result = result_text(alloc, definition, signal.result)?;
    let accumulator = accumulator_text(alloc, signal.accumulator)?;
    let mut text = signal_origin(alloc, definition, class, signal.name)?;
    text.push_str(",\"params\":")?;
    text.push_str(params.as_str())?;
    text.push_str(",\"result\":")?;
    text.push_str(result.as_str())?;
    text.push_str(",\"flags\":")?;
    text.push_str(flags.as_str())?;
    text.push_str(accumulator.as_str())?;
    text.push_str("}")?;
    Ok(text)
}

// Returns the beginning of a signal's text: its name, and the type that declares it.
fn signal_origin(
    alloc: Global,
    definition: &Definition,
    class: TypeId,
    name: &str,
) -> Result<String, AllocError>
    ensures { IfOk result (λ text. string_bytes text ≡ signal_origin definition.now class name.now) }
{
    let owner = signal_owner(definition, class, name);
    let name = quoted(alloc, name)?;
    let owner = quoted(alloc, definition.class_name(owner))?;
    let mut text = String::from_str(alloc, "{\"name\":")?;
    text.push_str(name.as_str())?;
    text.push_str(",\"owner\":")?;
    text.push_str(owner.as_str())?;
    Ok(text)
}

// Returns the kind of a result as a JSON string, which is `"none"` if there is no result.
fn result_text(
    alloc: Global,
    definition: &Definition,
    kind: Option<Kind>,
) -> Result<String, AllocError>
    ensures { IfOk result (λ text. string_bytes text ≡ result_text definition.now (option_map kind_view kind)) }
{
    match kind {
        Some(kind) => kind_text(alloc, definition, kind),
        None => String::from_str(alloc, "\"none\""),
    }
}

// Returns the member for an accumulator. There is none without an accumulator.
fn accumulator_text(alloc: Global, accumulator: Option<Accumulator>) -> Result<String, AllocError>
    ensures { IfOk result (λ text. string_bytes text ≡ accumulator_text (option_map accumulator_of accumulator)) }
{
    let Some(accumulator) = accumulator else {
        return Ok(String::new(alloc));
    };
    let word = quoted(alloc, accumulator_word(accumulator))?;
    let mut text = String::from_str(alloc, ",\"accumulator\":")?;
    text.push_str(word.as_str())?;
    Ok(text)
}

// Returns the word for an accumulator.
fn accumulator_word(accumulator: Accumulator) -> &'static str
    ensures { result.now ≡ accumulator_word (accumulator_of accumulator) }
{
    match accumulator {
        Accumulator::TrueHandled => "true-handled",
        Accumulator::FirstWins => "first-wins",
    }
}
