//! The words of flags, as JSON lists.

ghost use Rattle.std.specs.Prelude.{◌≡◌, ◌++◌, [], ◌∷◌, cond, IfOk, OnOk, map, string_bytes};
ghost use Rattle.object_texts.specs.ObjectTexts.{quoted};
ghost use Rattle.class_texts.specs.Flags.{property_words, signal_words, word_text};
ghost use Rattle.class_texts.specs.Lists.{joined, list_text};

use crate::texts::quoted;
use bitflags::Flags;
use param_specs::PropertyFlags;
use signal_core::SignalFlags;
use std::alloc::{AllocError, Global};

/// A word for a flag of a property or a signal.
#[derive(Clone, Copy, Debug, PartialEq, Eq)]
pub(crate) enum FlagWord {
    Readable,
    Writable,
    Construct,
    ConstructOnly,
    LaxValidation,
    ExplicitNotify,
    RunFirst,
    RunLast,
    RunCleanup,
    Detailed,
}

impl FlagWord {
    // Returns the word as a definition spells it.
    fn text(self) -> &'static str
        ensures { result.now ≡ word_text self }
    {
        match self {
            FlagWord::Readable => "readable",
            FlagWord::Writable => "writable",
            FlagWord::Construct => "construct",
            FlagWord::ConstructOnly => "construct-only",
            FlagWord::LaxValidation => "lax-validation",
            FlagWord::ExplicitNotify => "explicit-notify",
            FlagWord::RunFirst => "run-first",
            FlagWord::RunLast => "run-last",
            FlagWord::RunCleanup => "run-cleanup",
            FlagWord::Detailed => "detailed",
        }
    }
}

/// Returns the words of a property's flags, in the order of their bits.
///
/// # Errors
///
/// `AllocError` if memory is refused.
pub(crate) fn property_words(
    alloc: Global,
    flags: PropertyFlags,
) -> Result<Vec<FlagWord>, AllocError>
    ensures { IfOk result (λ words. words.items ≡ property_words flags.0) }
{
    let mut words = Vec::new(alloc);
    push_if(
        &mut words,
        flags.contains(PropertyFlags::READABLE),
        FlagWord::Readable,
    )?;
    push_if(
        &mut words,
        flags.contains(PropertyFlags::WRITABLE),
        FlagWord::Writable,
    )?;
    push_if(
        &mut words,
        flags.contains(PropertyFlags::CONSTRUCT),
        FlagWord::Construct,
    )?;
    push_if(
        &mut words,
        flags.contains(PropertyFlags::CONSTRUCT_ONLY),
        FlagWord::ConstructOnly,
    )?;
    push_if(
        &mut words,
        flags.contains(PropertyFlags::LAX_VALIDATION),
        FlagWord::LaxValidation,
    )?;
    push_if(
        &mut words,
        flags.contains(PropertyFlags::EXPLICIT_NOTIFY),
        FlagWord::ExplicitNotify,
    )?;
    Ok(words)
}

/// Returns the words of a signal's flags, in the order of their bits.
///
/// # Errors
///
/// `AllocError` if memory is refused.
pub(crate) fn signal_words(alloc: Global, flags: SignalFlags) -> Result<Vec<FlagWord>, AllocError>
    ensures { IfOk result (λ words. words.items ≡ signal_words flags.0) }
{
    let mut words = Vec::new(alloc);
    push_if(
        &mut words,
        flags.contains(SignalFlags::RUN_FIRST),
        FlagWord::RunFirst,
    )?;
    push_if(
        &mut words,
        flags.contains(SignalFlags::RUN_LAST),
        FlagWord::RunLast,
    )?;
    push_if(
        &mut words,
        flags.contains(SignalFlags::RUN_CLEANUP),
        FlagWord::RunCleanup,
    )?;
    push_if(
        &mut words,
        flags.contains(SignalFlags::DETAILED),
        FlagWord::Detailed,
    )?;
    Ok(words)
}

// Appends a word if its flag is set.
fn push_if(words: &mut Vec<FlagWord>, is_set: bool, word: FlagWord) -> Result<(), AllocError>
    ensures { OnOk result (words.new.items ≡ words.old.items ++ cond is_set (word ∷ []) []) }
{
    if is_set {
        words.push(word)?;
    }
    Ok(())
}

/// Returns words as a JSON list of strings.
///
/// # Errors
///
/// `AllocError` if memory is refused.
pub(crate) fn words_text(alloc: Global, words: &[FlagWord]) -> Result<String, AllocError>
    ensures { IfOk result (λ text. string_bytes text ≡ list_text (map quoted (map word_text words.now))) }
{
    let mut text = String::from_str(alloc, "[")?;
    push_words(alloc, &mut text, words)?;
    text.push_str("]")?;
    Ok(text)
}

// Appends words as JSON strings, joined by commas.
fn push_words(alloc: Global, text: &mut String, words: &[FlagWord]) -> Result<(), AllocError>
    ensures { OnOk result (string_bytes text.new ≡ string_bytes text.old ++ joined (map quoted (map word_text words.now))) }
{
    let mut left = words;
    'words: while let [word, others @ ..] = left {
        let word = quoted(alloc, word.text())?;
        text.push_str(word.as_str())?;
        if !others.is_empty() {
            text.push_str(",")?;
        }
        left = others;
    }
    Ok(())
}
