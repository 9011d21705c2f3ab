//! Reads the flags of signals.

ghost use Rattle.std.specs.Prelude.{◌≡◌, codes, option_map};
ghost use Rattle.json_trees.specs.View.{view};
ghost use Rattle.serde_json.specs.Find.{as_str};
ghost use Rattle.definition_format.specs.Refusals.{Gives};
ghost use Rattle.definition_format.specs.Document.{under, path_of};
ghost use Rattle.definition_format.specs.Denoted.Signals.{flag_named, flag_if, listed_flags, flags_at};

use definition_format::{DefinitionFault, ReadError};
use json_trees::Value;
use read_parts::document::{Entries, Part, bad_shape, path_text, path_under};
use read_parts::reads::{Reads, read_each};
use signal_core::SignalFlags;

// Returns the flag that a word names.
fn flag_named(word: &str) -> Option<SignalFlags>
    ensures { option_map (λ p. p.0) result ≡ flag_named word.now }
{
    if word == "run-first" {
        Some(SignalFlags::RUN_FIRST)
    } else if word == "run-last" {
        Some(SignalFlags::RUN_LAST)
    } else if word == "run-cleanup" {
        Some(SignalFlags::RUN_CLEANUP)
    } else if word == "detailed" {
        Some(SignalFlags::DETAILED)
    } else {
        None
    }
}

// Returns the flag that a value names.
fn flag_in(value: &Value) -> Option<SignalFlags>
    ensures { option_map (λ p. p.0) result ≡ flag_if (as_str (view value.now)) }
{
    let word = value.as_str()?;
    flag_named(word)
}

// The reader for the words in a list of flags.
#[derive(Clone, Copy)]
struct FlagWords;

impl Reads<SignalFlags> for FlagWords {
    ghost use Rattle.std.specs.Prelude.{ℕ};
    ghost use Rattle.definition_format.specs.Denoted.Signals.{flag_at};

    ghost State = { ℕ };

    ghost seen = { λ flags. flags.0 };

    ghost Unchanged = { Unit {0} };

    ghost kept = { λ flags. tt };

    ghost known = { λ r. Unit {0} };

    ghost step = { λ r path flags d. flag_at path flags d };

    #[tactic(auto, unfolding(definition_format::specs::Denoted::Signals::flag_at))]
    fn read(&self, part: Part<'_>, flags: &mut SignalFlags) -> Result<(), ReadError> {
        match flag_in(part.value) {
            Some(flag) => {
                flags.0 |= flag.0;
                Ok(())
            }
            None => {
                let path = path_text(part.alloc, part.path)?;
                Err(ReadError::Refused(DefinitionFault::Shape(path)))
            }
        }
    }
}

// Reads the flags from a list of words.
#[tactic(auto, unfolding(definition_format::specs::Denoted::Signals::listed_flags))]
fn listed_flags(part: Part<'_>, value: &Value) -> Result<SignalFlags, ReadError>
    ensures { Gives (λ p. p.0) result (listed_flags (under (path_of part.entry.path) (codes "flags")) (view value.now)) }
{
    let Some(items) = value.as_array() else {
        return Err(bad_shape(part.alloc, part.path, "flags")?);
    };
    let path = path_under(part.alloc, part.path, "flags")?;
    let list = Entries {
        alloc: part.alloc,
        path: path.as_str(),
        items: items.as_slice(),
    };
    let mut flags = SignalFlags(0);
    read_each(&FlagWords, list, &mut flags)?;
    Ok(flags)
}

/// Reads the `flags` of a signal. If they are absent, its class handler runs last.
///
/// # Errors
///
/// Returns `Refused` with the first fault in document order, or `OutOfMemory` if memory is refused.
pub fn signal_flags_of(part: Part<'_>) -> Result<SignalFlags, ReadError>
    ensures { Gives (λ p. p.0) result (flags_at (path_of part.entry.path) (view part.entry.value.now)) }
{
    match part.value.get("flags") {
        None => Ok(SignalFlags::RUN_LAST),
        Some(value) => listed_flags(part, value),
    }
}
