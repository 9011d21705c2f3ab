//! Reads the flags of properties.

ghost use Rattle.std.specs.Prelude.{◌≡◌, codes, option_map};
ghost use Rattle.json_trees.specs.View.{view, items_view};
ghost use Rattle.serde_json.specs.Find.{get, as_str};
ghost use Rattle.definition_format.specs.Refusals.{Gives};
ghost use Rattle.definition_format.specs.Document.{under, path_of, each, at_entry};
ghost use Rattle.definition_format.specs.Denoted.PropertyFlags.{flag_named, flag_if, flag_at, check_flags, listed_flags, flags_at};

use definition_format::{DefinitionFault, ReadError, SpecCause};
use json_trees::Value;
use param_specs::{PropertyFlags, SpecFault};
use read_parts::document::{Entries, Part, bad_shape, path_text, path_under};
use read_parts::reads::{Reads, read_each};

// Returns the flag that a word names.
fn flag_named(word: &str) -> Option<PropertyFlags>
    ensures { option_map (λ p. p.0) result ≡ flag_named word.now }
{
    if word == "readable" {
        Some(PropertyFlags::READABLE)
    } else if word == "writable" {
        Some(PropertyFlags::WRITABLE)
    } else if word == "construct" {
        Some(PropertyFlags::CONSTRUCT)
    } else if word == "construct-only" {
        Some(PropertyFlags::CONSTRUCT_ONLY)
    } else if word == "lax-validation" {
        Some(PropertyFlags::LAX_VALIDATION)
    } else if word == "explicit-notify" {
        Some(PropertyFlags::EXPLICIT_NOTIFY)
    } else {
        None
    }
}

// Returns the flag that a value names.
fn flag_in(value: &Value) -> Option<PropertyFlags>
    ensures { option_map (λ p. p.0) result ≡ flag_if (as_str (view value.now)) }
{
    let word = value.as_str()?;
    flag_named(word)
}

// The reader for the words in a list of flags.
#[derive(Clone, Copy)]
struct FlagWords;

impl Reads<PropertyFlags> for FlagWords {
    ghost use Rattle.std.specs.Prelude.{ℕ};
    ghost use Rattle.definition_format.specs.Denoted.PropertyFlags.{flag_at};

    ghost State = { ℕ };

    ghost seen = { λ flags. flags.0 };

    ghost Unchanged = { Unit {0} };

    ghost kept = { λ flags. tt };

    ghost known = { λ r. Unit {0} };

    ghost step = { λ r path flags d. flag_at path flags d };

    #[tactic(auto, unfolding(definition_format::specs::Denoted::PropertyFlags::flag_at))]
    fn read(&self, part: Part<'_>, flags: &mut PropertyFlags) -> Result<(), ReadError> {
        match flag_in(part.value) {
            Some(flag) => {
                flags.0 |= flag.0;
                Ok(())
            }
            None => {
                let path = path_text(part.alloc, part.path)?;
                Err(ReadError::Refused(DefinitionFault::Shape(path)))
            }
        }
    }
}

// Checks that the flags are compatible.
fn check_flags(part: Part<'_>, flags: PropertyFlags) -> Result<(), ReadError>
    ensures { Gives (λ _. tt) result (check_flags (under (path_of part.entry.path) (codes "flags")) flags.0) }
{
    if flags.is_clash() {
        let path = path_under(part.alloc, part.path, "flags")?;
        return Err(ReadError::Refused(DefinitionFault::BadSpec(
            path,
            SpecCause::Install(SpecFault::FlagsClash),
        )));
    }
    Ok(())
}

// Reads the flags from the words of a list.
fn words_of(list: Entries<'_>) -> Result<PropertyFlags, ReadError>
    ensures { Gives (λ p. p.0) result (each (at_entry flag_at list.entry.path.now) 0 0 (items_view list.entry.items.now)) }
{
    let mut flags = PropertyFlags(0);
    read_each(&FlagWords, list, &mut flags)?;
    Ok(flags)
}

// Reads the flags from a list of words and checks that they are compatible.
#[tactic(auto, unfolding(definition_format::specs::Denoted::PropertyFlags::listed_flags))]
fn listed_flags(part: Part<'_>, value: &Value) -> Result<PropertyFlags, ReadError>
    ensures { Gives (λ p. p.0) result (listed_flags (under (path_of part.entry.path) (codes "flags")) (view value.now)) }
{
    let Some(items) = value.as_array() else {
        return Err(bad_shape(part.alloc, part.path, "flags")?);
    };
    let path = path_under(part.alloc, part.path, "flags")?;
    let list = Entries {
        alloc: part.alloc,
        path: path.as_str(),
        items: items.as_slice(),
    };
    let flags = words_of(list)?;
    check_flags(part, flags)?;
    Ok(flags)
}

/// Reads the `flags` of a property, which are readable and writable if they are absent.
///
/// # Errors
///
/// Returns `Refused` with the first fault in document order, or `OutOfMemory` if memory is refused.
pub fn flags_of(part: Part<'_>) -> Result<PropertyFlags, ReadError>
    ensures { Gives (λ p. p.0) result (flags_at (path_of part.entry.path) (view part.entry.value.now)) }
{
    match part.value.get("flags") {
        None => Ok(PropertyFlags(3)),
        Some(value) => listed_flags(part, value),
    }
}
