//! Reads the ranges of properties, which are their least and greatest numbers.

ghost use Rattle.std.specs.Prelude.{◌≡◌, codes};
ghost use Rattle.json_trees.specs.View.{view};
ghost use Rattle.serde_json.specs.Find.{get};
ghost use Rattle.g_values.specs.View.{kind_view};
ghost use Rattle.g_values.specs.Reading.{whole_number, number_between};
ghost use Rattle.definition_format.specs.Refusals.{Gives, or_value_fault};
ghost use Rattle.definition_format.specs.Document.{under, path_of};
ghost use Rattle.definition_format.specs.Denoted.Kinds.{lowest, highest};
ghost use Rattle.definition_format.specs.Denoted.Ranges.{whole_range, end_given, end_or, check_filled, range_at};

use definition_format::{DefinitionFault, ReadError, SpecCause};
use g_values::{JsonFault, Kind};
use json_trees::Value;
use param_specs::SpecFault;
use read_parts::document::{Part, bad_shape, bad_value, path_under};
use read_parts::kinds::{highest, is_whole, lowest};
use read_parts::numbers::whole_number;

// The least and the greatest number of a property.
#[derive(Clone, Copy)]
pub struct NumberRange {
    pub min: i128,
    pub max: i128,
}

/// Returns the range of all numbers of a kind.
pub fn whole_range(kind: &Kind) -> NumberRange
    ensures { record { low = result.min; high = result.max } ≡ whole_range (kind_view kind.now) }
{
    NumberRange {
        min: lowest(kind),
        max: highest(kind),
    }
}

// Returns the whole number in a value if it is from `low` to `high`, both included.
fn number_between(value: &Value, low: i128, high: i128) -> Result<i128, JsonFault>
    ensures { result ≡ number_between low high (whole_number (view value.now)) }
{
    let Some(number) = whole_number(value) else {
        return Err(JsonFault::WrongJson);
    };
    if number < low || number > high {
        return Err(JsonFault::OutOfRange);
    }
    Ok(number)
}

// Reads a number of this kind from `value`, the member `key` of `part`.
fn number_of(part: Part<'_>, key: &str, kind: &Kind, value: &Value) -> Result<i128, ReadError>
    ensures { Gives (λ n. n) result (or_value_fault (under (path_of part.entry.path) key.now) (number_between (lowest (kind_view kind.now)) (highest (kind_view kind.now)) (whole_number (view value.now)))) }
{
    match number_between(value, lowest(kind), highest(kind)) {
        Ok(number) => Ok(number),
        Err(cause) => Err(bad_value(part.alloc, part.path, key, cause)?),
    }
}

// Reads an end of a range, which only kinds of whole numbers have.
fn given_end(part: Part<'_>, key: &str, kind: &Kind, value: &Value) -> Result<i128, ReadError>
    ensures { Gives (λ n. n) result (end_given (under (path_of part.entry.path) key.now) (kind_view kind.now) (view value.now)) }
{
    if !is_whole(kind) {
        return Err(bad_shape(part.alloc, part.path, key)?);
    }
    number_of(part, key, kind, value)
}

// Reads the end of a range under `key`, or returns `own`, the end of the kind, if it is absent.
fn end_or(part: Part<'_>, key: &str, kind: &Kind, own: i128) -> Result<i128, ReadError>
    ensures { Gives (λ n. n) result (end_or (under (path_of part.entry.path) key.now) (kind_view kind.now) own (get key.now (view part.entry.value.now))) }
{
    match part.value.get(key) {
        None => Ok(own),
        Some(value) => given_end(part, key, kind, value),
    }
}

// Checks that a range has a number. The fault is reported at `min`.
fn check_filled(part: Part<'_>, min: i128, max: i128) -> Result<(), ReadError>
    ensures { Gives (λ _. tt) result (check_filled (under (path_of part.entry.path) (codes "min")) min max) }
{
    if max < min {
        let path = path_under(part.alloc, part.path, "min")?;
        return Err(ReadError::Refused(DefinitionFault::BadSpec(
            path,
            SpecCause::Install(SpecFault::RangeEmpty),
        )));
    }
    Ok(())
}

/// Reads the range of a property of this kind. An end that is absent is that of the kind.
///
/// # Errors
///
/// Returns `Refused` with the first fault in document order, or `OutOfMemory` if memory is refused.
#[tactic(auto, unfolding(definition_format::specs::Denoted::Ranges::range_at))]
pub fn range_of(part: Part<'_>, kind: &Kind) -> Result<NumberRange, ReadError>
    ensures { Gives (λ r. record { low = r.min; high = r.max }) result (range_at (path_of part.entry.path) (kind_view kind.now) (view part.entry.value.now)) }
{
    let min = end_or(part, "min", kind, lowest(kind))?;
    let max = end_or(part, "max", kind, highest(kind))?;
    check_filled(part, min, max)?;
    Ok(NumberRange { min, max })
}
