//! Reads the defaults of properties.

ghost use Rattle.std.specs.Prelude.{◌≡◌, codes};
ghost use Rattle.json_trees.specs.View.{view};
ghost use Rattle.g_values.specs.View.{kind_view, value_view, IsKnown};
ghost use Rattle.g_values.specs.Reading.{json_value};
ghost use Rattle.param_specs.specs.View.{spec_view};
ghost use Rattle.definition_format.specs.Refusals.{Gives, or_value_fault};
ghost use Rattle.definition_format.specs.Document.{under, path_of};
ghost use Rattle.definition_format.specs.Denoted.Defaults.{default_at, check_default, check_unranged};

use definition_format::{DefinitionFault, ReadError, SpecCause};
use g_values::{JsonError, Kind, zero_of};
use json_trees::{Value, from_json};
use param_specs::{Spec, SpecFault, is_valid_default};
use read_parts::document::{Part, bad_value, path_under};
use read_parts::kinds::is_whole;
use type_tree::TypeTree;

/// Reads `value`, the member `key` of `part`, as a value of this kind.
///
/// # Errors
///
/// Returns `ValueFault` at the member if it is no value of the kind, or `OutOfMemory` if memory is refused.
pub fn value_of(
    part: Part<'_>,
    key: &str,
    types: &TypeTree,
    kind: Kind,
    value: &Value,
) -> Result<g_values::Value, ReadError>
    requires { IsKnown types.now kind }
    ensures { Gives value_view result (or_value_fault (under (path_of part.entry.path) key.now) (json_value types.now (kind_view kind) (view value.now))) }
{
    match from_json(part.alloc, types, value, kind) {
        Ok(value) => Ok(value),
        Err(JsonError::OutOfMemory) => Err(ReadError::OutOfMemory),
        Err(JsonError::Refused(cause)) => Err(bad_value(part.alloc, part.path, key, cause)?),
    }
}

/// Reads the `default` of a property of this kind, which is the kind's zero value if it is absent.
///
/// # Errors
///
/// Returns `ValueFault` at the member if it is no value of the kind, or `OutOfMemory` if memory is refused.
pub fn default_of(
    part: Part<'_>,
    types: &TypeTree,
    kind: Kind,
) -> Result<g_values::Value, ReadError>
    requires { IsKnown types.now kind }
    ensures { Gives value_view result (default_at (path_of part.entry.path) types.now (kind_view kind) (view part.entry.value.now)) }
{
    match part.value.get("default") {
        None => Ok(zero_of(types, kind)),
        Some(value) => value_of(part, "default", types, kind, value),
    }
}

/// Checks that a property may have its default value.
///
/// # Errors
///
/// Returns `BadSpec` with `DefaultInvalid` at `default` if it may not, or `OutOfMemory` if memory is refused.
pub fn check_default(part: Part<'_>, types: &TypeTree, spec: &Spec) -> Result<(), ReadError>
    requires { IsKnown types.now spec.now.kind }
    ensures { Gives (λ _. tt) result (check_default (under (path_of part.entry.path) (codes "default")) types.now (spec_view spec.now)) }
{
    if !is_valid_default(types, spec) {
        let path = path_under(part.alloc, part.path, "default")?;
        return Err(ReadError::Refused(DefinitionFault::BadSpec(
            path,
            SpecCause::Install(SpecFault::DefaultInvalid),
        )));
    }
    Ok(())
}

/// Checks that a property may have its default if its kind is not one of whole numbers. These have a range, which is read later.
///
/// # Errors
///
/// Returns `BadSpec` with `DefaultInvalid` at `default` if it may not, or `OutOfMemory` if memory is refused.
pub fn check_unranged(part: Part<'_>, types: &TypeTree, spec: &Spec) -> Result<(), ReadError>
    requires { IsKnown types.now spec.now.kind }
    ensures { Gives (λ _. tt) result (check_unranged (under (path_of part.entry.path) (codes "default")) types.now (spec_view spec.now)) }
{
    if is_whole(&spec.kind) {
        return Ok(());
    }
    check_default(part, types, spec)
}
