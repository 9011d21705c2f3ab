//! Reads the signals of classes and interfaces.

ghost use Rattle.std.specs.Prelude.{◌≡◌, ◌<◌, ◌≤◌, [], codes, length, is_some, true, map, option_map, string_bytes, Some, IfOk};
ghost use Rattle.json_trees.specs.View.{view, items_view};
ghost use Rattle.type_tree.specs.Adding.{sort_of};
ghost use Rattle.type_tree.specs.Entry.{view_of_sort};
ghost use Rattle.type_tree.specs.PropertyName.{is_property_name};
ghost use Rattle.g_values.specs.View.{kind_view};
ghost use Rattle.signal_core.specs.Emission.{accumulator_of};
ghost use Rattle.signal_core.specs.SignalView.{signal_view};
ghost use Rattle.signal_core.specs.Sources.{number_named, own_of, signals_of};
ghost use Rattle.signal_core.specs.Table.{line_count, takes_result};
ghost use Rattle.definition_format.specs.declared.faults.DefinitionFault.TheVariants as faults;
ghost use Rattle.definition_format.specs.declared.faults.ReadError.TheVariants as errors;
ghost use Rattle.definition_format.specs.declared.faults.SpecCause.TheVariants as causes;
ghost use Rattle.definition_format.specs.Refusals.{Gives, Leads, IsRefusal};
ghost use Rattle.definition_format.specs.Document.{under, path_of, each, at_entry};
ghost use Rattle.definition_format.specs.Denoted.Signals.{param_at, params_at, result_called, result_at, accumulator_named, accumulator_called, accumulator_at, room_for_signal, told_twice, new_signal, signal_of_entry, add_signal, signal_at};

use crate::signal_flags::signal_flags_of;
use definition_format::{DefinitionFault, DefinitionLimit, ReadError, SpecCause};
use g_values::Kind;
use json_trees::Value;
use read_parts::document::{Entries, Part, bad_shape, entry_name, path_under};
use read_parts::entries::TypeNames;
use read_parts::kinds::kind_of_word;
use read_parts::reads::{Reads, read_each};
use signal_core::{Accumulator, MOST_SIGNALS, Signal, SignalFault, SignalTable};
use std::alloc::{AllocError, Global};
use type_tree::{TypeId, TypeSort, TypeTree, canonical_name, is_property_name};

const MEMBERS: [&str; 5] = ["name", "params", "result", "flags", "accumulator"];

// The reader for the kinds of a signal's arguments.
#[derive(Clone, Copy)]
struct ParamEntries<'a> {
    types: &'a TypeTree,
    names: &'a TypeNames<'a>,
}

impl<'a> Reads<Vec<Kind>> for ParamEntries<'a> {
    ghost use Rattle.std.specs.Prelude.{List, map};
    ghost use Rattle.ui_machine.specs.Definition.Kinds as kinds;
    ghost use Rattle.g_values.specs.View.{kind_view};
    ghost use Rattle.definition_format.specs.Denoted.Signals.{param_at};

    ghost State = { List kinds.Kind };

    ghost seen = { λ params. map kind_view params.items };

    ghost Unchanged = { Unit {0} };

    ghost kept = { λ params. tt };

    ghost known = { λ r. Unit {0} };

    ghost step = { λ r path params d. param_at path r.types.now r.names.now params d };

    #[tactic(auto, unfolding(definition_format::specs::Denoted::Signals::param_at))]
    fn read(&self, part: Part<'_>, params: &mut Vec<Kind>) -> Result<(), ReadError> {
        let word = entry_name(part)?;
        let kind = kind_of_word(part, None, self.types, self.names, word)?;
        params.push(kind)?;
        Ok(())
    }
}

// Reads the kinds of a list.
fn read_params(
    list: Entries<'_>,
    types: &TypeTree,
    names: &TypeNames<'_>,
) -> Result<Vec<Kind>, ReadError>
    ensures { Gives (λ v. map kind_view v.items) result (each (at_entry (λ entry. param_at entry types.now names.now) list.entry.path.now) 0 [] (items_view list.entry.items.now)) }
{
    let mut params = Vec::new(list.alloc);
    let reader = ParamEntries { types, names };
    read_each(&reader, list, &mut params)?;
    Ok(params)
}

// Reads `params`, the kinds of a signal's arguments.
#[tactic(auto, unfolding(definition_format::specs::Denoted::Signals::params_at))]
fn params_of(
    part: Part<'_>,
    types: &TypeTree,
    names: &TypeNames<'_>,
) -> Result<Vec<Kind>, ReadError>
    ensures { Gives (λ v. map kind_view v.items) result (params_at (path_of part.entry.path) types.now names.now (view part.entry.value.now)) }
{
    let items = part.entries("params")?;
    let path = path_under(part.alloc, part.path, "params")?;
    let list = Entries {
        alloc: part.alloc,
        path: path.as_str(),
        items,
    };
    let params = read_params(list, types, names)?;
    Ok(params)
}

// Reads the result that a value names, which is a kind or `none`.
#[tactic(auto, unfolding(definition_format::specs::Denoted::Signals::result_called, definition_format::specs::Denoted::Signals::some_kind))]
fn result_called(
    part: Part<'_>,
    types: &TypeTree,
    names: &TypeNames<'_>,
    value: &Value,
) -> Result<Option<Kind>, ReadError>
    ensures { Gives (option_map kind_view) result (result_called (under (path_of part.entry.path) (codes "result")) types.now names.now (view value.now)) }
{
    let Some(word) = value.as_str() else {
        return Err(bad_shape(part.alloc, part.path, "result")?);
    };
    if word == "none" {
        return Ok(None);
    }
    let kind = kind_of_word(part, Some("result"), types, names, word)?;
    Ok(Some(kind))
}

// Reads the kind of a signal's `result`. There is no result if the member is absent.
fn result_of(
    part: Part<'_>,
    types: &TypeTree,
    names: &TypeNames<'_>,
) -> Result<Option<Kind>, ReadError>
    ensures { Gives (option_map kind_view) result (result_at (path_of part.entry.path) types.now names.now (view part.entry.value.now)) }
{
    match part.value.get("result") {
        None => Ok(None),
        Some(value) => result_called(part, types, names, value),
    }
}

// Returns the accumulator that a word names.
fn accumulator_named(word: &str) -> Option<Accumulator>
    ensures { option_map accumulator_of result ≡ accumulator_named word.now }
{
    if word == "true-handled" {
        Some(Accumulator::TrueHandled)
    } else if word == "first-wins" {
        Some(Accumulator::FirstWins)
    } else {
        None
    }
}

// Returns whether an accumulator can combine results of this kind.
fn takes_result(accumulator: &Accumulator, result_kind: &Option<Kind>) -> bool
    ensures { result ≡ takes_result (Some (accumulator_of accumulator.now)) (option_map kind_view result_kind.now) }
{
    match accumulator {
        Accumulator::TrueHandled => matches!(result_kind, Some(Kind::Bool)),
        Accumulator::FirstWins => result_kind.is_some(),
    }
}

// Reads the accumulator that a value names, which must fit the result.
#[tactic(auto, unfolding(definition_format::specs::Denoted::Signals::accumulator_called))]
fn accumulator_called(
    part: Part<'_>,
    result_kind: &Option<Kind>,
    value: &Value,
) -> Result<Option<Accumulator>, ReadError>
    ensures accumulator { Gives (option_map accumulator_of) result (accumulator_called (under (path_of part.entry.path) (codes "accumulator")) (option_map kind_view result_kind.now) (view value.now)) }
{
    let Some(word) = value.as_str() else {
        return Err(bad_shape(part.alloc, part.path, "accumulator")?);
    };
    let Some(accumulator) = accumulator_named(word) else {
        return Err(bad_shape(part.alloc, part.path, "accumulator")?);
    };
    if !takes_result(&accumulator, result_kind) {
        let path = path_under(part.alloc, part.path, "accumulator")?;
        return Err(not_declared(path, SignalFault::AccumulatorKind));
    }
    Ok(Some(accumulator))
}

// Reads the `accumulator` of a signal, which may be absent and must fit the result.
fn accumulator_in(
    part: Part<'_>,
    result_kind: &Option<Kind>,
) -> Result<Option<Accumulator>, ReadError>
    ensures accumulator { Gives (option_map accumulator_of) result (accumulator_at (path_of part.entry.path) (option_map kind_view result_kind.now) (view part.entry.value.now)) }
{
    match part.value.get("accumulator") {
        None => Ok(None),
        Some(value) => accumulator_called(part, result_kind, value),
    }
}

// Returns the refusal at `path` for a signal that is not declared.
fn not_declared(path: String, cause: SignalFault) -> ReadError
    ensures { result ≡ errors.Refused (faults.BadSpec path (causes.Declare cause)) }
{
    ReadError::Refused(DefinitionFault::BadSpec(path, SpecCause::Declare(cause)))
}

// Checks that a type has room for another signal.
fn check_room(types: &TypeTree, signals: &SignalTable, t: TypeId) -> Result<(), ReadError>
    ensures room { Gives (λ _. tt) result (room_for_signal (line_count types.now signals.now.signals t)) }
    ensures own { IfOk result (λ _. length (own_of signals.now.signals t) < 64) }
    ensures few { length types.now ≤ 256 }
{
    if signals.line_count(types, t) >= MOST_SIGNALS {
        return Err(ReadError::Refused(DefinitionFault::Limit(DefinitionLimit::Signals)));
    }
    Ok(())
}

// Makes the refusal for a signal's name that the type has already: `Duplicate` for a class, and a fault of the declaration for an
// interface.
fn name_again(part: Part<'_>, sort: TypeSort) -> Result<ReadError, ReadError>
    ensures { IsRefusal (told_twice (under (path_of part.entry.path) (codes "name")) (view_of_sort sort)) result }
{
    let path = path_under(part.alloc, part.path, "name")?;
    match sort {
        TypeSort::Class => Ok(ReadError::Refused(DefinitionFault::Duplicate(path))),
        TypeSort::Interface | TypeSort::Enum | TypeSort::Flags => {
            Ok(not_declared(path, SignalFault::Duplicate))
        }
    }
}

// Returns whether a type has a signal of this name, in any spelling.
fn has_signal(
    alloc: Global,
    types: &TypeTree,
    signals: &SignalTable,
    t: TypeId,
    name: &str,
) -> Result<bool, AllocError>
    requires { is_property_name name.now ≡ true }
    ensures { IfOk result (λ there. there ≡ is_some (number_named (signals_of types.now signals.now.signals t) name.now)) }
{
    let name = canonical_name(alloc, name)?;
    Ok(signals.has(types, t, name.as_str()))
}

// Checks that a name may be that of a signal, and that the type has no signal of this name.
fn check_name(
    part: Part<'_>,
    types: &TypeTree,
    signals: &SignalTable,
    t: TypeId,
    name: &str,
) -> Result<(), ReadError>
    requires { t < length types.now }
    ensures name { Gives (λ _. tt) result (new_signal (under (path_of part.entry.path) (codes "name")) (sort_of types.now t) (signals_of types.now signals.now.signals t) name.now) }
    ensures named { IfOk result (λ _. is_property_name name.now ≡ true) }
{
    if !is_property_name(name) {
        let path = path_under(part.alloc, part.path, "name")?;
        return Err(not_declared(path, SignalFault::BadName));
    }
    if has_signal(part.alloc, types, signals, t, name)? {
        return Err(name_again(part, types.sort(t))?);
    }
    Ok(())
}

// Reads a signal that a type does not have yet from an entry.
#[tactic(auto, unfolding(definition_format::specs::Denoted::Signals::signal_of_entry))]
fn signal_in(
    part: Part<'_>,
    types: &TypeTree,
    names: &TypeNames<'_>,
    signals: &SignalTable,
    t: TypeId,
) -> Result<Signal, ReadError>
    requires { t < length types.now }
    ensures signal { Gives signal_view result (signal_of_entry (path_of part.entry.path) types.now names.now t (line_count types.now signals.now.signals t) (signals_of types.now signals.now.signals t) (view part.entry.value.now)) }
    ensures named { IfOk result (λ s. is_property_name (string_bytes s.name) ≡ true) }
    ensures own { IfOk result (λ _. length (own_of signals.now.signals t) < 64) }
    ensures few { IfOk result (λ _. length types.now ≤ 256) }
{
    let members = part.members()?;
    check_room(types, signals, t)?;
    let name = part.text("name")?;
    check_name(part, types, signals, t, name)?;
    let params = params_of(part, types, names)?;
    let result = result_of(part, types, names)?;
    let flags = signal_flags_of(part)?;
    let accumulator = accumulator_in(part, &result)?;
    part.check_only(members, &MEMBERS)?;
    let name = String::from_str(part.alloc, name)?;
    Ok(Signal {
        name,
        params,
        result,
        flags,
        accumulator,
    })
}

// Reads the signal of an entry and declares it for a type.
fn read_signal(
    part: Part<'_>,
    types: &TypeTree,
    names: &TypeNames<'_>,
    signals: &mut SignalTable,
    t: TypeId,
) -> Result<(), ReadError>
    requires { t < length types.now }
    ensures signals { Leads result (signal_at (path_of part.entry.path) types.now names.now t (own_of signals.old.signals) (view part.entry.value.now)) (own_of signals.new.signals) }
    ensures handlers { signals.new.handlers ≡ signals.old.handlers }
{
    let signal = signal_in(part, types, names, signals, t)?;
    signals.append(t, signal)?;
    Ok(())
}

// The reader for the entries of a type's signals.
#[derive(Clone, Copy)]
struct SignalEntries<'a> {
    types: &'a TypeTree,
    names: &'a TypeNames<'a>,
    t: TypeId,
}

impl<'a> Reads<SignalTable> for SignalEntries<'a> {
    ghost use Rattle.std.specs.Prelude.{ℕ, List, ◌<◌, length};
    ghost use Rattle.ui_machine.specs.Definition.Signals as machine;
    ghost use Rattle.signal_core.specs.Sources.{own_of};
    ghost use Rattle.definition_format.specs.Denoted.Signals.{signal_at};

    ghost State = { ℕ → List machine.Signal };

    ghost seen = { λ signals. own_of signals.signals };

    ghost Unchanged = { List (List machine.ClassHandler) };

    ghost kept = { λ signals. signals.handlers };

    ghost known = { λ r. r.t < length r.types.now };

    ghost step = { λ r path own d. signal_at path r.types.now r.names.now r.t own d };

    fn read(&self, part: Part<'_>, signals: &mut SignalTable) -> Result<(), ReadError> {
        read_signal(part, self.types, self.names, signals, self.t)
    }
}

/// Reads the signals of a list and declares them for a type.
///
/// # Errors
///
/// Returns `Refused` with the first fault in document order, or `OutOfMemory` if memory is refused.
pub fn read_signals(
    list: Entries<'_>,
    types: &TypeTree,
    names: &TypeNames<'_>,
    signals: &mut SignalTable,
    t: TypeId,
) -> Result<(), ReadError>
    requires { t < length types.now }
    ensures signals { Leads result (each (at_entry (λ path. signal_at path types.now names.now t) list.entry.path.now) 0 (own_of signals.old.signals) (items_view list.entry.items.now)) (own_of signals.new.signals) }
    ensures handlers { signals.new.handlers ≡ signals.old.handlers }
{
    let reader = SignalEntries { types, names, t };
    read_each(&reader, list, signals)
}
