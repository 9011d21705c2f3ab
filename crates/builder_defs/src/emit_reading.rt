//! Reads the events that emit signals.

ghost use Rattle.std.specs.Prelude.{◌≡◌, [], length, map, option_map, slice_get, None, Some, IfOk};
ghost use Rattle.std.specs.Rc.{rc_str_bytes};
ghost use Rattle.std.specs.List.{AllByRecursion};
ghost use Rattle.serde_json.specs.Find.{as_array, as_str};
ghost use Rattle.serde_json.specs.View.{view, items_view};
ghost use Rattle.g_values.specs.View.{kind_view, IsKnown};
ghost use Rattle.ui_machine.specs.Rules.Connections.{signal_number};
ghost use Rattle.ui_machine.specs.Rules.EmissionPlan.{signal_of};
ghost use Rattle.signal_core.specs.SignalView.{declared_view};
ghost use Rattle.definition_format.specs.Meaning.{IsKnownKind, class_at, event_of, given_view};
ghost use Rattle.definition_format.specs.EventMeaning.{Gives, Leads, detail_word, emitted, words_of_emit, but_notify, signal_target, count, check_count, check_detail, each_of, id_known, argument, emit_event};
ghost use Rattle.builder_defs.specs.SaidWords.{emit_of};

use crate::event_reading::{given_by, object_named};
use bitflags::Flags;
use definition_format::{Event, EventError, EventFault, Given, Request};
use definitions::Definition;
use g_values::Kind;
use read_parts::names::is_name;
use serde_json::Value;
use signal_core::{DeclaredSignal, SignalFlags};
use std::alloc::{AllocError, Global};
use std::rc::RcStr;
use type_tree::TypeId;
use ui_machine::{Place, SignalId};

// The parts of an emission: an id, the name of a signal, the arguments, and a detail if there is one.
#[derive(Clone, Copy)]
struct Emitted<'a> {
    id: &'a str,
    name: &'a str,
    args: &'a [Value],
    detail: Option<&'a str>,
}

// Returns the detail in a value, or `None` if the value is no detail.
fn detail_word(value: &Value) -> Option<&str>
    ensures { option_map (λ s. Some s.now) result ≡ detail_word (as_str (view value.now)) }
{
    let text = value.as_str()?;
    if is_name(text) { Some(text) } else { None }
}

// Returns the parts of an emission without a detail.
fn plain_words<'a>(id: &'a Value, name: &'a Value, args: &'a Value) -> Option<Emitted<'a>>
    ensures { option_map (λ e. record { id = e.id.now; name = e.name.now; args = items_view e.args.now; detail = option_map (λ s. s.now) e.detail }) result
        ≡ emitted (as_str (view id.now)) (as_str (view name.now)) (as_array (view args.now)) (Some None) }
{
    Some(Emitted {
        id: id.as_str()?,
        name: name.as_str()?,
        args: args.as_array()?.as_slice(),
        detail: None,
    })
}

// Returns the parts of an emission with a detail.
fn detailed_words<'a>(
    id: &'a Value,
    name: &'a Value,
    args: &'a Value,
    detail: &'a Value,
) -> Option<Emitted<'a>>
    ensures { option_map (λ e. record { id = e.id.now; name = e.name.now; args = items_view e.args.now; detail = option_map (λ s. s.now) e.detail }) result
        ≡ emitted (as_str (view id.now)) (as_str (view name.now)) (as_array (view args.now)) (detail_word (as_str (view detail.now))) }
{
    Some(Emitted {
        id: id.as_str()?,
        name: name.as_str()?,
        args: args.as_array()?.as_slice(),
        detail: Some(detail_word(detail)?),
    })
}

// Returns the parts of an emission from its list.
fn words_of_emit(items: &[Value]) -> Option<Emitted<'_>>
    ensures { option_map (λ e. record { id = e.id.now; name = e.name.now; args = items_view e.args.now; detail = option_map (λ s. s.now) e.detail }) result ≡ words_of_emit (items_view items.now) }
{
    match items {
        [id, name, args] => plain_words(id, name, args),
        [id, name, args, detail] => detailed_words(id, name, args, detail),
        [] => None,
        [_] => None,
        [_, _] => None,
        [_, _, _, _, _, ..] => None,
    }
}

// Returns the number of the signal with this name in a class, or `None` if there is none or it is `notify`.
fn emitted_number(definition: &Definition, class: TypeId, name: &str) -> Option<SignalId>
    ensures { result ≡ but_notify (signal_number definition.now class name.now) }
{
    match definition.signal_number(class, name) {
        Some(0) => None,
        found => found,
    }
}

// Refuses a detail for a signal that takes none.
fn check_detail(
    alloc: Global,
    signal: &DeclaredSignal<'_>,
    detail: Option<&str>,
) -> Result<(), EventError>
    ensures { Gives (λ _. tt) result (check_detail (declared_view signal.now) (option_map (λ s. s.now) detail.entry)) }
{
    match detail {
        Some(detail) if !signal.flags.contains(SignalFlags::DETAILED) => {
            Err(EventError::Refused(EventFault::Unknown(String::from_str(alloc, detail)?)))
        }
        _ => Ok(()),
    }
}

// Returns the kind of a parameter, or `None` if the signal has fewer.
fn param_at(params: &[Kind], index: usize) -> Option<Kind>
    ensures { result ≡ slice_get params.now index }
{
    params.get(index).copied()
}

// Refuses a value that names an object which does not exist.
#[tactic(auto, unfolding(definition_format::specs::EventMeaning::id_known))]
fn check_id(
    alloc: Global,
    definition: &Definition,
    kind: Kind,
    value: &Value,
) -> Result<(), EventError>
    ensures { Gives (λ _. tt) result (id_known definition.now tt (kind_view kind) (view value.now)) }
{
    object_named(alloc, definition, kind, value)?;
    Ok(())
}

// Refuses the first value that names an object which does not exist. The values are read as ones of these kinds.
fn check_ids(
    alloc: Global,
    definition: &Definition,
    params: &[Kind],
    args: &[Value],
) -> Result<(), EventError>
    ensures { Gives (λ _. tt) result (each_of (id_known definition.now) tt (map kind_view params.now) (items_view args.now)) }
{
    'values: for (index, value) in args.iter().enumerate() {
        let Some(kind) = param_at(params, index) else {
            return Ok(());
        };
        check_id(alloc, definition, kind, value)?;
    }
    Ok(())
}

// Reads an argument of this kind and adds it.
#[tactic(auto, unfolding(definition_format::specs::EventMeaning::argument))]
fn add_argument(
    alloc: Global,
    definition: &Definition,
    kind: &Kind,
    value: &Value,
    given: &mut Vec<Given>,
) -> Result<(), EventError>
    requires { IsKnown definition.now.types kind.now }
    ensures { Leads result (argument definition.now (map given_view given.old.items) (kind_view kind.now) (view value.now)) (map given_view given.new.items) }
{
    let object = object_named(alloc, definition, *kind, value)?;
    let argument = given_by(alloc, definition, *kind, value, object)?;
    given.push(argument)?;
    Ok(())
}

// Reads arguments of these kinds.
fn arguments_of(
    alloc: Global,
    definition: &Definition,
    params: &[Kind],
    args: &[Value],
) -> Result<Vec<Given>, EventError>
    requires { AllByRecursion (IsKnownKind definition.now.types) (map kind_view params.now) }
    ensures { Gives (λ v. map given_view v.items) result (each_of (argument definition.now) [] (map kind_view params.now) (items_view args.now)) }
{
    let mut given = Vec::new(alloc);
    'values: for (index, value) in args.iter().enumerate() {
        let Some(kind) = param_at(params, index) else {
            return Ok(given);
        };
        add_argument(alloc, definition, &kind, value, &mut given)?;
    }
    Ok(given)
}

// Copies a text, if there is one, to one that can be shared.
fn copied(alloc: Global, detail: Option<&str>) -> Result<Option<RcStr>, AllocError>
    ensures { IfOk result (λ copy. option_map (λ text. rc_str_bytes text) copy ≡ option_map (λ s. s.now) detail.entry) }
{
    match detail {
        Some(detail) => Ok(Some(RcStr::from_str(alloc, detail)?)),
        None => Ok(None),
    }
}

// A signal of an object, with its number.
#[derive(Clone, Copy)]
struct Target<'a> {
    place: Place,
    number: SignalId,
    signal: DeclaredSignal<'a>,
}

// Returns the signal with this name of the object with this id, if an event may emit it.
#[tactic(auto, unfolding(definition_format::specs::EventMeaning::signal_target))]
fn target_of<'a>(
    alloc: Global,
    definition: &'a Definition,
    id: &str,
    name: &str,
) -> Result<Target<'a>, EventError>
    ensures target { Gives (λ t. record { place = t.place.0; which = t.number; signal = declared_view t.signal }) result (signal_target definition.now id.now name.now) }
    ensures signal { IfOk result (λ t. signal_of definition.now (class_at definition.now t.place.0) t.number ≡ Some (declared_view t.signal)) }
{
    let Some(place) = definition.object_place(id) else {
        return Err(EventError::Refused(EventFault::Unknown(String::from_str(alloc, id)?)));
    };
    let class = definition.class_at(place);
    let Some(number) = emitted_number(definition, class, name) else {
        return Err(EventError::Refused(EventFault::Unknown(String::from_str(alloc, name)?)));
    };
    match definition.signal(class, number) {
        Some(signal) => Ok(Target {
            place,
            number,
            signal,
        }),
        None => Err(EventError::Refused(EventFault::Unknown(String::from_str(alloc, name)?))),
    }
}

// Returns the number of parameters of a signal.
#[tactic(auto, using(crate::proofs::EachOf::params_are))]
fn param_count(signal: &DeclaredSignal<'_>) -> usize
    ensures { result ≡ length (declared_view signal.now).params }
{
    signal.params.len()
}

// Returns the number of values.
#[tactic(auto, using(crate::proofs::EachOf::count_is))]
fn count(args: &[Value]) -> usize
    ensures { result ≡ count (items_view args.now) }
{
    args.len()
}

// Checks that there are as many values as the signal has parameters.
fn check_count(signal: &DeclaredSignal<'_>, args: &[Value]) -> Result<(), EventError>
    ensures { Gives (λ _. tt) result (check_count (declared_view signal.now) (items_view args.now)) }
{
    if param_count(signal) != count(args) {
        return Err(EventError::Refused(EventFault::Shape));
    }
    Ok(())
}

// Returns the event that emits a signal of the object with this id.
pub(crate) fn emit_of(
    alloc: Global,
    definition: &Definition,
    id: &str,
    name: &str,
    values: &[Value],
    detail: Option<&str>,
) -> Result<Event, EventError>
    ensures { Gives event_of result (emit_of definition.now (record { id = id.now; name = name.now; args = items_view values.now; detail = option_map (λ s. s.now) detail.entry })) }
{
    // For the proof: what is known of a definition's signals.
    let _types = definition.types();
    let target = target_of(alloc, definition, id, name)?;
    let signal = target.signal;
    check_count(&signal, values)?;
    check_ids(alloc, definition, signal.params, values)?;
    check_detail(alloc, &signal, detail)?;
    let args = arguments_of(alloc, definition, signal.params, values)?;
    let detail = copied(alloc, detail)?;
    Ok(Event::Request(Request::Emit {
        place: target.place,
        signal: target.number,
        args,
        detail,
    }))
}

// Reads an emission from a list of its parts.
#[tactic(auto, unfolding(definition_format::specs::EventMeaning::emit_event))]
pub(crate) fn emit_in(
    alloc: Global,
    definition: &Definition,
    words: &Value,
) -> Result<Event, EventError>
    ensures { Gives event_of result (emit_event definition.now (view words.now)) }
{
    let Some(items) = words.as_array() else {
        return Err(EventError::Refused(EventFault::Shape));
    };
    let Some(said) = words_of_emit(items.as_slice()) else {
        return Err(EventError::Refused(EventFault::Shape));
    };
    let event = emit_of(
        alloc,
        definition,
        said.id,
        said.name,
        said.args,
        said.detail,
    )?;
    Ok(event)
}
