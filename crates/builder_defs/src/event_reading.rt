//! Reads events from the lines of an event file.

ghost use Rattle.std.specs.Prelude.{◌≡◌, Some, option_map, IfOk};
ghost use Rattle.serde_json.specs.Find.{as_str};
ghost use Rattle.serde_json.specs.View.{view, items_view};
ghost use Rattle.g_values.specs.View.{kind_view, value_view, IsKnown};
ghost use Rattle.g_values.specs.Reading.{json_value};
ghost use Rattle.ui_machine.specs.Definition.Lookups.{spec_of};
ghost use Rattle.definition_format.specs.Meaning.{event_of, given_view, class_at};
ghost use Rattle.definition_format.specs.Denoted.Given.{reference};
ghost use Rattle.param_specs.specs.View.{spec_view};
ghost use Rattle.law_steps.specs.Served.Sessions.{EventRead};
ghost use Rattle.definition_format.specs.EventMeaning.{Gives, event_denoted, event_meant, line_value, has_one_member, words_of_set, words_of_get, set_event, get_event, release_event, moment_if, turn_event, target, object_of, object_named, is_of_kind, object_given, given_by, readable, writable, or_value_fault};
ghost use Rattle.builder_defs.specs.SaidWords.{set_of, get_of, release_of};

use crate::emit_reading::emit_in;
use bitflags::Flags;
use definition_format::{Event, EventError, EventFault, Given, Request};
use definitions::Definition;
use g_values::{JsonError, Kind, from_json};
use param_specs::{PropertyFlags, Spec};
use read_objects::reference;
use serde_json::Value;
use std::alloc::Global;
use type_tree::{TypeId, TypeTree};
use ui_machine::{Place, Slot};

/// The greatest number of bytes of a line.
pub const MAX_LINE_BYTES: usize = 65_536;

/// The last moment that a turn can have, in milliseconds.
pub const MAX_MOMENT: u64 = 9_007_199_254_740_992;

/// Reads an event of a definition from a line. Everything that the event names exists and allows it, and its values fit, so a session of
/// the definition takes it.
///
/// # Errors
///
/// Returns `Refused` with the first fault in the order of `EventFault`, or `OutOfMemory` if memory is refused.
pub fn read_event(alloc: Global, definition: &Definition, bytes: &[u8]) -> Result<Event, EventError>
    ensures exact { Gives event_of result (event_denoted definition.now bytes.now) }
    ensures read { IfOk result (λ event. EventRead definition.now (event_of event)) }
{
    // For the proof: some bytes denote the definition.
    let _types = definition.types();
    event_of_line(alloc, definition, bytes)
}

// Returns the event that a line denotes.
#[tactic(auto, unfolding(definition_format::specs::EventMeaning::event_denoted))]
pub(crate) fn event_of_line(
    alloc: Global,
    definition: &Definition,
    bytes: &[u8],
) -> Result<Event, EventError>
    ensures { Gives event_of result (event_denoted definition.now bytes.now) }
{
    let value = parsed_line(alloc, bytes)?;
    let event = event_in(alloc, definition, &value)?;
    Ok(event)
}

// Parses a line as JSON. Refuses one that is too long, not UTF-8 or not JSON.
#[tactic(auto, unfolding(definition_format::specs::EventMeaning::line_value))]
fn parsed_line(alloc: Global, bytes: &[u8]) -> Result<Value, EventError>
    ensures { Gives view result (line_value bytes.now) }
{
    if bytes.len() > MAX_LINE_BYTES {
        return Err(EventError::Refused(EventFault::TooLong));
    }
    let Ok(text) = str::from_utf8(bytes) else {
        return Err(EventError::Refused(EventFault::NotJson));
    };
    match Value::from_str(alloc, text) {
        Ok(value) => Ok(value),
        Err(error) if error.is_memory() => Err(EventError::OutOfMemory),
        Err(_) => Err(EventError::Refused(EventFault::NotJson)),
    }
}

// Returns whether a value is an object with exactly one member.
#[tactic(auto, using(crate::proofs::OneMember::one_member_is))]
fn has_one_member(value: &Value) -> bool
    ensures { result ≡ has_one_member (view value.now) }
{
    match value.as_object() {
        Some(members) => members.len() == 1,
        None => false,
    }
}

// Returns the event that a value denotes.
#[tactic(auto, unfolding(definition_format::specs::EventMeaning::event_meant))]
fn event_in(alloc: Global, definition: &Definition, value: &Value) -> Result<Event, EventError>
    ensures { Gives event_of result (event_meant definition.now (view value.now)) }
{
    if !has_one_member(value) {
        return Err(EventError::Refused(EventFault::Shape));
    }
    if let Some(words) = value.get("set") {
        let event = set_in(alloc, definition, words)?;
        return Ok(event);
    }
    if let Some(words) = value.get("get") {
        let event = get_in(alloc, definition, words)?;
        return Ok(event);
    }
    if let Some(word) = value.get("release") {
        let event = release_in(alloc, definition, word)?;
        return Ok(event);
    }
    if let Some(words) = value.get("emit") {
        let event = emit_in(alloc, definition, words)?;
        return Ok(event);
    }
    let Some(word) = value.get("turn") else {
        return Err(EventError::Refused(EventFault::Shape));
    };
    let event = turn_in(word)?;
    Ok(event)
}

// Returns the id, the name and the value of a set.
fn words_of_set(items: &[Value]) -> Option<(&str, &str, &Value)>
    ensures { option_map (λ w. (w.0.now, w.1.now, view w.2.now)) result ≡ words_of_set (items_view items.now) }
{
    match items {
        [id, name, value] => Some((id.as_str()?, name.as_str()?, value)),
        [] => None,
        [_] => None,
        [_, _] => None,
        [_, _, _, _, ..] => None,
    }
}

// Returns the id and the name of a get.
fn words_of_get(items: &[Value]) -> Option<(&str, &str)>
    ensures { option_map (λ w. (w.0.now, w.1.now)) result ≡ words_of_get (items_view items.now) }
{
    match items {
        [id, name] => Some((id.as_str()?, name.as_str()?)),
        [] => None,
        [_] => None,
        [_, _, _, ..] => None,
    }
}

// Returns the event that sets a property of the object with this id.
pub(crate) fn set_of(
    alloc: Global,
    definition: &Definition,
    id: &str,
    name: &str,
    value: &Value,
) -> Result<Event, EventError>
    ensures { Gives event_of result (set_of definition.now id.now name.now (view value.now)) }
{
    // For the proof: what is known of a definition's types.
    let _types = definition.types();
    let target = target_of(alloc, definition, id, name)?;
    let object = object_named(alloc, definition, target.spec.kind, value)?;
    check_writable(target.spec)?;
    let given = given_by(alloc, definition, target.spec.kind, value, object)?;
    Ok(Event::Request(Request::Set {
        place: target.place,
        slot: target.slot,
        given,
    }))
}

// Reads a set from a list of its parts.
#[tactic(auto, unfolding(definition_format::specs::EventMeaning::set_event))]
fn set_in(alloc: Global, definition: &Definition, words: &Value) -> Result<Event, EventError>
    ensures { Gives event_of result (set_event definition.now (view words.now)) }
{
    let Some(items) = words.as_array() else {
        return Err(EventError::Refused(EventFault::Shape));
    };
    let Some((id, name, value)) = words_of_set(items.as_slice()) else {
        return Err(EventError::Refused(EventFault::Shape));
    };
    let event = set_of(alloc, definition, id, name, value)?;
    Ok(event)
}

// Returns the event that reads a property of the object with this id.
pub(crate) fn get_of(
    alloc: Global,
    definition: &Definition,
    id: &str,
    name: &str,
) -> Result<Event, EventError>
    ensures { Gives event_of result (get_of definition.now id.now name.now) }
{
    let target = target_of(alloc, definition, id, name)?;
    check_readable(target.spec)?;
    Ok(Event::Request(Request::Get {
        place: target.place,
        slot: target.slot,
    }))
}

// Reads a get from a list of its parts.
#[tactic(auto, unfolding(definition_format::specs::EventMeaning::get_event))]
fn get_in(alloc: Global, definition: &Definition, words: &Value) -> Result<Event, EventError>
    ensures { Gives event_of result (get_event definition.now (view words.now)) }
{
    let Some(items) = words.as_array() else {
        return Err(EventError::Refused(EventFault::Shape));
    };
    let Some((id, name)) = words_of_get(items.as_slice()) else {
        return Err(EventError::Refused(EventFault::Shape));
    };
    let event = get_of(alloc, definition, id, name)?;
    Ok(event)
}

// Returns the event that releases the object with this id.
pub(crate) fn release_of(
    alloc: Global,
    definition: &Definition,
    id: &str,
) -> Result<Event, EventError>
    ensures { Gives event_of result (release_of definition.now id.now) }
{
    match definition.object_place(id) {
        Some(place) => Ok(Event::Request(Request::Release { place })),
        None => Err(EventError::Refused(EventFault::Unknown(String::from_str(alloc, id)?))),
    }
}

// Reads a release from the id of its object.
#[tactic(auto, unfolding(definition_format::specs::EventMeaning::release_event))]
fn release_in(alloc: Global, definition: &Definition, word: &Value) -> Result<Event, EventError>
    ensures { Gives event_of result (release_event definition.now (view word.now)) }
{
    let Some(id) = word.as_str() else {
        return Err(EventError::Refused(EventFault::Shape));
    };
    let event = release_of(alloc, definition, id)?;
    Ok(event)
}

// Reads a turn from its moment.
#[tactic(auto, unfolding(definition_format::specs::EventMeaning::turn_event))]
pub(crate) fn turn_in(word: &Value) -> Result<Event, EventError>
    ensures { Gives event_of result (turn_event (view word.now)) }
{
    let Some(number) = word.as_number() else {
        return Err(EventError::Refused(EventFault::Shape));
    };
    match number.as_u64() {
        Some(moment) if moment <= MAX_MOMENT => Ok(Event::Turn(moment)),
        _ => Err(EventError::Refused(EventFault::ValueFault)),
    }
}

// A property of an object, with its slot.
#[derive(Clone, Copy)]
struct Target<'a> {
    place: Place,
    slot: Slot,
    spec: &'a Spec,
}

// Returns the property with this name of the object with this id.
#[tactic(auto, unfolding(definition_format::specs::EventMeaning::target))]
fn target_of<'a>(
    alloc: Global,
    definition: &'a Definition,
    id: &str,
    name: &str,
) -> Result<Target<'a>, EventError>
    ensures target { Gives (λ t. record { place = t.place.0; slot = t.slot; spec = spec_view t.spec.now }) result (target definition.now id.now name.now) }
    ensures spec { IfOk result (λ t. spec_of definition.now (class_at definition.now t.place.0) t.slot ≡ Some (spec_view t.spec.now)) }
{
    let Some(place) = definition.object_place(id) else {
        return Err(EventError::Refused(EventFault::Unknown(String::from_str(alloc, id)?)));
    };
    let class = definition.class_at(place);
    let Some(slot) = definition.slot(class, name) else {
        return Err(EventError::Refused(EventFault::Unknown(String::from_str(alloc, name)?)));
    };
    match definition.spec(class, slot) {
        Some(spec) => Ok(Target { place, slot, spec }),
        None => Err(EventError::Refused(EventFault::Unknown(String::from_str(alloc, name)?))),
    }
}

// Checks that a property may be set after its object is constructed.
fn check_writable(spec: &Spec) -> Result<(), EventError>
    ensures { Gives (λ _. tt) result (writable (spec_view spec.now)) }
{
    if !spec.flags.contains(PropertyFlags::WRITABLE) {
        return Err(EventError::Refused(EventFault::NotWritable));
    }
    if spec.flags.contains(PropertyFlags::CONSTRUCT_ONLY) {
        return Err(EventError::Refused(EventFault::ConstructOnly));
    }
    Ok(())
}

// Checks that a property may be read.
fn check_readable(spec: &Spec) -> Result<(), EventError>
    ensures { Gives (λ _. tt) result (readable (spec_view spec.now)) }
{
    if !spec.flags.contains(PropertyFlags::READABLE) {
        return Err(EventError::Refused(EventFault::NotReadable));
    }
    Ok(())
}

// Returns the object that a value of this kind names, or `None` if it names none. Refuses an id that no object has.
#[tactic(auto, unfolding(definition_format::specs::EventMeaning::object_of))]
pub(crate) fn object_named(
    alloc: Global,
    definition: &Definition,
    kind: Kind,
    value: &Value,
) -> Result<Option<Place>, EventError>
    ensures { Gives (option_map (λ p. p.0)) result (object_named definition.now (reference (kind_view kind) (as_str (view value.now)))) }
{
    let Some((_, id)) = reference(&kind, value.as_str()) else {
        return Ok(None);
    };
    match definition.object_place(id) {
        Some(place) => Ok(Some(place)),
        None => Err(EventError::Refused(EventFault::Unknown(String::from_str(alloc, id)?))),
    }
}

// Returns whether objects of this class are of a kind.
fn is_of_kind(types: &TypeTree, kind: Kind, class: TypeId) -> bool
    ensures { result ≡ is_of_kind types.now (kind_view kind) class }
{
    match kind {
        Kind::Object(t) => types.is_a(class, t),
        _ => false,
    }
}

// Returns the object at a place, which must be of this kind.
fn object_for(definition: &Definition, kind: Kind, place: Place) -> Result<Given, EventError>
    ensures { Gives given_view result (object_given definition.now (kind_view kind) place.0) }
{
    if !is_of_kind(definition.types(), kind, definition.class_at(place)) {
        return Err(EventError::Refused(EventFault::ValueFault));
    }
    Ok(Given::Object(place))
}

// Returns the object that a value names or, if it names none, the value of this kind.
pub(crate) fn given_by(
    alloc: Global,
    definition: &Definition,
    kind: Kind,
    value: &Value,
    object: Option<Place>,
) -> Result<Given, EventError>
    requires known { IsKnown definition.now.types kind }
    ensures { Gives given_view result (given_by definition.now (kind_view kind) (view value.now) (option_map (λ p. p.0) object)) }
{
    match object {
        Some(place) => object_for(definition, kind, place),
        None => {
            let value = value_for(alloc, definition.types(), kind, value)?;
            Ok(Given::Value(value))
        }
    }
}

// Reads a value of this kind from a JSON value.
fn value_for(
    alloc: Global,
    types: &TypeTree,
    kind: Kind,
    value: &Value,
) -> Result<g_values::Value, EventError>
    requires known { IsKnown types.now kind }
    ensures { Gives value_view result (or_value_fault (json_value types.now (kind_view kind) (view value.now))) }
{
    match from_json(alloc, types, value, kind) {
        Ok(value) => Ok(value),
        Err(JsonError::OutOfMemory) => Err(EventError::OutOfMemory),
        Err(JsonError::Refused(_)) => Err(EventError::Refused(EventFault::ValueFault)),
    }
}
