//! The test of events against a definition.

ghost use Rattle.std.specs.Prelude.{◌≡◌, ◌↔◌, ◌&&◌, IfNone, IfSome, IsTrue, None, Some, not};
ghost use Rattle.ui_machine.specs.Definition.Properties.{is_construct_only, is_writable};
ghost use Rattle.ui_machine.specs.State.Tasks.{get, set};
ghost use Rattle.law_typing.specs.Good.Requests.{RequestRead};
ghost use Rattle.law_typing.specs.Graph.Channels.{spec_at};
ghost use Rattle.law_typing.specs.Laws.WellRead.{IsObject};
ghost use Rattle.law_steps.specs.Served.Sessions.{EventRead};
ghost use Rattle.law_short_texts.specs.ShortValues.{IsShortEvent};
ghost use Rattle.g_values.specs.View.{kind_view};
ghost use Rattle.param_specs.specs.View.{spec_view};
ghost use Rattle.definition_format.specs.Meaning.{IsKnownKind, event_of, given_view, request_of};
ghost use Rattle.checked_events.specs.Readable.{IsReadable};

use crate::emissions::is_emission;
use crate::givens::is_given_of_kind;
use crate::objects::{is_object, object_class};
use crate::readable_events::is_readable_event;
use crate::short_texts::is_short_event;
use definition_format::{Event, Given, Request};
use definitions::Definition;
use param_specs::Spec;
use ui_machine::{Place, Slot};

// Returns the property of the object at a place, by its slot. Returns `None` if no object is there or it has no such property.
fn property(definition: &Definition, place: Place, slot: Slot) -> Option<&Spec>
    ensures object { IfSome result (λ _. IsObject definition.now place.0) }
    ensures spec { IfSome result (λ spec. spec_at definition.now place.0 slot ≡ Some (spec_view spec.now)) }
    ensures known { IfSome result (λ spec. IsKnownKind definition.now.types (kind_view spec.now.kind)) }
    ensures none { IfNone result (IsObject definition.now place.0 → spec_at definition.now place.0 slot ≡ None) }
{
    // For the proof: facts about a definition's properties.
    let _types = definition.types();
    let class = object_class(definition, place)?;
    definition.spec(class, slot)
}

// Returns whether a property may be set while its object lives.
fn may_be_set(spec: &Spec) -> bool
    ensures { result ≡ (is_writable (spec_view spec.now) && not (is_construct_only (spec_view spec.now))) }
{
    spec.is_writable() && !spec.is_construct_only()
}

// Returns whether the object at a place has a property that may be set to what is given.
fn is_set(definition: &Definition, place: Place, slot: Slot, given: &Given) -> bool
    ensures { IsTrue result ↔ RequestRead definition.now (set place.0 slot (given_view given.now)) }
{
    let Some(spec) = property(definition, place, slot) else {
        return false;
    };
    if !may_be_set(spec) {
        return false;
    }
    is_given_of_kind(definition, given, spec.kind)
}

// Returns whether the object at a place has a property that may be read.
fn is_get(definition: &Definition, place: Place, slot: Slot) -> bool
    ensures { IsTrue result ↔ RequestRead definition.now (get place.0 slot) }
{
    match property(definition, place, slot) {
        Some(spec) => spec.is_readable(),
        None => false,
    }
}

// Returns whether a request meets all that reading an event line makes sure of.
fn is_request_of(definition: &Definition, request: &Request) -> bool
    ensures { IsTrue result ↔ RequestRead definition.now (request_of request.now) }
{
    match request {
        Request::Set { place, slot, given } => is_set(definition, *place, *slot, given),
        Request::Get { place, slot } => is_get(definition, *place, *slot),
        Request::Release { place } => is_object(definition, *place),
        Request::Emit {
            place,
            signal,
            args,
            detail,
        } => is_emission(definition, *place, *signal, args.as_slice(), detail),
    }
}

// Returns whether what an event names is there and may be asked for, and what it gives is of the kinds that are wanted.
fn is_fitting_event(definition: &Definition, event: &Event) -> bool
    ensures { IsTrue result ↔ EventRead definition.now (event_of event.now) }
{
    match event {
        Event::Request(request) => is_request_of(definition, request),
        Event::Turn(_) => true,
    }
}

/// Returns whether an event meets all that reading an event line makes sure of for a definition, so that a session of the definition may be
/// asked to carry it out. Whatever the event names has to exist: an object that is no prototype, a property of the object's class, a signal
/// of it other than `notify`. The property has to be readable, or settable while the object lives. Each value has to be of the kind that is
/// wanted, and each object that is given as a value of its type. An emission has to give as many arguments as the signal has parameters,
/// and a detail only if the signal takes details. A text that is a value has at most 4,096 bytes, a detail is 1 to 64 ASCII letters, digits,
/// `-` or `_`, and the moment of a turn is at most 2^53.
pub fn is_event_of(definition: &Definition, event: &Event) -> bool
    ensures { IsTrue result ↔ EventRead definition.now (event_of event.now) × IsShortEvent (event_of event.now) × IsReadable (event_of event.now) }
{
    is_fitting_event(definition, event) && is_short_event(event) && is_readable_event(event)
}
