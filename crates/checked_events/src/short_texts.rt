//! Tests of the lengths of the texts that an event brings.

ghost use Rattle.std.specs.Prelude.{◌↔◌, IsTrue, map};
ghost use Rattle.law_typing.specs.Verdict.Accepted.{Each};
ghost use Rattle.law_short_texts.specs.ShortValues.{IsShortEvent, IsShortGiven, IsShortRequest};
ghost use Rattle.definition_format.specs.Meaning.{event_of, given_view, request_of};

use definition_format::{Event, Given, Request};
use g_values::{MOST_TEXT_BYTES, Value};

// Returns whether what is given is no text, or one that is not too long.
fn is_short_given(given: &Given) -> bool
    ensures { IsTrue result ↔ IsShortGiven (given_view given.now) }
{
    match given {
        Given::Value(Value::Text(Some(text))) => text.len() <= MOST_TEXT_BYTES,
        _ => true,
    }
}

// Returns whether no text among what is given is too long.
fn are_short_givens(givens: &[Given]) -> bool
    ensures { IsTrue result ↔ Each IsShortGiven (map given_view givens.now) }
{
    givens.iter().all(|given| is_short_given(given))
}

// Returns whether no text that a request brings is too long.
fn is_short_request(request: &Request) -> bool
    ensures { IsTrue result ↔ IsShortRequest (request_of request.now) }
{
    match request {
        Request::Set { given, .. } => is_short_given(given),
        Request::Emit { args, .. } => are_short_givens(args.as_slice()),
        _ => true,
    }
}

/// Returns whether each text that an event brings as a value has at most 4,096 bytes.
pub(crate) fn is_short_event(event: &Event) -> bool
    ensures { IsTrue result ↔ IsShortEvent (event_of event.now) }
{
    match event {
        Event::Request(request) => is_short_request(request),
        Event::Turn(_) => true,
    }
}
