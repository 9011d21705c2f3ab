//! Tests of details of emissions and of moments of turns.

ghost use Rattle.std.specs.Prelude.{◌↔◌, IsTrue, option_map};
ghost use Rattle.std.specs.Rc.{rc_str_bytes};
ghost use Rattle.definition_format.specs.Meaning.{event_of, request_of};
ghost use Rattle.checked_events.specs.Readable.{IsReadable, IsReadableDetail, IsReadableRequest};

use definition_format::{Event, Request};
use read_parts::names::is_name;
use std::rc::RcStr;

// The last moment of a turn, in milliseconds.
const MOST_MOMENT: u64 = 9_007_199_254_740_992;

// Returns whether a detail is a name of the format, or there is none.
fn is_readable_detail(detail: &Option<RcStr>) -> bool
    ensures { IsTrue result ↔ IsReadableDetail (option_map (λ text. rc_str_bytes text) detail.now) }
{
    match detail {
        Some(text) => is_name(text.as_str()),
        None => true,
    }
}

// Returns whether the detail of an emission is one that reading gives.
fn is_readable_request(request: &Request) -> bool
    ensures { IsTrue result ↔ IsReadableRequest (request_of request.now) }
{
    match request {
        Request::Emit { detail, .. } => is_readable_detail(detail),
        _ => true,
    }
}

/// Returns whether the detail of an emission is a name of the format, and the moment of a turn is at most 2^53.
pub(crate) fn is_readable_event(event: &Event) -> bool
    ensures { IsTrue result ↔ IsReadable (event_of event.now) }
{
    match event {
        Event::Request(request) => is_readable_request(request),
        Event::Turn(moment) => *moment <= MOST_MOMENT,
    }
}
