//! Reads events from one line after the other.

ghost use Rattle.std.specs.Prelude.{◌≡◌, Ok, IfOk, IfSome};
ghost use Rattle.definition_format.specs.EventMeaning.{Gives, event_denoted, event_meant, line_value};
ghost use Rattle.definition_format.specs.Meaning.{event_of};
ghost use Rattle.law_steps.specs.Served.Sessions.{EventRead};
ghost use Rattle.read_lines.specs.LineData.{line_data};

use crate::emit_reading::emit_of;
use crate::event_reading::{MAX_LINE_BYTES, event_of_line, get_of, release_of, set_of, turn_in};
use definition_format::{Event, EventError};
use definitions::Definition;
use read_lines::{PlainLine, Scratch};
use std::alloc::{AllocError, Global};

/// A reader of events, which keeps its scratch buffer from line to line.
#[derive(Drop)]
pub struct EventReader {
    scratch: Scratch,
}

// Reads a line of a plain form, or returns `None` if it is too long, not UTF-8, or none of these.
fn plain_line<'a>(
    alloc: Global,
    bytes: &'a [u8],
    scratch: &'a mut Scratch,
) -> Result<Option<PlainLine<'a>>, AllocError>
    ensures { IfOk result (λ line. IfSome line (λ p. line_value bytes.now ≡ Ok (line_data p))) }
{
    if bytes.len() > MAX_LINE_BYTES {
        return Ok(None);
    }
    let Ok(text) = str::from_utf8(bytes) else {
        return Ok(None);
    };
    let line = PlainLine::read(alloc, text, scratch)?;
    Ok(line)
}

// Returns the event that a plain line denotes.
#[tactic(auto, using(crate::proofs::PlainEvents::plain_set, crate::proofs::PlainEvents::plain_get, crate::proofs::PlainEvents::plain_release, crate::proofs::PlainEvents::plain_emit, crate::proofs::PlainEvents::plain_turn))]
fn event_of_plain(
    alloc: Global,
    definition: &Definition,
    line: PlainLine<'_>,
) -> Result<Event, EventError>
    ensures { Gives event_of result (event_meant definition.now (line_data line.entry)) }
{
    match line {
        PlainLine::Set { id, name, value } => set_of(alloc, definition, id, name, &value),
        PlainLine::Get { id, name } => get_of(alloc, definition, id, name),
        PlainLine::Release { id } => release_of(alloc, definition, id),
        PlainLine::Emit { id, name, args } => {
            emit_of(alloc, definition, id, name, args.as_slice(), None)
        }
        PlainLine::Turn { moment } => turn_in(&moment),
    }
}

// Returns the event that a line denotes, in a plain form or any other.
#[tactic(auto, unfolding(definition_format::specs::EventMeaning::event_denoted))]
fn event_of_any(
    alloc: Global,
    definition: &Definition,
    bytes: &[u8],
    scratch: &mut Scratch,
) -> Result<Event, EventError>
    ensures { Gives event_of result (event_denoted definition.now bytes.now) }
{
    let Some(line) = plain_line(alloc, bytes, scratch)? else {
        return event_of_line(alloc, definition, bytes);
    };
    let event = event_of_plain(alloc, definition, line)?;
    Ok(event)
}

impl EventReader {
    /// Creates a reader that has read nothing.
    pub fn new(alloc: Global) -> EventReader {
        EventReader {
            scratch: Scratch::new(alloc),
        }
    }

    /// Reads an event of a definition from a line. Everything that the event names exists and allows it, and its values fit, so a session
    /// of the definition takes it. The lines before make no difference.
    ///
    /// # Errors
    ///
    /// Returns `Refused` with the first fault in the order of `EventFault`, or `OutOfMemory` if memory is refused.
    pub fn read(
        &mut self,
        alloc: Global,
        definition: &Definition,
        bytes: &[u8],
    ) -> Result<Event, EventError>
        ensures exact { Gives event_of result (event_denoted definition.now bytes.now) }
        ensures read { IfOk result (λ event. EventRead definition.now (event_of event)) }
    {
        // For the proof: some bytes denote the definition.
        let _types = definition.types();
        event_of_any(alloc, definition, bytes, &mut self.scratch)
    }
}
