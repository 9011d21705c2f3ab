//! Sessions that begin without peers, whose lines are taken as a stream of bytes.

ghost use Rattle.c_sessions.specs.Places.{IsPlace};

use crate::running::Running;
use builder_defs::EventReader;

/// A session that began without peers and knows how far its lines were taken, and how far its event has come, if one is under way.
#[derive(Drop)]
pub struct HostedSession {
    pub(crate) running: Running,
    pub(crate) events: EventReader,
    // The first line of which a byte is left, and how many of its bytes were taken.
    pub(crate) line: usize,
    pub(crate) byte: usize,
    ghost place: { IsPlace running.core.world.transcript line byte },
}
