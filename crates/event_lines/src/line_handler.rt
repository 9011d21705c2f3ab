//! The event lines of a run, whose events its session carries out.

ghost use Rattle.std.specs.Prelude.{◌≡◌};
ghost use Rattle.ui_machine.specs.Prefix.{IsPrefix};
ghost use Rattle.event_lines.specs.LineStarts.{LineBegins};

use crate::refusal::LineRefusal;
use builder_defs::{EventError, EventReader};
use native_peers::Peers;
use std::alloc::Global;
use ui_engine::{Progress, Session, SessionFault};

/// The reason why an event line was not carried out to its end.
#[derive(Clone, Copy, Debug, PartialEq, Eq)]
pub enum LineFault {
    /// The line is refused, and the run goes on.
    Refused(LineRefusal),
    /// Memory was refused, or the session had stopped, and the run ends there.
    Stopped,
}

impl From<EventError> for LineFault {
    ghost use Rattle.std.specs.Prelude.{◌≡◌};
    ghost use Rattle.event_lines.specs.LineOutcome.{reading_fault};

    ghost from_gives = { λ error fault. fault ≡ reading_fault error };

    fn from(error: EventError) -> LineFault {
        match error {
            EventError::OutOfMemory => LineFault::Stopped,
            EventError::Refused(fault) => LineFault::Refused(LineRefusal::from(fault)),
        }
    }
}

impl From<SessionFault> for LineFault {
    ghost use Rattle.std.specs.Prelude.{◌≡◌};
    ghost use Rattle.event_lines.specs.LineOutcome.{dispatch_fault};

    ghost from_gives = { λ error fault. fault ≡ dispatch_fault error };

    // A session that has stopped carries nothing out, as if memory were refused.
    fn from(fault: SessionFault) -> LineFault {
        match fault {
            SessionFault::OutOfMemory | SessionFault::Stopped => LineFault::Stopped,
            SessionFault::ClockBack => LineFault::Refused(LineRefusal::ClockBack),
            SessionFault::Released => LineFault::Refused(LineRefusal::Released),
        }
    }
}

/// Begins the event of one line, which is neither blank nor past the limit. What the reader of events read before makes no difference.
///
/// # Errors
///
/// Returns `Refused` with the first refusal of the line or of its event, and `Stopped` if memory is refused or the session had stopped.
pub fn begin<P: Peers>(
    alloc: Global,
    session: &mut Session<P>,
    events: &mut EventReader,
    line: &[u8],
) -> Result<Progress, LineFault>
    ensures grows { IsPrefix session.old.core.world.transcript session.new.core.world.transcript }
    ensures begins { LineBegins result (P.relations session.old.pool) (P.seen session.old.pool) session.old.core line.now session.new.core }
    ensures pool { session.new.pool ≡ session.old.pool }
{
    let definition = session.definition();
    let event = events.read(alloc, definition, line)?;
    let progress = session.begin(event)?;
    Ok(progress)
}
