//! The faults of the lines that a hosted session hears.

use builder_defs::EventError;
use event_lines::LineRefusal;
use ui_engine::SessionFault;

/// The reason why an event line was not carried out to its end, or not begun.
#[derive(Clone, Copy, Debug, PartialEq, Eq)]
pub enum HostedFault {
    /// The line is refused, and the session goes on as it was.
    Refused(LineRefusal),
    /// Memory was refused while the line was read, and the session is as it was.
    NoMemory,
    /// Memory was refused while the event was carried out, or the session took no event.
    Stopped,
}

impl From<EventError> for HostedFault {
    ghost use Rattle.std.specs.Prelude.{◌≡◌};
    ghost use Rattle.c_sessions.specs.Faults.{reading_fault};

    ghost from_gives = { λ error fault. fault ≡ reading_fault error };

    fn from(error: EventError) -> HostedFault {
        match error {
            EventError::OutOfMemory => HostedFault::NoMemory,
            EventError::Refused(fault) => HostedFault::Refused(LineRefusal::from(fault)),
        }
    }
}

impl From<SessionFault> for HostedFault {
    ghost use Rattle.std.specs.Prelude.{◌≡◌};
    ghost use Rattle.c_sessions.specs.Faults.{dispatch_fault};

    ghost from_gives = { λ error fault. fault ≡ dispatch_fault error };

    fn from(fault: SessionFault) -> HostedFault {
        match fault {
            SessionFault::OutOfMemory | SessionFault::Stopped => HostedFault::Stopped,
            SessionFault::ClockBack => HostedFault::Refused(LineRefusal::ClockBack),
            SessionFault::Released => HostedFault::Refused(LineRefusal::Released),
        }
    }
}
