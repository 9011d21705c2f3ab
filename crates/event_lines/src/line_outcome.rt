//! The start of one line of the event file in the session, and its outcome.

ghost use Rattle.std.specs.Prelude.{◌≡◌, ℕ, List};
ghost use Rattle.ui_machine.specs.Prefix.{IsPrefix};
ghost use Rattle.event_lines.specs.EventFileRun.{ends, status_after, is_blank};
ghost use Rattle.event_lines.specs.LineOutcome.{outcome_with};
ghost use Rattle.event_lines.specs.LineStarts.{GoesOnWhole, IfBegun, LineStarts};
ghost use Rattle.event_lines.specs.Reading.{IsOf};

use crate::MAX_LINES;
use crate::line_handler::{LineFault, begin};
use crate::line_reader::Found;
use crate::refusal::LineRefusal;
use builder_defs::EventReader;
use native_peers::Peers;
use std::alloc::Global;
use ui_engine::{Progress, Session};

/// The outcome of a line, beside the lines that were said.
#[derive(Clone, Copy, Debug, PartialEq, Eq)]
pub enum LineOutcome {
    Said,
    Refused(LineRefusal),
    /// The line was refused, and the run ends.
    CutOff(LineRefusal),
    /// Memory was refused or the session had stopped, and the run ends.
    Stopped,
}

impl LineOutcome {
    /// Returns whether the run ends with this line.
    pub fn ends(self) -> bool
        ensures { (said : List (List ℕ)) → result ≡ ends (outcome_with self said) }
    {
        match self {
            LineOutcome::Said | LineOutcome::Refused(_) => false,
            LineOutcome::CutOff(_) | LineOutcome::Stopped => true,
        }
    }

    /// Returns the status of the run after this line, from the status before it.
    pub fn status_after(self, status: u8) -> u8
        ensures { (said : List (List ℕ)) → result ≡ status_after status (outcome_with self said) }
    {
        match self {
            LineOutcome::Said => status,
            LineOutcome::Refused(_) | LineOutcome::CutOff(_) => 5,
            LineOutcome::Stopped => 3,
        }
    }
}

fn is_blank(line: &[u8]) -> bool
    ensures { result ≡ is_blank line.now }
{
    line.iter()
        .all(|b| *b == b' ' || *b == b'\t' || *b == b'\r')
}

/// The start of a line.
#[derive(Drop)]
pub enum LineStart {
    /// The line has ended with this outcome.
    Over(LineOutcome),
    /// The event of the line has begun, and has come so far.
    Begun(Progress),
}

/// Begins the event of the line that was found, unless the run refuses the line or passes over it.
pub fn start_line<P: Peers>(
    alloc: Global,
    session: &mut Session<P>,
    events: &mut EventReader,
    number: u64,
    found: Found,
    buffer: &[u8],
) -> LineStart
    ensures starts { (line : List ℕ) → IsOf found buffer.now line → LineStarts result (P.relations session.old.pool) (P.seen session.old.pool) session.old.core number buffer.now line session.new.core }
    ensures begun { IfBegun result (P.relations session.old.pool) (P.seen session.old.pool) session.old.core buffer.now session.new.core }
    ensures grows { IsPrefix session.old.core.world.transcript session.new.core.world.transcript }
    ensures goes_on { GoesOnWhole result number found }
    ensures pool { session.new.pool ≡ session.old.pool }
{
    if found == Found::NoMemory {
        return LineStart::Over(LineOutcome::Stopped);
    }
    if number > MAX_LINES {
        return LineStart::Over(LineOutcome::CutOff(LineRefusal::TooMany));
    }
    if found == Found::TooLong {
        return LineStart::Over(LineOutcome::CutOff(LineRefusal::TooLong));
    }
    if is_blank(buffer) {
        return LineStart::Over(LineOutcome::Said);
    }
    match begin(alloc, session, events, buffer) {
        Ok(progress) => return LineStart::Begun(progress),
        Err(LineFault::Refused(refusal)) => return LineStart::Over(LineOutcome::Refused(refusal)),
        Err(LineFault::Stopped) => return LineStart::Over(LineOutcome::Stopped),
    }
}
