//! The event lines that a session carries out.

ghost use Rattle.std.specs.Prelude.{◌≡◌, ◌++◌, IfErr, true};
ghost use Rattle.ui_machine.specs.Prefix.{IsPrefix};
ghost use Rattle.native_peers.specs.StandIns.{stand_ins};
ghost use Rattle.event_lines.specs.Events.{event_replies};
ghost use Rattle.event_lines.specs.Texts.{lines_text};
ghost use Rattle.c_sessions.specs.Courses.{Advances};
ghost use Rattle.c_sessions.specs.Faults.{outcome_here};
ghost use Rattle.c_sessions.specs.Keeping.{KeepsBy};
ghost use Rattle.c_sessions.specs.LineBeginnings.{BeginsLine, LeavesBy};
ghost use Rattle.c_sessions.specs.Nobody.{nobody};
ghost use Rattle.c_sessions.specs.Reached.{held};
ghost use Rattle.c_sessions.specs.RunStates.{is_under_way, resting};
ghost use Rattle.c_sessions.specs.Since.{lines_since};
ghost use Rattle.c_sessions.specs.Unread.{unread};

use crate::faults::HostedFault;
use crate::hosted_session::HostedSession;
use crate::running::Running;
use builder_defs::EventReader;
use native_peers::StandIn;
use std::alloc::Global;
use ui_engine::{Session, SessionFault};

impl HostedSession {
    /// Creates a hosted session of which no line was taken.
    pub(crate) fn of(alloc: Global, session: Session<Option<StandIn>>) -> HostedSession
        ensures running { result.running ≡ resting (stand_ins session.pool) session.core }
        ensures unread { unread result ≡ lines_text session.core.world.transcript }
    {
        HostedSession {
            running: Running::of(session),
            events: EventReader::new(alloc),
            line: 0,
            byte: 0,
        }
    }

    /// Returns whether an event is under way.
    pub fn is_under_way(&self) -> bool
        ensures { result ≡ is_under_way self.now.running }
    {
        self.running.is_under_way()
    }

    /// Carries out an event line, which is given without its LF. What it says comes after the lines that were not taken yet.
    ///
    /// # Errors
    ///
    /// Returns `Refused` with the first refusal of the line or of its event, and `NoMemory` if memory is refused while the line is read.
    /// Neither changes anything. Otherwise returns `Stopped`, if memory is refused, which stops the session, or if the session had stopped
    /// or an event is under way.
    pub fn dispatch_line(&mut self, alloc: Global, line: &[u8]) -> Result<(), HostedFault>
        ensures keeps { KeepsBy result line.now (held self.old) }
        ensures replies { event_replies nobody (held self.old) line.now (outcome_here result (lines_since (held self.old) (held self.new))) (held self.new) }
        ensures leaves { IfErr result (λ fault. LeavesBy fault self.old.running self.new.running) }
        ensures stays { (held self.old).stopped ≡ true → held self.new ≡ held self.old }
        ensures course { self.new.running.course ≡ self.old.running.course }
        ensures unread { unread self.new ≡ unread self.old ++ lines_text (lines_since (held self.old) (held self.new)) }
    {
        if self.running.is_under_way() {
            return Err(HostedFault::Stopped);
        }
        let definition = self.running.definition();
        let event = self.events.read(alloc, definition, line)?;
        self.running.dispatch(event)?;
        Ok(())
    }

    /// Begins the event of a line, which is given without its LF. If it has more to do than its beginning it is under way then, and
    /// `advance` goes on with it. What it says meanwhile can be taken.
    ///
    /// # Errors
    ///
    /// Returns the same errors as `dispatch_line`.
    pub fn begin_line(&mut self, alloc: Global, line: &[u8]) -> Result<(), HostedFault>
        ensures grows { IsPrefix (held self.old).world.transcript (held self.new).world.transcript }
        ensures keeps { KeepsBy result line.now (held self.old) }
        ensures begins { BeginsLine (is_under_way self.old.running) result line.now self.old.running self.new.running }
        ensures leaves { IfErr result (λ fault. LeavesBy fault self.old.running self.new.running) }
        ensures stays { (held self.old).stopped ≡ true → held self.new ≡ held self.old }
        ensures unread { unread self.new ≡ unread self.old ++ lines_text (lines_since (held self.old) (held self.new)) }
    {
        if self.running.is_under_way() {
            return Err(HostedFault::Stopped);
        }
        let definition = self.running.definition();
        let event = self.events.read(alloc, definition, line)?;
        self.running.begin(event)?;
        Ok(())
    }

    /// Goes on with the event that is under way for at most `most` counted steps. If it does not end, exactly so many were made. Does
    /// nothing if no event is under way.
    ///
    /// # Errors
    ///
    /// Returns `OutOfMemory` if memory is refused, which stops the session.
    pub fn advance(&mut self, most: u64) -> Result<(), SessionFault>
        ensures advances { Advances (is_under_way self.old.running) result most self.old.running self.new.running }
        ensures unread { unread self.new ≡ unread self.old ++ lines_text (lines_since (held self.old) (held self.new)) }
    {
        self.running.advance(most)
    }
}
