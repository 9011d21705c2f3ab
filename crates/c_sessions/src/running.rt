//! Sessions without peers, and the events that are under way in them.

ghost use Rattle.std.specs.Prelude.{◌≡◌, map, string_bytes, true};
ghost use Rattle.ui_machine.specs.Prefix.{IsPrefix};
ghost use Rattle.law_steps.specs.Served.Sessions.{EventRead};
ghost use Rattle.definition_format.specs.Meaning.{event_of};
ghost use Rattle.native_peers.specs.StandIns.{stand_ins};
ghost use Rattle.ui_engine.specs.SessionView.{AnswersEvent};
ghost use Rattle.c_sessions.specs.Courses.{Advances, BeginsBy, FromWherever, HasComeStill};
ghost use Rattle.c_sessions.specs.Keeping.{KeepsEvent};
ghost use Rattle.c_sessions.specs.Nobody.{nobody};
ghost use Rattle.c_sessions.specs.RunStates.{course_left, is_under_way, reached, resting, without_said};

use definition_format::Event;
use definitions::Definition;
use native_peers::StandIn;
use std::marker::Model;
use ui_engine::{Course, Progress, Reply, Session, SessionFault};

/// A session without peers, and how far its event has come, if one is under way.
#[derive(Drop)]
pub(crate) struct Running {
    session: Session<Option<StandIn>>,
    course: Option<Course>,
}

impl Model for Running {
    ghost use Rattle.native_peers.specs.StandIns.{stand_ins};
    ghost use Rattle.c_sessions.specs.RunStates.{IsCourse, RunState};

    ghost Value = { RunState };

    ghost view = { λ r. record { pool = stand_ins r.session.pool; core = r.session.core; course = r.course } };

    ghost invariant = { λ r. IsCourse r.course (stand_ins r.session.pool) r.session.core };
}

impl Running {
    /// Runs a session in which no event is under way.
    pub(crate) fn of(session: Session<Option<StandIn>>) -> Running
        ensures { result ≡ resting (stand_ins session.pool) session.core }
    {
        Running {
            session,
            course: None,
        }
    }

    /// Returns the session.
    pub(crate) fn session(&self) -> &Session<Option<StandIn>>
        ensures { result.now.core ≡ self.now.core }
    {
        &self.session
    }

    /// Returns the definition that the session runs.
    pub(crate) fn definition(&self) -> &Definition
        ensures { result.now ≡ self.now.core.definition }
    {
        self.session.definition()
    }

    /// Returns the lines that were said since they were let go of.
    pub(crate) fn transcript(&self) -> &[String]
        ensures { map string_bytes result.now ≡ self.now.core.world.transcript }
    {
        self.session.transcript()
    }

    /// Returns whether an event is under way. Then the session takes no other.
    pub(crate) fn is_under_way(&self) -> bool
        ensures answer { result ≡ is_under_way self.now }
        ensures stops { is_under_way self.now ≡ true → self.now.core.stopped ≡ true }
    {
        self.course.is_some()
    }

    /// Carries out an event with all that it leads to.
    ///
    /// # Errors
    ///
    /// Returns the same errors as `Session::dispatch`, and `Stopped` if an event is under way. Nothing has changed then.
    pub(crate) fn dispatch(&mut self, event: Event) -> Result<Reply, SessionFault>
        requires read { EventRead self.now.core.definition (event_of event) }
        ensures answers { AnswersEvent nobody self.old.core.stopped result (reached self.old) (event_of event) (reached self.new) }
        ensures keeps { KeepsEvent (event_of event) (reached self.old) }
        ensures course { self.new.course ≡ self.old.course }
        ensures grows { IsPrefix self.old.core.world.transcript self.new.core.world.transcript }
    {
        if self.course.is_some() {
            return Err(SessionFault::Stopped);
        }
        self.session.dispatch(event)
    }

    /// Begins an event. If it has more to do than its beginning it is under way then.
    ///
    /// # Errors
    ///
    /// Returns the same errors as `dispatch`.
    pub(crate) fn begin(&mut self, event: Event) -> Result<(), SessionFault>
        requires read { EventRead self.now.core.definition (event_of event) }
        ensures begins { BeginsBy result (event_of event) self.old self.new }
        ensures keeps { KeepsEvent (event_of event) (reached self.old) }
        ensures grows { IsPrefix self.old.core.world.transcript self.new.core.world.transcript }
    {
        if self.course.is_some() {
            return Err(SessionFault::Stopped);
        }
        let progress = self.session.begin(event)?;
        self.course = course_left(progress);
        Ok(())
    }

    /// Goes on with the event that is under way for at most `most` counted steps. If it does not end, exactly so many were made. Does
    /// nothing if no event is under way.
    ///
    /// # Errors
    ///
    /// Returns `OutOfMemory` if memory is refused, which stops the session.
    pub(crate) fn advance(&mut self, most: u64) -> Result<(), SessionFault>
        ensures advances { Advances (is_under_way self.old) result most self.old self.new }
        ensures grows { IsPrefix self.old.core.world.transcript self.new.core.world.transcript }
    {
        let Some(course) = self.course.take() else {
            return Ok(());
        };
        let progress = self.session.advance(course, most)?;
        self.course = course_left(progress);
        Ok(())
    }

    /// Lets go of the lines so far. An event that is under way can still go on.
    pub(crate) fn forget(&mut self)
        ensures forgets { self.new ≡ without_said self.old }
        ensures under_way { FromWherever self.old (λ event w front steps. HasComeStill event w front steps self.old self.new) }
    {
        self.session.forget();
    }
}

// Returns what is kept of an event that has come so far.
fn course_left(progress: Progress) -> Option<Course>
    ensures { result ≡ course_left progress }
{
    match progress {
        Progress::UnderWay(course) => Some(course),
        Progress::Ended(_) => None,
    }
}
