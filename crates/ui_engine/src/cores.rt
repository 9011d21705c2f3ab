//! The core of a session, which is the session without its pool, and the events that it carries out.

ghost use Rattle.std.specs.Prelude.{◌≡◌, ◌≤◌, ◌+◌, [], None, Ok, ℕ, List, map, option_map, string_bytes, false, IfOk};
ghost use Rattle.ui_machine.specs.Prefix.{IsPrefix};
ghost use Rattle.ui_machine.specs.Rules.Events.{refusal};
ghost use Rattle.ui_machine.specs.State.Config.{World};
ghost use Rattle.ui_machine.specs.State.Tasks as config;
ghost use Rattle.law_steps.specs.Served.Sessions.{EventRead};
ghost use Rattle.law_typing.specs.Good.Requests.{RequestRead};
ghost use Rattle.definition_format.specs.Meaning.{event_of, request_of};
ghost use Rattle.g_values.specs.View.{kind_view};
ghost use Rattle.native_peers.specs.Seen.{SameRelations};
ghost use Rattle.engine_dispatches.specs.Asked.{IsAnswerTo};
ghost use Rattle.engine_dispatches.specs.Courses.{HasCome, IfEnded, IfGoesOn, IfHasEnded, IfUnderWay, nothing_yet};
ghost use Rattle.engine_dispatches.specs.PoolView.{Knows, world_at};
ghost use Rattle.engine_dispatches.specs.Promises.{EventKeeps};
ghost use Rattle.ui_engine.specs.AskedKinds.{kind_asked, kind_of_request};
ghost use Rattle.ui_engine.specs.Phases.{phase_of};
ghost use Rattle.ui_engine.specs.SessionView.{AnswersEvent, BeginsBy, BeginsEvent, ComesOn, HasCourse, InCourse, IsSeated, state_at, without_lines};

use crate::asked_kinds::kind_of_request;
use crate::faults::SessionFault;
use definition_format::{Event, Request};
use definitions::Definition;
use engine_dispatches::{Course, Progress, Reply, advance, begin_dispatch, begin_next, begin_turn};
use engine_stack::Task;
use engine_world::engine::Engine;
use main_context::{Batch, TurnError};
use native_peers::Peers;
use std::marker::Model;
use verified::Verified;

/// The phase of a session.
#[derive(Clone, Copy, Debug, PartialEq, Eq)]
pub(crate) enum Phase {
    /// Nothing is left to do.
    AtRest,
    /// An event has begun and not ended.
    UnderWay,
    /// Memory was refused.
    Stopped,
}

/// A session without its pool. At rest nothing is left to do, and each object is counted as often as it is mentioned. No event that is read
/// against the definition can leave the machine stuck.
#[derive(Drop)]
pub struct Core {
    pub(crate) verified: Verified,
    pub(crate) engine: Engine,
    pub(crate) phase: Phase,
}

// Returns the phase of a session whose event has come so far.
fn phase_at(progress: &Progress) -> Phase
    ensures { result ≡ phase_of progress.now }
{
    match progress {
        Progress::UnderWay(_) => Phase::UnderWay,
        Progress::Ended(_) => Phase::AtRest,
    }
}

impl Model for Core {
    ghost use Rattle.ui_engine.specs.Phases.{IsKept, has_stopped, is_under_way};
    ghost use Rattle.ui_engine.specs.SessionView.{SessionState};
    ghost use Rattle.engine_world.specs.TaskView.{agenda_of};
    ghost use Rattle.engine_world.specs.View.{world_of};

    ghost Value = { SessionState };

    ghost view = { λ s. record {
      definition = s.verified;
      world = world_of s.engine.world;
      agenda = agenda_of s.verified s.engine;
      counted = s.engine.counted;
      stopped = has_stopped s.phase;
      under_way = is_under_way s.phase;
    } };

    ghost invariant = { λ s. IsKept s.verified s.engine s.phase };
}

impl Core {
    /// Carries out an event with all that it leads to, with a pool that the session knows. The event has to be one that was read against
    /// the session's definition.
    ///
    /// # Errors
    ///
    /// Returns the same errors as `Session::dispatch`.
    pub fn dispatch<P: Peers>(&mut self, pool: &mut P, event: Event) -> Result<Reply, SessionFault>
        requires read { EventRead self.now.definition (event_of event) }
        requires seated { IsSeated (P.seen pool.now) self.now }
        ensures answers { AnswersEvent (P.relations pool.old) self.old.stopped result (state_at (P.seen pool.old) self.old) (event_of event) (state_at (P.seen pool.new) self.new) }
        ensures keeps { self.old.stopped ≡ false → refusal self.old.world (event_of event) ≡ None → EventKeeps self.old.definition (world_at (P.seen pool.old) self.old.world) (event_of event) }
        ensures kind { IfOk result (λ reply. IsAnswerTo (kind_asked self.old.definition (event_of event)) reply.result) }
        ensures seated { IsSeated (P.seen pool.new) self.new }
        ensures same { SameRelations (P.relations pool.old) (P.relations pool.new) }
        ensures grows { IsPrefix self.old.world.transcript self.new.world.transcript }
    {
        let course = match self.begin(pool, event)? {
            Progress::Ended(reply) => return Ok(reply),
            Progress::UnderWay(course) => course,
        };
        match self.advance(pool, course, u64::MAX)? {
            Progress::Ended(reply) => Ok(reply),
            Progress::UnderWay(_) => unreachable!(),
        }
    }

    /// Begins an event beside a pool that the session knows, and leaves the pool as it is. While the event is under way the session refuses
    /// other events as `Stopped`. The event has to be one that was read against the session's definition.
    ///
    /// # Errors
    ///
    /// Returns the same errors as `Session::begin`.
    pub fn begin<P: Peers>(&mut self, pool: &P, event: Event) -> Result<Progress, SessionFault>
        requires read { EventRead self.now.definition (event_of event) }
        requires seated { IsSeated (P.seen pool.now) self.now }
        ensures begins { BeginsEvent (P.relations pool.now) self.old.stopped result (P.seen pool.now) self.old (event_of event) self.new }
        ensures keeps { self.old.stopped ≡ false → refusal self.old.world (event_of event) ≡ None → EventKeeps self.old.definition (world_at (P.seen pool.now) self.old.world) (event_of event) }
        ensures seated { IsSeated (P.seen pool.now) self.new }
        ensures in_course { IfUnderWay result (λ course. HasCourse (P.relations pool.now) course (P.seen pool.now) self.new) }
        ensures asked { IfUnderWay result (λ course. option_map kind_view course.asked ≡ kind_asked self.old.definition (event_of event)) }
        ensures none { IfUnderWay result (λ course. course.so_far.steps + self.new.counted ≡ 0) }
        ensures ended { IfEnded result (λ reply. reply ≡ nothing_yet) }
        ensures grows { IsPrefix self.old.world.transcript self.new.world.transcript }
    {
        match self.phase {
            Phase::AtRest => {}
            Phase::UnderWay | Phase::Stopped => return Err(SessionFault::Stopped),
        }
        match event {
            Event::Request(request) => self.begin_request(pool, request),
            Event::Turn(moment) => self.begin_turn(pool, moment),
        }
    }

    // Begins a request, unless it names an object that was released.
    fn begin_request<P: Peers>(
        &mut self,
        pool: &P,
        request: Request,
    ) -> Result<Progress, SessionFault>
        requires goes_on { self.now.stopped ≡ false }
        requires read { RequestRead self.now.definition (request_of request) }
        requires knows { Knows self.now.world (P.seen pool.now) }
        ensures begins { BeginsBy (P.relations pool.now) (refusal self.old.world (config.request (request_of request))) result (P.seen pool.now) self.old (config.request (request_of request)) self.new }
        ensures keeps { refusal self.old.world (config.request (request_of request)) ≡ None → EventKeeps self.old.definition (world_at (P.seen pool.now) self.old.world) (config.request (request_of request)) }
        ensures seated { IsSeated (P.seen pool.now) self.new }
        ensures asked { IfUnderWay result (λ course. option_map kind_view course.asked ≡ kind_of_request self.old.definition (request_of request)) }
        ensures none { IfUnderWay result (λ course. course.so_far.steps + self.new.counted ≡ 0) }
        ensures ended { IfEnded result (λ reply. reply ≡ nothing_yet) }
        ensures grows { IsPrefix self.old.world.transcript self.new.world.transcript }
    {
        if self.engine.world.names_released(&request) {
            return Err(SessionFault::Released);
        }
        let definition = self.verified.definition();
        // For the proof: some bytes denote the definition.
        let _types = definition.types();
        let asked = kind_of_request(definition, &request);
        begin_dispatch(&mut self.engine, definition, Task::Handling(request));
        self.phase = Phase::UnderWay;
        let so_far = Reply::none();
        Ok(Progress::UnderWay(Course {
            left: None,
            so_far,
            asked,
        }))
    }

    // Begins a turn of the main loop: the sources that are ready and have the least priority number run, each in a dispatch of its own. The
    // session stops if memory is refused.
    fn begin_turn<P: Peers>(&mut self, pool: &P, moment: u64) -> Result<Progress, SessionFault>
        requires goes_on { self.now.stopped ≡ false }
        requires knows { Knows self.now.world (P.seen pool.now) }
        ensures begins { BeginsBy (P.relations pool.now) (refusal self.old.world (config.turn moment)) result (P.seen pool.now) self.old (config.turn moment) self.new }
        ensures keeps { refusal self.old.world (config.turn moment) ≡ None → EventKeeps self.old.definition (world_at (P.seen pool.now) self.old.world) (config.turn moment) }
        ensures seated { IsSeated (P.seen pool.now) self.new }
        ensures asked { IfUnderWay result (λ course. course.asked ≡ None) }
        ensures none { IfUnderWay result (λ course. course.so_far.steps + self.new.counted ≡ 0) }
        ensures ended { IfEnded result (λ reply. reply ≡ nothing_yet) }
        ensures grows { IsPrefix self.old.world.transcript self.new.world.transcript }
    {
        let definition = self.verified.definition();
        // For the proof: some bytes denote the definition.
        let _types = definition.types();
        match begin_turn(&mut self.engine, definition, moment) {
            Ok(batch) => Ok(self.begin_sources(pool, batch)),
            Err(TurnError::ClockBack) => Err(SessionFault::ClockBack),
            Err(TurnError::OutOfMemory) => {
                self.phase = Phase::Stopped;
                Err(SessionFault::OutOfMemory)
            }
        }
    }

    // Begins the dispatch of the first source of a turn that has begun, if there is one.
    fn begin_sources<P: Peers>(&mut self, pool: &P, batch: Batch) -> Progress
        requires goes_on { self.now.stopped ≡ false }
        requires knows { Knows self.now.world (P.seen pool.now) }
        ensures comes { (event : config.Event) (w : World) → HasCome self.old.definition (P.relations pool.now) event w batch nothing_yet (world_at (P.seen pool.now) self.old.world) →
            ComesOn (Ok result) (P.relations pool.now) self.old.definition event w [] (P.seen pool.now) self.new }
        ensures seated { IsSeated (P.seen pool.now) self.new }
        ensures asked { IfGoesOn result (λ course. course.asked ≡ None) }
        ensures none { IfGoesOn result (λ course. course.so_far.steps + self.new.counted ≡ 0) }
        ensures ended { IfHasEnded result (λ reply. reply ≡ nothing_yet) }
        ensures grows { IsPrefix self.old.world.transcript self.new.world.transcript }
    {
        let definition = self.verified.definition();
        // For the proof: some bytes denote the definition.
        let _types = definition.types();
        let left = Some(batch);
        let so_far = Reply::none();
        let course = Course {
            left,
            so_far,
            asked: None,
        };
        let progress = begin_next(&mut self.engine, definition, course);
        self.phase = phase_at(&progress);
        progress
    }

    /// Goes on with an event for at most `most` counted steps, with the pool beside which it began.
    ///
    /// # Errors
    ///
    /// Returns the same errors as `Session::advance`.
    pub fn advance<P: Peers>(
        &mut self,
        pool: &mut P,
        course: Course,
        most: u64,
    ) -> Result<Progress, SessionFault>
        requires in_course { HasCourse (P.relations pool.now) course (P.seen pool.now) self.now }
        ensures comes { (event : config.Event) (w : World) (front : List (List ℕ)) → InCourse (P.relations pool.old) self.old.definition event w front course (P.seen pool.old) self.old →
            ComesOn result (P.relations pool.old) self.old.definition event w front (P.seen pool.new) self.new }
        ensures in_course { IfUnderWay result (λ course. HasCourse (P.relations pool.new) course (P.seen pool.new) self.new) }
        ensures seated { IsSeated (P.seen pool.new) self.new }
        ensures made { IfUnderWay result (λ next. next.so_far.steps + self.new.counted ≡ course.so_far.steps + self.old.counted + most) }
        ensures most { IfEnded result (λ reply. reply.steps ≤ course.so_far.steps + self.old.counted + most) }
        ensures asked { IfUnderWay result (λ next. next.asked ≡ course.asked) }
        ensures kind { IfEnded result (λ reply. IsAnswerTo (option_map kind_view course.asked) reply.result) }
        ensures same { SameRelations (P.relations pool.old) (P.relations pool.new) }
        ensures grows { IsPrefix self.old.world.transcript self.new.world.transcript }
    {
        let definition = self.verified.definition();
        // For the proof: some bytes denote the definition.
        let _types = definition.types();
        self.phase = Phase::Stopped;
        let progress = advance(&mut self.engine, definition, pool, course, most)?;
        self.phase = phase_at(&progress);
        Ok(progress)
    }

    /// Returns the definition that the session runs.
    pub fn definition(&self) -> &Definition
        ensures { result.now ≡ self.now.definition }
    {
        self.verified.definition()
    }

    /// Returns the lines that were said since the last call of `forget`, without their LF.
    pub fn transcript(&self) -> &[String]
        ensures { map string_bytes result.now ≡ self.now.world.transcript }
    {
        self.engine.world.transcript.as_slice()
    }

    /// Clears the lines so far. They make no difference to what is said later.
    pub fn forget(&mut self)
        ensures { self.new ≡ without_lines self.old }
    {
        self.engine.world.transcript.clear();
    }
}
