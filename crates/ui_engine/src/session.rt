//! A session: a verified definition, its pool of peers, and its state while its events come.

ghost use Rattle.std.specs.Prelude.{◌≡◌, ◌≤◌, ◌+◌, ℕ, List, None, map, option_map, string_bytes, IfOk, IfErr, IfNone, IfSome, Option, false, true};
ghost use Rattle.ui_machine.specs.Prefix.{IsPrefix};
ghost use Rattle.ui_machine.specs.Rules.Events.{refusal};
ghost use Rattle.ui_machine.specs.State.Config.{World};
ghost use Rattle.ui_machine.specs.State.Tasks as config;
ghost use Rattle.law_typing.specs.Verdict.Accepted.{Accepted};
ghost use Rattle.verified_limits.specs.Limits.{is_within};
ghost use Rattle.law_peers.specs.Needs.{Mismatch, mismatch};
ghost use Rattle.law_steps.specs.Served.Sessions.{EventRead};
ghost use Rattle.definition_format.specs.Meaning.{event_of};
ghost use Rattle.g_values.specs.View.{kind_view};
ghost use Rattle.native_peers.specs.Matching.{as_peers};
ghost use Rattle.native_peers.specs.Seen.{SameRelations};
ghost use Rattle.ui_engine.specs.Endings.{taken_closed};
ghost use Rattle.engine_dispatches.specs.Asked.{IsAnswerTo};
ghost use Rattle.engine_dispatches.specs.Courses.{IfEnded, IfUnderWay, nothing_yet};
ghost use Rattle.engine_dispatches.specs.declared.courses.Course.{Course};
ghost use Rattle.engine_dispatches.specs.PoolView.{world_at};
ghost use Rattle.engine_dispatches.specs.Promises.{BuildKeeps, EventKeeps};
ghost use Rattle.ui_engine.specs.AskedKinds.{kind_asked};
ghost use Rattle.ui_engine.specs.BuildBegins.{IsBegun};
ghost use Rattle.ui_engine.specs.SessionView.{AnswersEvent, BeginsEvent, Comes, ComesOn, HasCourse, InCourse, IsSeated, IsWhy, IsWhyWithin, building, state_at, without_lines};

use crate::cores::{Core, Phase};
use crate::endings::{close_in_order, close_taken};
use crate::faults::{SessionFault, StartFault};
use crate::starts::{Beginning, begin};
use definition_format::Event;
use definitions::Definition;
use engine_dispatches::{Course, Progress, Reply, dispatch};
use engine_stack::Task;
use engine_world::places::FIRST_PLACE;
use native_peers::Peers;
use std::alloc::Global;
use verified::Verified;
use verified_limits::is_within;

/// A session, which runs a verified definition with the pool of its peers. It knows the name and the methods of each peer, and whether the
/// peer is open.
#[derive(Drop)]
pub struct Session<P: Peers> {
    pub(crate) core: Core,
    pub(crate) pool: P,
    ghost seated: { IsSeated (P.seen pool) core },
}

/// A session whose definition was built, or whose build stopped it.
#[derive(Drop)]
pub struct Started<P: Peers> {
    pub session: Session<P>,
    pub build: Result<Reply, SessionFault>,
}

/// What is handed back if no session began: the reason, the definition, and the pool, of which no peer was called or closed.
#[derive(Drop)]
pub struct Refused<P> {
    pub fault: StartFault,
    pub verified: Verified,
    pub pool: P,
}

/// What is left of a session that has ended: its lines, and its pool, in which each peer that an object has got is closed.
#[derive(Drop)]
pub struct Finished<P> {
    pub transcript: Vec<String>,
    pub pool: P,
}

// Returns why a definition may not start with a limit on the steps of each dispatch, or `None` if it may.
fn limit_fault(alloc: Global, verified: &Verified, most: u64) -> Option<StartFault>
    ensures may { (a : Accepted verified.now) → IfNone result (is_within verified.now a most ≡ true) }
    ensures why { (lack : Option Mismatch) → IfSome result (λ fault. IsWhyWithin verified.now most fault lack) }
{
    match is_within(alloc, verified, most) {
        Ok(true) => None,
        Ok(false) => Some(StartFault::StepLimit),
        Err(_) => Some(StartFault::OutOfMemory),
    }
}

// Builds the objects of a verified definition, from the state with which a build begins.
fn build<P: Peers>(verified: Verified, mut pool: P, beginning: Beginning) -> Started<P>
    requires begun { IsBegun verified (P.seen pool) beginning }
    ensures built { Comes result.build (building (P.relations pool) verified (as_peers (P.seen pool))) verified (state_at (P.seen result.session.pool) result.session.core) }
    ensures same { SameRelations (P.relations pool) (P.relations result.session.pool) }
{
    let definition = verified.definition();
    // For the proof: some bytes denote the definition, and it has few places.
    let _types = definition.types();
    let _places = definition.place_count();
    let Beginning {
        mut engine,
        forwards,
    } = beginning;
    let task = Task::Building {
        place: FIRST_PLACE,
        forwards,
    };
    match dispatch(&mut engine, definition, &mut pool, task) {
        Ok(reply) => Started {
            session: Session {
                core: Core {
                    verified,
                    engine,
                    phase: Phase::AtRest,
                },
                pool,
            },
            build: Ok(reply),
        },
        Err(error) => Started {
            session: Session {
                core: Core {
                    verified,
                    engine,
                    phase: Phase::Stopped,
                },
                pool,
            },
            build: Err(SessionFault::from(error)),
        },
    }
}

impl<P: Peers> Session<P> {
    /// Builds the objects of a verified definition, with a pool that has just the peers that the definition needs, open and of the right
    /// shapes. The build never leaves the machine stuck, and counts no more steps than the report says.
    ///
    /// # Errors
    ///
    /// Returns `Refused`, with the definition and the pool as it was. Its fault is `PeerMissing`, `PeerClosed` or `PeerShape` for the first
    /// peer that the definition needs and the pool does not have so, then `PeerUnused` for the first peer that it does not need, and
    /// `OutOfMemory` if memory is refused before the build.
    pub fn start(alloc: Global, verified: Verified, pool: P) -> Result<Started<P>, Refused<P>>
        ensures matches { IfOk result (λ started. mismatch verified (as_peers (P.seen pool)) ≡ None) }
        ensures built { IfOk result (λ started. Comes started.build (building (P.relations pool) verified (as_peers (P.seen pool))) verified
            (state_at (P.seen started.session.pool) started.session.core)) }
        ensures same { IfOk result (λ started. SameRelations (P.relations pool) (P.relations started.session.pool)) }
        ensures keeps { mismatch verified (as_peers (P.seen pool)) ≡ None → BuildKeeps verified (as_peers (P.seen pool)) }
        ensures refused { IfErr result (λ refused. (refused.verified ≡ verified) × (refused.pool ≡ pool) × IsWhy refused.fault (mismatch verified (as_peers (P.seen pool)))) }
    {
        // For the proof: some bytes denote the definition.
        let _types = verified.definition().types();
        let depth = verified.depth();
        match begin(alloc, verified.definition(), depth, &pool) {
            Ok(beginning) => Ok(build(verified, pool, beginning)),
            Err(fault) => Err(Refused {
                fault,
                verified,
                pool,
            }),
        }
    }

    /// Like `start`, for a definition of which no dispatch may count more steps than `most`: neither the build, nor what an event, a source
    /// or a call begins.
    ///
    /// # Errors
    ///
    /// Returns `Refused` with `StepLimit` if a dispatch may count more, and otherwise as `start` does. Nothing is built then.
    pub fn start_within(
        alloc: Global,
        verified: Verified,
        pool: P,
        most: u64,
    ) -> Result<Started<P>, Refused<P>>
        ensures within { (a : Accepted verified) → IfOk result (λ _. is_within verified a most ≡ true) }
        ensures matches { IfOk result (λ started. mismatch verified (as_peers (P.seen pool)) ≡ None) }
        ensures built { IfOk result (λ started. Comes started.build (building (P.relations pool) verified (as_peers (P.seen pool))) verified
            (state_at (P.seen started.session.pool) started.session.core)) }
        ensures same { IfOk result (λ started. SameRelations (P.relations pool) (P.relations started.session.pool)) }
        ensures keeps { mismatch verified (as_peers (P.seen pool)) ≡ None → BuildKeeps verified (as_peers (P.seen pool)) }
        ensures refused { IfErr result (λ refused. (refused.verified ≡ verified) × (refused.pool ≡ pool) × IsWhyWithin verified most refused.fault (mismatch verified (as_peers (P.seen pool)))) }
    {
        // For the proof: some bytes denote the definition.
        let _types = verified.definition().types();
        if let Some(fault) = limit_fault(alloc, &verified, most) {
            return Err(Refused {
                fault,
                verified,
                pool,
            });
        }
        Session::start(alloc, verified, pool)
    }

    /// Carries out an event with all that it leads to. The event has to be one that was read against the session's definition. It never
    /// leaves the machine stuck, and each of its dispatches counts no more steps than the report says for what the dispatch begins with.
    /// Each peer that it calls replies as it may.
    ///
    /// # Errors
    ///
    /// Returns `Stopped` if the session has stopped, then `Released` if the event names an object that was released, and `ClockBack` if it
    /// is a turn of a moment before the latest one. After any of these the session is unchanged. Otherwise `OutOfMemory` if memory is
    /// refused, which stops the session. The peer that was called last may then have replied without a line that reports it.
    pub fn dispatch(&mut self, event: Event) -> Result<Reply, SessionFault>
        requires read { EventRead self.now.core.definition (event_of event) }
        ensures answers { AnswersEvent (P.relations self.old.pool) self.old.core.stopped result (state_at (P.seen self.old.pool) self.old.core) (event_of event) (state_at (P.seen self.new.pool) self.new.core) }
        ensures keeps { self.old.core.stopped ≡ false → refusal self.old.core.world (event_of event) ≡ None →
            EventKeeps self.old.core.definition (world_at (P.seen self.old.pool) self.old.core.world) (event_of event) }
        // An object in the reply is known by the type that the property or the signal declares.
        ensures kind { IfOk result (λ reply. IsAnswerTo (kind_asked self.old.core.definition (event_of event)) reply.result) }
        ensures same { SameRelations (P.relations self.old.pool) (P.relations self.new.pool) }
        // The transcript only grows.
        ensures grows { IsPrefix self.old.core.world.transcript self.new.core.world.transcript }
    {
        self.core.dispatch(&mut self.pool, event)
    }

    /// Begins an event. If it has more to do than its beginning the event is under way: `advance` goes on with it, and until it has ended
    /// the session refuses other events as `Stopped`. The lines that are said with it can be taken meanwhile. An event that is given up
    /// leaves the session stopped. The event has to be one that was read against the session's definition.
    ///
    /// # Errors
    ///
    /// Returns the same errors as `dispatch`.
    pub fn begin(&mut self, event: Event) -> Result<Progress, SessionFault>
        requires read { EventRead self.now.core.definition (event_of event) }
        ensures begins { BeginsEvent (P.relations self.old.pool) self.old.core.stopped result (P.seen self.old.pool) self.old.core (event_of event) self.new.core }
        ensures keeps { self.old.core.stopped ≡ false → refusal self.old.core.world (event_of event) ≡ None →
            EventKeeps self.old.core.definition (world_at (P.seen self.old.pool) self.old.core.world) (event_of event) }
        // The course is what `advance` asks for.
        ensures in_course { IfUnderWay result (λ course. HasCourse (P.relations self.new.pool) course (P.seen self.new.pool) self.new.core) }
        ensures pool { self.new.pool ≡ self.old.pool }
        // The course has the kind of the value that the event asks for.
        ensures asked { IfUnderWay result (λ course. option_map kind_view course.asked ≡ kind_asked self.old.core.definition (event_of event)) }
        // No step is counted yet. An event that has ended, such as a turn for which no source is ready, led to nothing.
        ensures none { IfUnderWay result (λ course. course.so_far.steps + self.new.core.counted ≡ 0) }
        ensures ended { IfEnded result (λ reply. reply ≡ nothing_yet) }
        ensures grows { IsPrefix self.old.core.world.transcript self.new.core.world.transcript }
    {
        self.core.begin(&self.pool, event)
    }

    /// Goes on with an event for at most `most` counted steps. If the event does not end, exactly so many were made. All parts together
    /// come to what `dispatch` would have come to.
    ///
    /// # Errors
    ///
    /// Returns `OutOfMemory` if memory is refused, which stops the session. The peer that was called last may then have replied without a
    /// line that reports it.
    pub fn advance(&mut self, course: Course, most: u64) -> Result<Progress, SessionFault>
        requires in_course { HasCourse (P.relations self.now.pool) course (P.seen self.now.pool) self.now.core }
        ensures comes { (event : config.Event) (w : World) (front : List (List ℕ)) → InCourse (P.relations self.old.pool) self.old.core.definition event w front course (P.seen self.old.pool) self.old.core →
            ComesOn result (P.relations self.old.pool) self.old.core.definition event w front (P.seen self.new.pool) self.new.core }
        // The course is again what `advance` asks for.
        ensures in_course { IfUnderWay result (λ course. HasCourse (P.relations self.new.pool) course (P.seen self.new.pool) self.new.core) }
        ensures made { IfUnderWay result (λ next. next.so_far.steps + self.new.core.counted ≡ course.so_far.steps + self.old.core.counted + most) }
        ensures most { IfEnded result (λ reply. reply.steps ≤ course.so_far.steps + self.old.core.counted + most) }
        // An object in the reply is known by the type that the event asks for.
        ensures asked { IfUnderWay result (λ next. next.asked ≡ course.asked) }
        ensures kind { IfEnded result (λ reply. IsAnswerTo (option_map kind_view course.asked) reply.result) }
        ensures same { SameRelations (P.relations self.old.pool) (P.relations self.new.pool) }
        ensures grows { IsPrefix self.old.core.world.transcript self.new.core.world.transcript }
    {
        self.core.advance(&mut self.pool, course, most)
    }

    /// Returns the definition that the session runs.
    pub fn definition(&self) -> &Definition
        ensures { result.now ≡ self.now.core.definition }
    {
        self.core.definition()
    }

    /// Returns the lines that were said since the last call of `forget`, without their LF.
    pub fn transcript(&self) -> &[String]
        ensures { map string_bytes result.now ≡ self.now.core.world.transcript }
    {
        self.core.transcript()
    }

    /// Clears the lines so far, once they are written elsewhere, so that a session takes no more memory the longer it runs. They make no
    /// difference to what is said later.
    pub fn forget(&mut self)
        ensures lines { self.new.core ≡ without_lines self.old.core }
        ensures pool { self.new.pool ≡ self.old.pool }
        // An event that is under way can still go on.
        ensures in_course { (course : Course) → HasCourse (P.relations self.old.pool) course (P.seen self.old.pool) self.old.core → HasCourse (P.relations self.new.pool) course (P.seen self.new.pool) self.new.core }
    {
        self.core.forget();
    }

    /// Returns the core of the session alone, and gives up its pool. The peers are dropped unclosed.
    pub fn into_core(self) -> Core
        ensures { result ≡ self.core }
    {
        let Session { core, pool: _ } = self;
        core
    }

    /// Ends the session, even if it has stopped. Closes each open peer that an object has got, that of the object with the lowest identity
    /// first, and returns the lines and the pool.
    pub fn finish(self) -> Finished<P>
        ensures lines { map string_bytes result.transcript.items ≡ self.core.world.transcript }
        ensures closed { (P.seen result.pool) ≡ taken_closed self.core.world.peers (P.seen self.pool) }
        ensures same { SameRelations (P.relations self.pool) (P.relations result.pool) }
    {
        let Session { core, mut pool } = self;
        let engine = core.engine;
        let world = engine.world;
        close_in_order(&world.table, &world.seats, &mut pool);
        close_taken(&world.seats, &mut pool);
        Finished {
            transcript: world.transcript,
            pool,
        }
    }
}
