//! Events that are carried out a number of steps at a time.

ghost use Rattle.std.specs.Prelude.{◌≡◌, ◌≤◌, ◌+◌, ◌*◌, ℕ, List, option_map, ◌<◌, vec_capacity};
ghost use Rattle.ui_machine.specs.Prefix.{IsPrefix};
ghost use Rattle.ui_machine.specs.State.Config.{World};
ghost use Rattle.ui_machine.specs.State.Tasks.{Event};
ghost use Rattle.ui_machine.specs.Steps.{most_steps};
ghost use Rattle.engine_world.specs.Counting.{Counts, nothing};
ghost use Rattle.engine_world.specs.Room.{SameRoom};
ghost use Rattle.engine_world.specs.View.{world_of};
ghost use Rattle.engine_world.specs.EngineView.{config_of};
ghost use Rattle.law_typing.specs.Laws.WellRead.{WellRead};
ghost use Rattle.law_typing.specs.Verdict.Accepted.{Accepted};
ghost use Rattle.main_context.specs.Attached.{next_source, numbers_after};
ghost use Rattle.main_context.specs.Dues.{due_of};
ghost use Rattle.native_peers.specs.Seen.{SameRelations};
ghost use Rattle.g_values.specs.View.{kind_view};
ghost use Rattle.engine_dispatches.specs.Asked.{IsAnswerTo};
ghost use Rattle.engine_dispatches.specs.CallPoints.{point_of};
ghost use Rattle.engine_dispatches.specs.Courses.{BeginsNext, GoesOn, IfEnded, IfGoesOn, IfHasEnded, IfUnderWay, IsUnderWay, Proceeds, sources_left};
ghost use Rattle.engine_dispatches.specs.Dispatched.{IsAtRest};
ghost use Rattle.engine_dispatches.specs.PoolView.{Knows, world_at};
ghost use Rattle.engine_dispatches.specs.Promises.{IsRoomy, Rests};

use crate::dispatches::{Reply, begin_dispatch, end_dispatch};
use crate::runs::run_for;
use definitions::Definition;
use engine_stack::Task;
use engine_world::engine::Engine;
use g_values::Kind;
use main_context::{Batch, Due};
use native_peers::Peers;
use std::alloc::AllocError;

/// An event that has begun and not ended. It is in one of its dispatches.
#[derive(Drop)]
pub struct Course {
    /// The sources of its turn whose dispatches have not begun, or None for a request.
    pub left: Option<Batch>,
    /// What the dispatches before the present one led to.
    pub so_far: Reply,
    /// The kind of the value that the event asks for, if it asks for one.
    pub asked: Option<Kind>,
}

/// The progress of an event.
#[derive(Drop)]
pub enum Progress {
    /// The event goes on.
    UnderWay(Course),
    /// The event has ended, and led to this.
    Ended(Reply),
}

// Takes the source whose turn is next, if there is one.
fn next_due(engine: &Engine, left: &mut Option<Batch>) -> Option<Due>
    ensures given { result ≡ option_map due_of (next_source (world_of engine.now.world).sources (sources_left left.old)) }
    ensures left { sources_left left.new ≡ numbers_after (world_of engine.now.world).sources (sources_left left.old) }
{
    match left {
        Some(batch) => engine.world.context.next_of(batch),
        None => None,
    }
}

/// Begins the dispatch of the source whose turn is next. If there is none the event has ended.
pub fn begin_next(engine: &mut Engine, definition: &Definition, course: Course) -> Progress
    requires rests { IsAtRest definition.now engine.now }
    requires room { 0 < vec_capacity engine.now.stack.tasks }
    ensures still { IfHasEnded result (λ _. engine.new ≡ engine.old) }
    ensures counted { IfGoesOn result (λ _. Counts definition.now nothing engine.new) }
    ensures begins { BeginsNext result course (world_of engine.old.world) (config_of definition.now engine.new) }
    ensures asked { IfGoesOn result (λ next. next.asked ≡ course.asked) }
    ensures grows { IsPrefix (world_of engine.old.world).transcript (world_of engine.new.world).transcript }
    ensures room { SameRoom engine.old engine.new }
{
    let Course {
        mut left,
        so_far,
        asked,
    } = course;
    let Some(due) = next_due(engine, &mut left) else {
        return Progress::Ended(so_far);
    };
    let task = Task::Due { source: due.source };
    begin_dispatch(engine, definition, task);
    Progress::UnderWay(Course {
        left,
        so_far,
        asked,
    })
}

/// Goes on with an event for at most `most` counted steps. If the event does not end, exactly so many were made. The dispatch of a source
/// begins where the one before it has ended.
///
/// # Errors
///
/// `AllocError` if memory is refused. The transcript is then as far as the event came.
pub fn advance<P: Peers>(
    engine: &mut Engine,
    definition: &Definition,
    pool: &mut P,
    course: Course,
    most: u64,
) -> Result<Progress, AllocError>
    requires accepted { Accepted definition.now }
    requires well { WellRead definition.now }
    requires counted { Counts definition.now nothing engine.now }
    requires goes_on { GoesOn definition.now (P.relations pool.now) course
        (point_of definition.now (P.seen pool.now) engine.now) }
    requires roomy { IsRoomy definition.now (vec_capacity engine.now.stack.tasks) }
    ensures rests { IfEnded result (λ _. IsAtRest definition.now engine.new) }
    ensures knows { IfEnded result (λ _. Knows (world_of engine.new.world) (P.seen pool.new)) }
    ensures resting { IfEnded result (λ _. Rests definition.now (world_at (P.seen pool.new) (world_of engine.new.world))) }
    ensures counted { IfUnderWay result (λ _. Counts definition.now nothing engine.new) }
    ensures proceeds { (event : Event) (w : World) (front : List (List ℕ)) →
        IsUnderWay definition.now (P.relations pool.old) event w front course
        (point_of definition.now (P.seen pool.old) engine.old) →
        Proceeds result definition.now (P.relations pool.old) event w front
        (point_of definition.now (P.seen pool.new) engine.new) }
    ensures made { IfUnderWay result (λ next. next.so_far.steps + engine.new.counted ≡ course.so_far.steps + engine.old.counted + most) }
    ensures most { IfEnded result (λ reply. reply.steps ≤ course.so_far.steps + engine.old.counted + most) }
    ensures asked { IfUnderWay result (λ next. next.asked ≡ course.asked) }
    // An object in the reply is known by the type that the event asks for.
    ensures kind { IfEnded result (λ reply. IsAnswerTo (option_map kind_view course.asked) reply.result) }
    ensures same { SameRelations (P.relations pool.old) (P.relations pool.new) }
    ensures grows { IsPrefix (world_of engine.old.world).transcript (world_of engine.new.world).transcript }
    ensures room { SameRoom engine.old engine.new }
{
    let mut course = course;
    let mut most = most;
    'dispatches: loop {
        most = match run_for(engine, definition, pool, most)? {
            Some(rest) => rest,
            None => return Ok(Progress::UnderWay(course)),
        };
        let one = end_dispatch(engine, definition, course.asked)?;
        match begin_next(engine, definition, course.after(one)) {
            Progress::UnderWay(next) => course = next,
            Progress::Ended(reply) => return Ok(Progress::Ended(reply)),
        }
    }
}

impl Course {
    // Returns what is left of the event after a dispatch that led to `one`.
    fn after(self, one: Reply) -> Course
        requires few { self.so_far.dispatches + 1 ≤ 256 }
        requires steps { self.so_far.steps + one.steps ≤ 256 * most_steps }
        ensures { result ≡ record { left = self.left; so_far = record { result = one.result; dispatches = self.so_far.dispatches + 1; steps = self.so_far.steps + one.steps }; asked = self.asked } }
    {
        Course {
            left: self.left,
            so_far: Reply {
                result: one.result,
                dispatches: self.so_far.dispatches + 1,
                steps: self.so_far.steps + one.steps,
            },
            asked: self.asked,
        }
    }
}
