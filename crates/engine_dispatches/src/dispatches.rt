//! Dispatches: one task, and all that it leads to.

ghost use Rattle.std.specs.Prelude.{◌≡◌, ◌≤◌, [], Some, option_map, OnOk, OnErr, IfOk, ◌<◌, vec_capacity};
ghost use Rattle.g_values.specs.View.{kind_view, value_view};
ghost use Rattle.ui_machine.specs.Runs.{beginning};
ghost use Rattle.ui_machine.specs.Steps.{most_steps};
ghost use Rattle.engine_stack.specs.KnownHandlers.{TakesKnownHandlers};
ghost use Rattle.engine_world.specs.Quiet.{IsQuiet};
ghost use Rattle.engine_world.specs.Room.{SameRoom};
ghost use Rattle.engine_world.specs.View.{world_of};
ghost use Rattle.engine_stack.specs.TaskFrames.{IsFrameless};
ghost use Rattle.engine_world.specs.TaskView.{task_in, agenda_of};
ghost use Rattle.engine_world.specs.EngineView.{config_of};
ghost use Rattle.ui_machine.specs.Prefix.{IsPrefix};
ghost use Rattle.native_peers.specs.Seen.{SameRelations};
ghost use Rattle.engine_world.specs.Counting.{KeepsCounts};
ghost use Rattle.engine_dispatches.specs.Asked.{IsAnswerTo, IsKnownBy};
ghost use Rattle.engine_dispatches.specs.Courses.{nothing_yet};
ghost use Rattle.engine_dispatches.specs.Dispatched.{Carried, EndsBy, HoldsNothing, IsAtRest};
ghost use Rattle.engine_dispatches.specs.PoolView.{Knows, world_at};
ghost use Rattle.engine_dispatches.specs.Safety.{IsSafe};

use crate::runs::run;
use definitions::Definition;
use engine_stack::Task;
use engine_world::engine::Engine;
use engine_world::lines::Line;
use engine_world::references::push_task;
use g_values::{Kind, Value};
use native_peers::Peers;
use std::alloc::AllocError;

/// What one dispatch or more led to.
#[derive(Drop)]
pub struct Reply {
    /// The value that the event gave, if it gave one. An object is known by the type that the property or the signal declares.
    pub result: Option<Value>,
    /// The number of lines `end` that were said.
    pub dispatches: u32,
    /// The number of counted steps.
    pub steps: u64,
}

impl Reply {
    /// Returns the reply before any dispatch.
    pub fn none() -> Reply
        ensures { result ≡ nothing_yet }
    {
        Reply {
            result: None,
            dispatches: 0,
            steps: 0,
        }
    }
}

/// Begins a dispatch: the task is all there is to do, nothing is counted yet, and there is no result yet.
pub fn begin_dispatch(engine: &mut Engine, definition: &Definition, task: Task)
    requires idle { agenda_of definition.now engine.now ≡ [] }
    requires plain { HoldsNothing task }
    requires frameless { IsFrameless task }
    requires begun { TakesKnownHandlers engine.now.world.handlers.last task }
    requires room { 0 < vec_capacity engine.now.stack.tasks }
    ensures counted { KeepsCounts definition.now engine.old engine.new }
    ensures ok { config_of definition.now engine.new ≡ beginning (world_of engine.old.world) (task_in definition.now engine.old task) }
    ensures room { SameRoom engine.old engine.new }
{
    engine.world.result = None;
    engine.counted = 0;
    push_task(engine, task);
}

/// Carries out a task with all that it leads to, and says the line of its end. No run of the machine from there may be stuck.
///
/// # Errors
///
/// `AllocError` if memory is refused. The transcript is then as far as the dispatch came.
pub fn dispatch<P: Peers>(
    engine: &mut Engine,
    definition: &Definition,
    pool: &mut P,
    task: Task,
) -> Result<Reply, AllocError>
    requires rests { IsAtRest definition.now engine.now }
    requires plain { HoldsNothing task }
    requires frameless { IsFrameless task }
    requires begun { TakesKnownHandlers engine.now.world.handlers.last task }
    requires knows { Knows (world_of engine.now.world) (P.seen pool.now) }
    requires safe { IsSafe definition.now (vec_capacity engine.now.stack.tasks) (beginning (world_at (P.seen pool.now) (world_of engine.now.world)) (task_in definition.now engine.now task)) }
    ensures rests { OnOk result (IsAtRest definition.now engine.new) }
    ensures knows { OnOk result (Knows (world_of engine.new.world) (P.seen pool.new)) }
    ensures carried { Carried result definition.now (P.relations pool.old)
        (beginning (world_at (P.seen pool.old) (world_of engine.old.world)) (task_in definition.now engine.old task))
        (world_at (P.seen pool.new) (world_of engine.new.world)) }
    ensures few { IfOk result (λ reply. reply.steps ≤ most_steps) }
    ensures same { SameRelations (P.relations pool.old) (P.relations pool.new) }
    ensures grows { IsPrefix (world_of engine.old.world).transcript (world_of engine.new.world).transcript }
    ensures room { SameRoom engine.old engine.new }
{
    begin_dispatch(engine, definition, task);
    run(engine, definition, pool)?;
    end_dispatch(engine, definition, None)
}

/// Says the line of a dispatch's end, and returns what the dispatch led to. An object that it gave is known by the type of the kind
/// `asked`.
///
/// # Errors
///
/// `AllocError` if memory is refused.
pub(crate) fn end_dispatch(
    engine: &mut Engine,
    definition: &Definition,
    asked: Option<Kind>,
) -> Result<Reply, AllocError>
    requires rests { IsAtRest definition.now engine.now }
    ensures rests { OnOk result (IsAtRest definition.now engine.new) }
    ensures says { IfOk result (λ reply. EndsBy reply definition.now (config_of definition.now engine.old) (world_of engine.new.world)) }
    ensures kind { IfOk result (λ reply. IsAnswerTo (option_map kind_view asked) reply.result) }
    ensures quiet { OnErr result (IsQuiet (world_of engine.old.world) (world_of engine.new.world)) }
    ensures room { SameRoom engine.old engine.new }
{
    let result = copied(&engine.world.result, asked)?;
    let steps = engine.counted;
    let line = Line::End { steps }.text(engine.alloc, definition.types())?;
    engine.world.say(line)?;
    Ok(Reply {
        result,
        dispatches: 1,
        steps,
    })
}

// Returns the value as it is, but an object by the type of the kind that is asked for.
fn known_by(asked: Kind, value: Value) -> Value
    ensures value { value_view result ≡ value_view value }
    ensures kind { IsKnownBy (Some (kind_view asked)) result }
{
    match (&value, asked) {
        (Value::Object(_, object), Kind::Object(declared)) => Value::Object(declared, *object),
        (_, _) => value,
    }
}

// Returns a copy of a value, if there is one, with an object by the type of the kind that is asked for.
fn copied(value: &Option<Value>, asked: Option<Kind>) -> Result<Option<Value>, AllocError>
    ensures value { IfOk result (λ copy. option_map value_view copy ≡ option_map value_view value.now) }
    ensures kind { IfOk result (λ copy. IsAnswerTo (option_map kind_view asked) copy) }
{
    match value {
        Some(value) => {
            let copy = value.copied()?;
            match asked {
                Some(asked) => Ok(Some(known_by(asked, copy))),
                None => Ok(Some(copy)),
            }
        }
        None => Ok(None),
    }
}
