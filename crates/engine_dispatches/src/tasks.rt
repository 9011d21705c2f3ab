//! The step of each task, as the machine makes it.

ghost use Rattle.std.specs.Prelude.{◌≡◌, ◌+◌, ◌≤◌, ◌∷◌, None, length, OnOk};
ghost use Rattle.ui_machine.specs.Definition as machine;
ghost use Rattle.ui_machine.specs.Rules.Build.{to_connect, to_make};
ghost use Rattle.ui_machine.specs.Rules.Connections.{greatest_handler};
ghost use Rattle.ui_machine.specs.State.Objects.{most_identities};
ghost use Rattle.ui_machine.specs.State.References.{in_task};
ghost use Rattle.law_typing.specs.Good.Meanings.{KeepsMeanings};
ghost use Rattle.engine_stack.specs.FirstConstructions.{construction_in};
ghost use Rattle.engine_stack.specs.FirstEmissions.{emission_in};
ghost use Rattle.engine_stack.specs.FirstPrograms.{program_in};
ghost use Rattle.engine_stack.specs.KnownHandlers.{TakesKnownHandlers};
ghost use Rattle.engine_world.specs.Room.{HasRoom};
ghost use Rattle.engine_world.specs.View.{world_of};
ghost use Rattle.engine_world.specs.TaskView.{task_in, agenda_of};
ghost use Rattle.engine_world.specs.Counting.{Counts};
ghost use Rattle.engine_stack.specs.HeldByTasks.{in_subject};
ghost use Rattle.engine_world.specs.EngineView.{IsOfKind};
ghost use Rattle.engine_world.specs.declared.engine.Engine.{Engine};
ghost use Rattle.engine_world.specs.Able.{Able, LeadsToLiving};
ghost use Rattle.engine_dispatches.specs.TaskClosings.{TaskLeaves};
ghost use Rattle.engine_world.specs.Executions.{ExecutesWithoutGone};
ghost use Rattle.engine_dispatches.specs.Acted.{acted};

use definitions::Definition;
use engine_stack::Task;
use engine_tasks::binds::bind_from_build;
use engine_tasks::builds::build;
use engine_tasks::calls::pass_over;
use engine_tasks::children::adopt_from_build;
use engine_tasks::emission::begin_emission;
use engine_tasks::events::handle_event;
use engine_tasks::notifications::{notify, notify_thawed};
use engine_tasks::sets::validate_and_set;
use engine_tasks::signals::connect_from_build;
use engine_tasks::sources::run_source;
use engine_tasks::transfers::{transfer, unset};
use engine_world::engine::{Engine, StepKind};
use engine_world::references::never_full;
use std::alloc::AllocError;

/// Returns whether the step of a task is counted.
pub(crate) fn kind_of(task: &Task) -> StepKind
    ensures { (d : machine.Definition) (e : Engine) → IsOfKind result (task_in d e task.now) }
{
    let is_counted = matches!(
        task,
        Task::Notifying { .. } | Task::Beginning(_) | Task::Transferring { .. } | Task::Running(_)
    );
    if is_counted {
        StepKind::Counted
    } else {
        StepKind::Uncounted
    }
}

/// Carries out a task, which is no program, and neither an emission nor a construction that goes on. The machine must not be stuck there,
/// and a call has to be of a peer that is closed.
///
/// # Errors
///
/// `AllocError` if memory is refused.
pub(crate) fn act(
    engine: &mut Engine,
    definition: &Definition,
    task: Task,
) -> Result<(), AllocError>
    requires able { Able (acted definition.now engine.now task) }
    requires names { LeadsToLiving (acted definition.now engine.now task) }
    requires identities { length (world_of engine.now.world).objects + to_make (task_in definition.now engine.now task ∷ agenda_of definition.now engine.now) ≤ most_identities }
    requires numbers { (world_of engine.now.world).last_handler + to_connect (task_in definition.now engine.now task ∷ agenda_of definition.now engine.now) ≤ greatest_handler }
    requires meanings { KeepsMeanings definition.now (world_of engine.now.world) }
    requires begun { TakesKnownHandlers engine.now.world.handlers.last task }
    requires counted { Counts definition.now (λ o. in_task o (task_in definition.now engine.now task)) engine.now }
    requires room { HasRoom 2 engine.now }
    requires other { program_in task ≡ None }
    requires begins { emission_in task ≡ None }
    requires builds { construction_in task ≡ None }
    ensures executes { ExecutesWithoutGone result definition.now engine.old engine.new (λ o. in_subject o (task_in definition.now engine.old task))
        (acted definition.now engine.old task) }
    ensures closing { OnOk result (TaskLeaves definition.now (world_of engine.old.world) (task_in definition.now engine.old task) engine.old.closing engine.new.closing) }
{
    // For the proof: what a task holds lives, and what is known of a definition's places.
    never_full(engine);
    let _types = definition.types();
    match task {
        Task::Setting {
            object,
            slot,
            value,
        } => validate_and_set(engine, definition, object, slot, value),
        Task::Notifying { object, slot } => notify(engine, definition, object, slot),
        Task::Beginning(emission) => begin_emission(engine, definition, emission),
        Task::Emitting(_) => unreachable!(),
        Task::Transferring { number, back } => transfer(engine, definition, number, back),
        Task::Unsetting { number } => {
            unset(engine, definition, number);
            Ok(())
        }
        Task::Running(_) => unreachable!(),
        Task::Thawing { object, slots } => {
            notify_thawed(engine, definition, object, slots);
            Ok(())
        }
        Task::Constructing(_) => unreachable!(),
        Task::Building { place, forwards } => build(engine, definition, place, forwards),
        Task::Adopting { place, forwards } => adopt_from_build(engine, definition, place, forwards),
        Task::Binding { number } => bind_from_build(engine, definition, number),
        Task::Connecting { place, number } => connect_from_build(engine, definition, place, number),
        Task::Answering { .. } => unreachable!(),
        Task::Calling(call) => pass_over(engine, definition, call),
        Task::Due { source } => run_source(engine, definition, source),
        Task::Handling(event) => handle_event(engine, definition, event),
    }
}
