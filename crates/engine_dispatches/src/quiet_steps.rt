//! Steps in which no peer is asked.

ghost use Rattle.std.specs.Prelude.{◌≡◌, [], None, Ok, vec_capacity};
ghost use Rattle.ui_machine.specs.Steps.{asked_first, question};
ghost use Rattle.engine_world.specs.Counting.{Counts, nothing};
ghost use Rattle.engine_world.specs.EngineView.{config_of};
ghost use Rattle.engine_stack.specs.FirstConstructions.{first_construction};
ghost use Rattle.engine_stack.specs.FirstEmissions.{first_emission};
ghost use Rattle.engine_stack.specs.FirstPrograms.{first_program};
ghost use Rattle.engine_world.specs.Quiet.{IsQuiet};
ghost use Rattle.engine_world.specs.TaskView.{agenda_of};
ghost use Rattle.engine_world.specs.Room.{SameRoom};
ghost use Rattle.engine_world.specs.View.{world_of};
ghost use Rattle.engine_dispatches.specs.QuietSteps.{IsSafeView, LeavesKnown, QuietlyStepped, StepsQuietly};
ghost use Rattle.engine_dispatches.specs.Safety.{NoneUnheld};

use crate::program_steps::run_program;
use crate::tasks::{act, kind_of};
use definitions::Definition;
use engine_tasks::builds::construct;
use engine_tasks::emission::emit;
use engine_tasks::finalisation::finalise;
use engine_world::engine::{Engine, StepKind};
use engine_world::references::let_go_any;
use std::alloc::AllocError;

// Sinks the object that has floated longest, if one floats. Nothing else is left to do.
fn sink_first_floating(engine: &mut Engine, definition: &Definition) -> StepKind
    requires none { NoneUnheld definition.now (config_of definition.now engine.now) }
    requires idle { agenda_of definition.now engine.now ≡ [] }
    requires counted { Counts definition.now nothing engine.now }
    ensures counted { Counts definition.now nothing engine.new }
    ensures stepped { QuietlyStepped (Ok result) definition.now (config_of definition.now engine.old) (config_of definition.now engine.new) }
    ensures same { IsQuiet (world_of engine.old.world) (world_of engine.new.world) }
    ensures known { LeavesKnown (world_of engine.old.world) (world_of engine.new.world) engine.new.closing }
    ensures room { SameRoom engine.old engine.new }
{
    let Some(object) = engine.world.table.first_floating() else {
        return StepKind::Nothing;
    };
    engine.world.table.sink(object);
    StepKind::Uncounted
}

// Takes the first task off and makes its step, or sinks what floats if there is no task. The task is no program, and neither an emission nor
// a construction that goes on. It asks no peer, and nothing is to be finalised.
fn take_first_task(engine: &mut Engine, definition: &Definition) -> Result<StepKind, AllocError>
    requires safe { IsSafeView definition.now (vec_capacity engine.now.stack.tasks) (config_of definition.now engine.now) }
    requires none { NoneUnheld definition.now (config_of definition.now engine.now) }
    requires quiet { asked_first (world_of engine.now.world) (agenda_of definition.now engine.now) ≡ None }
    requires counted { Counts definition.now nothing engine.now }
    requires other { first_program engine.now.stack.tasks.items ≡ None }
    requires begins { first_emission engine.now.stack.tasks.items ≡ None }
    requires builds { first_construction engine.now.stack.tasks.items ≡ None }
    ensures { StepsQuietly result definition.now engine.old engine.new }
{
    // For the proof: what is known of a definition's types.
    let _types = definition.types();
    let Some(task) = engine.stack.pop_task() else {
        return Ok(sink_first_floating(engine, definition));
    };
    let held = task.object();
    let kind = kind_of(&task);
    act(engine, definition, task)?;
    let_go_any(&mut engine.world.table, held);
    Ok(kind)
}

// Takes the next step of the first task, if it is a construction that goes on, or makes the step of the first task, which is neither a program
// nor an emission that goes on.
fn construct_or_take(engine: &mut Engine, definition: &Definition) -> Result<StepKind, AllocError>
    requires safe { IsSafeView definition.now (vec_capacity engine.now.stack.tasks) (config_of definition.now engine.now) }
    requires none { NoneUnheld definition.now (config_of definition.now engine.now) }
    requires quiet { asked_first (world_of engine.now.world) (agenda_of definition.now engine.now) ≡ None }
    requires counted { Counts definition.now nothing engine.now }
    requires other { first_program engine.now.stack.tasks.items ≡ None }
    requires begins { first_emission engine.now.stack.tasks.items ≡ None }
    ensures { StepsQuietly result definition.now engine.old engine.new }
{
    if engine.stack.first_construction().is_none() {
        return take_first_task(engine, definition);
    }
    construct(engine, definition)?;
    Ok(StepKind::Uncounted)
}

// Takes the next turn of the first task, if it is an emission that goes on, or makes the step of the first task, which is no program.
fn emit_or_take(engine: &mut Engine, definition: &Definition) -> Result<StepKind, AllocError>
    requires safe { IsSafeView definition.now (vec_capacity engine.now.stack.tasks) (config_of definition.now engine.now) }
    requires none { NoneUnheld definition.now (config_of definition.now engine.now) }
    requires quiet { asked_first (world_of engine.now.world) (agenda_of definition.now engine.now) ≡ None }
    requires counted { Counts definition.now nothing engine.now }
    requires other { first_program engine.now.stack.tasks.items ≡ None }
    ensures { StepsQuietly result definition.now engine.old engine.new }
{
    if engine.stack.first_emission().is_none() {
        return construct_or_take(engine, definition);
    }
    emit(engine, definition)?;
    Ok(StepKind::Uncounted)
}

// Makes the step of the first task, or sinks what floats if there is no task. The task asks no peer, and nothing is to be finalised. A
// program takes its next instruction in its place, an emission its next turn, and a construction its next step.
fn first_task(engine: &mut Engine, definition: &Definition) -> Result<StepKind, AllocError>
    requires safe { IsSafeView definition.now (vec_capacity engine.now.stack.tasks) (config_of definition.now engine.now) }
    requires none { NoneUnheld definition.now (config_of definition.now engine.now) }
    requires quiet { asked_first (world_of engine.now.world) (agenda_of definition.now engine.now) ≡ None }
    requires counted { Counts definition.now nothing engine.now }
    ensures { StepsQuietly result definition.now engine.old engine.new }
{
    if engine.stack.first_program().is_none() {
        return emit_or_take(engine, definition);
    }
    run_program(engine, definition)?;
    Ok(StepKind::Counted)
}

/// Makes a step in which no peer is asked, if there is one to make. It finalises what nothing holds first, then takes the first task, and
/// at last sinks what floats. No run of the machine from there may be stuck.
///
/// # Errors
///
/// `AllocError` if memory is refused. Nothing was said then.
pub(crate) fn step_quietly(
    engine: &mut Engine,
    definition: &Definition,
) -> Result<StepKind, AllocError>
    requires safe { IsSafeView definition.now (vec_capacity engine.now.stack.tasks) (config_of definition.now engine.now) }
    requires quiet { question definition.now (config_of definition.now engine.now) ≡ None }
    requires counted { Counts definition.now nothing engine.now }
    ensures { StepsQuietly result definition.now engine.old engine.new }
{
    let Some(object) = engine.world.table.next_unheld() else {
        return first_task(engine, definition);
    };
    finalise(engine, definition, object)?;
    Ok(StepKind::Counted)
}
