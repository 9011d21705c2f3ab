//! The step in which the program that is the first task takes its next instruction.

ghost use Rattle.std.specs.Prelude.{OnOk};
ghost use Rattle.ui_machine.specs.Definition.Lookups.{program_at};
ghost use Rattle.ui_machine.specs.Instructions.{running};
ghost use Rattle.ui_machine.specs.Steps.{counted_left};
ghost use Rattle.law_typing.specs.Good.Meanings.{KeepsMeanings};
ghost use Rattle.engine_world.specs.FirstPrograms.{IsProgram, first_frame, rest_of};
ghost use Rattle.engine_world.specs.Room.{HasRoom};
ghost use Rattle.engine_world.specs.View.{world_of};
ghost use Rattle.engine_world.specs.Counting.{Counts, nothing};
ghost use Rattle.engine_world.specs.Able.{Able, LeadsToLiving};
ghost use Rattle.engine_dispatches.specs.TaskClosings.{ProgramLeaves};
ghost use Rattle.engine_world.specs.Executions.{ExecutesWithoutGone};

use definitions::Definition;
use engine_instructions::execution::execute;
use engine_world::counted_steps::count;
use engine_world::engine::Engine;
use engine_world::program_frames::first_frame;
use std::alloc::AllocError;

/// Takes the next instruction of the program that is the first task, as a counted step. The program stays in its place until it ends. The
/// machine must not be stuck there.
///
/// # Errors
///
/// `AllocError` if memory is refused.
pub(crate) fn run_program(engine: &mut Engine, definition: &Definition) -> Result<(), AllocError>
    requires first { IsProgram engine.now }
    requires able { Able (counted_left engine.now.counted (running definition.now (world_of engine.now.world) (rest_of definition.now engine.now) (first_frame engine.now))) }
    requires names { LeadsToLiving (counted_left engine.now.counted (running definition.now (world_of engine.now.world) (rest_of definition.now engine.now) (first_frame engine.now))) }
    requires meanings { KeepsMeanings definition.now (world_of engine.now.world) }
    requires counted { Counts definition.now nothing engine.now }
    requires room { HasRoom 1 engine.now }
    ensures executes { ExecutesWithoutGone result definition.now engine.old engine.new nothing
        (counted_left engine.old.counted (running definition.now (world_of engine.old.world) (rest_of definition.now engine.old) (first_frame engine.old))) }
    ensures closing { OnOk result (ProgramLeaves (world_of engine.old.world) (first_frame engine.old) (program_at definition.now (first_frame engine.old).program) engine.old.closing engine.new.closing) }
{
    count(engine);
    let number = first_frame(engine).program;
    let Some(program) = definition.program(number) else {
        unreachable!();
    };
    let Some(instruction) = engine.stack.take_first(program) else {
        unreachable!();
    };
    execute(engine, definition, program, instruction)
}
