//! `return`: a program ends and gives a value to the task below it.

ghost use Rattle.std.specs.Prelude.{◌≡◌, Ok, Some, option_map, IfOk, IfSome};
ghost use Rattle.ui_machine.specs.Definition.Lookups.{program_at};
ghost use Rattle.ui_machine.specs.Instructions.Jumps.{given_by, returning};
ghost use Rattle.ui_machine.specs.Steps.{left};
ghost use Rattle.g_values.specs.View.{IsKnown, value_view};
ghost use Rattle.engine_world.specs.FirstPrograms.{IsProgram, first_frame, rest_of};
ghost use Rattle.bytecode.specs.View.{number_of, program_view};
ghost use Rattle.engine_world.specs.Counting.{Counts, nothing};
ghost use Rattle.engine_world.specs.Able.{Able};
ghost use Rattle.engine_world.specs.View.{world_of};
ghost use Rattle.engine_world.specs.Executions.{Executes};

use crate::accumulation::give_down;
use crate::properties::value_in;
use bytecode::{Program, Register};
use definitions::Definition;
use engine_world::engine::Engine;
use engine_world::program_frames::drop_program;
use engine_world::references::never_full;
use g_values::Value;
use std::alloc::AllocError;

// Returns the value of a register, or None if no register is given.
fn given_by(engine: &Engine, from: Option<Register>) -> Result<Option<Value>, AllocError>
    requires first { IsProgram engine.now }
    requires able { Able (given_by (first_frame engine.now) (option_map number_of from)) }
    ensures { IfOk result (λ given. given_by (first_frame engine.now) (option_map number_of from) ≡ Ok (option_map value_view given)) }
{
    let Some(from) = from else {
        return Ok(None);
    };
    Ok(Some(value_in(engine, from)?))
}

/// Ends the program, and gives its value to the task below it. What its registers name is let go.
pub(crate) fn return_from_program(
    engine: &mut Engine,
    definition: &Definition,
    program: &Program,
    from: Option<Register>,
) -> Result<(), AllocError>
    requires first { IsProgram engine.now }
    requires able { Able (left engine.now.counted (returning definition.now (world_of engine.now.world) (first_frame engine.now) (rest_of definition.now engine.now) (option_map number_of from))) }
    requires program { program_at definition.now (first_frame engine.now).program ≡ Some (program_view program.now) }
    requires known { IfSome program.now.result (IsKnown definition.now.types) }
    requires counted { Counts definition.now nothing engine.now }
    ensures { Executes result definition.now engine.old engine.new
        (left engine.old.counted (returning definition.now (world_of engine.old.world) (first_frame engine.old) (rest_of definition.now engine.old) (option_map number_of from))) }
{
    let given = given_by(engine, from)?;
    // For the proof: what the registers name lives, and may be held once more.
    never_full(engine);
    drop_program(engine);
    give_down(engine, definition, given);
    Ok(())
}
