//! Instructions that touch registers alone.

ghost use Rattle.std.specs.Prelude.{Ok, Some, option_map, IfSome};
ghost use Rattle.ui_machine.specs.Instructions.Registers.{written_to};
ghost use Rattle.ui_machine.specs.Output.Lines as lines;
ghost use Rattle.ui_machine.specs.State.Config.{said};
ghost use Rattle.law_typing.specs.Good.Living.{NamesLiving};
ghost use Rattle.g_values.specs.View.{value_view};
ghost use Rattle.bytecode.specs.Computing.{HasKnownKind, instruction_of};
ghost use Rattle.engine_world.specs.FirstPrograms.{IsProgram};
ghost use Rattle.engine_world.specs.Able.{Able, LeadsToLiving};
ghost use Rattle.engine_world.specs.Room.{TakesRoom};
ghost use Rattle.engine_world.specs.View.{world_of};
ghost use Rattle.engine_world.specs.Counting.{Counts, nothing};
ghost use Rattle.engine_world.specs.Executions.{Executes};
ghost use Rattle.engine_instructions.specs.InProgram.{executed, in_program};

use bytecode::{Computation, Computed, Register};
use definitions::Definition;
use engine_world::children::say_limit;
use engine_world::engine::Engine;
use engine_world::program_frames::{first_registers, put};
use engine_world::references::never_full;
use frames::compute;
use g_values::Value;
use std::alloc::AllocError;

/// Writes or unsets a register, and lets the program go on.
#[inline(always)]
pub(crate) fn write_register(
    engine: &mut Engine,
    definition: &Definition,
    to: Register,
    value: Option<Value>,
)
    requires first { IsProgram engine.now }
    requires able { Able (in_program definition.now engine.now (λ w f. written_to w to.0 (option_map value_view value) f)) }
    requires names { IfSome (option_map value_view value) (NamesLiving (world_of engine.now.world)) }
    requires counted { Counts definition.now nothing engine.now }
    ensures executes { Executes (Ok result) definition.now engine.old engine.new
        (in_program definition.now engine.old (λ w f. written_to w to.0 (option_map value_view value) f)) }
    ensures room { TakesRoom 0 engine.old engine.new }
{
    // For the proof: what lives may be held once more.
    never_full(engine);
    put(engine, definition, to, value);
}

/// Says the line that a limit was reached, and writes a value to a register all the same. The word names what is limited.
pub(crate) fn write_null_and_say_limit(
    engine: &mut Engine,
    definition: &Definition,
    to: Register,
    value: Value,
    word: &str,
) -> Result<(), AllocError>
    requires first { IsProgram engine.now }
    requires able { Able (in_program definition.now engine.now (λ w f. written_to (said definition.now w (lines.limit word.now)) to.0 (Some (value_view value)) f)) }
    requires names { NamesLiving (world_of engine.now.world) (value_view value) }
    requires counted { Counts definition.now nothing engine.now }
    ensures { Executes result definition.now engine.old engine.new
        (in_program definition.now engine.old (λ w f. written_to (said definition.now w (lines.limit word.now)) to.0 (Some (value_view value)) f)) }
{
    // For the proof: what lives may be held once more.
    never_full(engine);
    put(engine, definition, to, Some(value));
    say_limit(engine, definition, word)?;
    Ok(())
}

/// Writes to a register what is computed from other registers.
pub(crate) fn compute_register(
    engine: &mut Engine,
    definition: &Definition,
    to: Register,
    computation: &Computation,
) -> Result<(), AllocError>
    requires first { IsProgram engine.now }
    requires able { Able (executed definition.now engine.now (instruction_of computation.now to.0)) }
    requires names { LeadsToLiving (executed definition.now engine.now (instruction_of computation.now to.0)) }
    requires known { HasKnownKind definition.now.types computation.now }
    requires counted { Counts definition.now nothing engine.now }
    ensures { Executes result definition.now engine.old engine.new
        (executed definition.now engine.old (instruction_of computation.now to.0)) }
{
    let types = definition.types();
    let registers = first_registers(engine);
    let computed = compute(engine.alloc, types, registers, computation)?;
    match computed {
        Computed::Value(value) => write_register(engine, definition, to, Some(value)),
        Computed::Unset => write_register(engine, definition, to, None),
        Computed::TooLong => {
            let null = Value::Text(None);
            write_null_and_say_limit(engine, definition, to, null, "join")?;
        }
    }
    Ok(())
}
