//! Jumps and branches, which set the block where a program goes on.

ghost use Rattle.std.specs.Prelude.{◌≡◌, None, Some};
ghost use Rattle.ui_machine.specs.Definition.Lookups.{program_at};
ghost use Rattle.ui_machine.specs.Instructions.Jumps.{branching, branching_null, jumping};
ghost use Rattle.ui_machine.specs.Seq.{read};
ghost use Rattle.bytecode.specs.Computing.{registers_of};
ghost use Rattle.frames.specs.Computing.{of_one};
ghost use Rattle.engine_world.specs.FirstPrograms.{IsProgram, first_frame};
ghost use Rattle.bytecode.specs.View.{program_view};
ghost use Rattle.engine_world.specs.Able.{Able};
ghost use Rattle.engine_world.specs.Counting.{Counts, nothing};
ghost use Rattle.engine_instructions.specs.JumpView.{is_null};
ghost use Rattle.engine_world.specs.Executions.{Executes};
ghost use Rattle.engine_instructions.specs.InProgram.{in_program};

use bytecode::{BlockNumber, Program, Register};
use definitions::Definition;
use engine_world::engine::Engine;
use engine_world::program_frames::first_registers;
use frames::{truth_at, value_at};
use g_values::Value;
use std::alloc::AllocError;

// Returns whether the text or the object in a register is null, or None if the register has neither.
fn null_at(registers: &[Option<Value>], at: Register) -> Option<bool>
    ensures { result ≡ of_one is_null (read None (registers_of registers.now) at.0) }
{
    match value_at(registers, at)? {
        Value::Text(text) => Some(text.is_none()),
        Value::Object(_, object) => Some(object.is_none()),
        _ => None,
    }
}

/// Makes the program go on at a block.
pub(crate) fn jump(engine: &mut Engine, definition: &Definition, program: &Program, to: BlockNumber)
    requires first { IsProgram engine.now }
    requires able { Able (in_program definition.now engine.now (λ w f. jumping definition.now w f to.0)) }
    requires program { program_at definition.now (first_frame engine.now).program ≡ Some (program_view program.now) }
    requires counted { Counts definition.now nothing engine.now }
    ensures { Executes (Ok result) definition.now engine.old engine.new
        (in_program definition.now engine.old (λ w f. jumping definition.now w f to.0)) }
{
    engine.stack.jump_first(program, to);
}

/// Makes the program go on at one of two blocks, by the truth value in a register.
pub(crate) fn branch(
    engine: &mut Engine,
    definition: &Definition,
    program: &Program,
    on: Register,
    then_to: BlockNumber,
    else_to: BlockNumber,
)
    requires first { IsProgram engine.now }
    requires able { Able (in_program definition.now engine.now (λ w f. branching definition.now w f on.0 then_to.0 else_to.0)) }
    requires program { program_at definition.now (first_frame engine.now).program ≡ Some (program_view program.now) }
    requires counted { Counts definition.now nothing engine.now }
    ensures { Executes (Ok result) definition.now engine.old engine.new
        (in_program definition.now engine.old (λ w f. branching definition.now w f on.0 then_to.0 else_to.0)) }
{
    let Some(truth) = truth_at(first_registers(engine), on) else {
        unreachable!()
    };
    if truth {
        return jump(engine, definition, program, then_to);
    }
    jump(engine, definition, program, else_to)
}

/// Makes the program go on at one of two blocks, by whether the text or the object in a register is null.
pub(crate) fn branch_null(
    engine: &mut Engine,
    definition: &Definition,
    program: &Program,
    on: Register,
    then_to: BlockNumber,
    else_to: BlockNumber,
)
    requires first { IsProgram engine.now }
    requires able { Able (in_program definition.now engine.now (λ w f. branching_null definition.now w f on.0 then_to.0 else_to.0)) }
    requires program { program_at definition.now (first_frame engine.now).program ≡ Some (program_view program.now) }
    requires counted { Counts definition.now nothing engine.now }
    ensures { Executes (Ok result) definition.now engine.old engine.new
        (in_program definition.now engine.old (λ w f. branching_null definition.now w f on.0 then_to.0 else_to.0)) }
{
    let Some(is_null) = null_at(first_registers(engine), on) else {
        unreachable!()
    };
    if is_null {
        return jump(engine, definition, program, then_to);
    }
    jump(engine, definition, program, else_to)
}
