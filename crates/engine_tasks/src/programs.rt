//! The beginning of a program (GObject manual, Closures: `g_closure_invoke`).

ghost use Rattle.std.specs.Prelude.{◌≡◌, ◌≤◌, vec_capacity, IfOk};
ghost use Rattle.ui_machine.specs.Rules.Programs.{beginning_program};
ghost use Rattle.law_typing.specs.Good.Living.{NamesLiving};
ghost use Rattle.law_typing.specs.Verdict.Accepted.{Each};
ghost use Rattle.bytecode.specs.Computing.{registers_of};
ghost use Rattle.frames.specs.FrameView.{AreSet, set_values};
ghost use Rattle.engine_world.specs.Able.{Able};
ghost use Rattle.engine_world.specs.Room.{HasRoom};
ghost use Rattle.engine_world.specs.View.{world_of};
ghost use Rattle.engine_world.specs.Counting.{IsCounted};
ghost use Rattle.engine_world.specs.Executions.{Acts, uncounted_step};

use bytecode::Program;
use definitions::Definition;
use engine_world::engine::Engine;
use engine_world::lines::Line;
use engine_world::program_frames::push_program;
use g_values::Value;
use std::alloc::AllocError;
use ui_machine::ProgramId;

// Returns the list of a program's first registers with room for all registers of the program. It has that room already, unless it was not
// made for this definition.
fn with_room(
    mut registers: Vec<Option<Value>>,
    program: &Program,
) -> Result<Vec<Option<Value>>, AllocError>
    ensures same { IfOk result (λ list. list.items ≡ registers.items) }
    ensures room { IfOk result (λ list. program.now.registers ≤ vec_capacity list) }
{
    if registers.capacity() < program.registers {
        registers.reserve(program.registers)?;
    }
    Ok(registers)
}

/// Begins the program with this number before the other tasks, and says its line. Its first registers have the values of its parameters
/// already. What its registers name is held from then on.
pub(crate) fn begin_program(
    engine: &mut Engine,
    definition: &Definition,
    number: ProgramId,
    registers: Vec<Option<Value>>,
) -> Result<(), AllocError>
    requires able { Able (uncounted_step definition.now engine.now (λ w. beginning_program definition.now w number (set_values (registers_of registers.items)))) }
    requires set { AreSet (registers_of registers.items) }
    requires counted { IsCounted definition.now engine.now }
    requires names { Each (NamesLiving (world_of engine.now.world)) (set_values (registers_of registers.items)) }
    requires room { HasRoom 1 engine.now }
    ensures acts { Acts result definition.now engine.old engine.new
        (uncounted_step definition.now engine.old (λ w. beginning_program definition.now w number (set_values (registers_of registers.items)))) }
    ensures handlers { engine.new.world.handlers ≡ engine.old.world.handlers }
{
    let Some(program) = definition.program(number) else {
        unreachable!()
    };
    let run = Line::Run {
        program: program.name.as_str(),
    };
    let line = run.text(engine.alloc, definition.types())?;
    let mut registers = with_room(registers, program)?;
    push_program(engine, number, program, &mut registers);
    engine.spare_registers.give_back(registers);
    engine.world.say(line)?;
    Ok(())
}
