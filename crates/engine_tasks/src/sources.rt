//! The run of a source that is due (GLib manual, The Main Event Loop: `g_main_context_dispatch`).

ghost use Rattle.std.specs.Prelude.{◌≡◌, [], map, Some, OnOk};
ghost use Rattle.ui_machine.specs.Rules.MainLoop.{source_data, sourcing};
ghost use Rattle.bytecode.specs.Computing.{registers_of};
ghost use Rattle.instance_tables.specs.Store.{id_of};
ghost use Rattle.engine_world.specs.Able.{Able, LeadsToLiving};
ghost use Rattle.engine_world.specs.Room.{HasRoom};
ghost use Rattle.engine_world.specs.Counting.{IsCounted};
ghost use Rattle.engine_world.specs.Executions.{Acts, uncounted_step};

use crate::programs::begin_program;
use definitions::Definition;
use engine_stack::Task;
use engine_world::engine::Engine;
use engine_world::given::object_value;
use engine_world::references::push_task;
use g_values::Value;
use std::alloc::AllocError;
use ui_machine::ObjectId;

// Gives the program of a source its data, if it has some, in registers that have to be empty.
fn give_data(registers: &mut Vec<Option<Value>>, arg: Option<ObjectId>) -> Result<(), AllocError>
    requires none { registers.now.items ≡ [] }
    ensures given { OnOk result (registers_of registers.new.items ≡ map (λ v. Some v) (source_data (id_of arg))) }
{
    let Some(arg) = arg else {
        return Ok(());
    };
    registers.push(Some(object_value(arg)))?;
    Ok(())
}

/// Runs a due source: its program begins, with the source's data.
///
/// # Errors
///
/// `AllocError` if memory is refused.
pub fn run_source(
    engine: &mut Engine,
    definition: &Definition,
    source: u64,
) -> Result<(), AllocError>
    requires able { Able (uncounted_step definition.now engine.now (λ w. sourcing definition.now w source)) }
    requires names { LeadsToLiving (uncounted_step definition.now engine.now (λ w. sourcing definition.now w source)) }
    requires counted { IsCounted definition.now engine.now }
    requires room { HasRoom 2 engine.now }
    ensures { Acts result definition.now engine.old engine.new
        (uncounted_step definition.now engine.old (λ w. sourcing definition.now w source)) }
{
    let Some(due) = engine.world.context.find(source) else {
        unreachable!()
    };
    let mut registers = engine.spare_registers.take(engine.alloc);
    give_data(&mut registers, due.arg)?;
    push_task(engine, Task::Answering { source });
    begin_program(engine, definition, due.program, registers)
}
