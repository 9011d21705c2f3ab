//! `emit`: a program emits a signal (GObject manual, Signals: `g_signal_emit`).

ghost use Rattle.std.specs.Prelude.{◌≡◌, [], IfOk, Ok};
ghost use Rattle.ui_machine.specs.Instructions.Signals.{emitting, signal_in};
ghost use Rattle.engine_world.specs.FirstPrograms.{IsProgram, first_frame};
ghost use Rattle.engine_world.specs.Counting.{Counts, nothing};
ghost use Rattle.engine_instructions.specs.EmitView.{emission_by_code, emit_of};
ghost use Rattle.engine_world.specs.Able.{Able, LeadsToLiving};
ghost use Rattle.engine_links.specs.Linked.{IsSignal, LinksEmission};
ghost use Rattle.engine_links.specs.Linked as linked;
ghost use Rattle.engine_stack.specs.TaskView.{new_of};
ghost use Rattle.engine_world.specs.Room.{HasRoom};
ghost use Rattle.engine_world.specs.View.{world_of};
ghost use Rattle.engine_world.specs.Executions.{Executes};
ghost use Rattle.engine_instructions.specs.InProgram.{in_program};

use crate::details::shared_detail_in;
use crate::operands::object_in;
use bytecode::Register;
use definitions::Definition;
use engine_links::Link;
use engine_stack::{NewEmission, Task};
use engine_world::engine::Engine;
use engine_world::program_frames::first_registers;
use engine_world::references::push_task;
use frames::copy_values;
use g_values::Value;
use std::alloc::AllocError;
use std::rc::RcStr;
use ui_machine::{ObjectId, SignalId};

/// The operands of `emit` beside the object.
#[derive(Clone, Copy, Debug)]
pub(crate) struct Emit<'a> {
    /// The register that waits for the result.
    pub(crate) into: Option<Register>,
    pub(crate) signal: &'a str,
    pub(crate) detail: &'a Option<RcStr>,
    pub(crate) args: &'a [Register],
    /// The meanings of the names.
    pub(crate) link: Link,
}

/// Returns the number of a signal of an object. The instruction's link says what the name means.
pub(crate) fn signal_in(
    engine: &Engine,
    definition: &Definition,
    object: ObjectId,
    name: &str,
    link: Link,
) -> SignalId
    requires able { Able (signal_in definition.now (world_of engine.now.world) object.0 name.now) }
    requires link { IsSignal definition.now engine.now.links name.now (linked.signal_in link) }
    ensures { signal_in definition.now (world_of engine.now.world) object.0 name.now ≡ Ok result }
{
    let class = engine.world.table.class_of(object);
    let Some(number) = engine.links.signal(class, link.signal()) else {
        unreachable!()
    };
    number
}

// Returns the emission that a program asks for, with its arguments in the given list, which has to be empty.
fn new_emission(
    engine: &Engine,
    definition: &Definition,
    object: Register,
    emit: Emit<'_>,
    mut args: Vec<Value>,
) -> Result<NewEmission, AllocError>
    requires first { IsProgram engine.now }
    requires none { args.items ≡ [] }
    requires link { LinksEmission definition.now engine.now.links emit.signal.now (emit_of emit).detail emit.link }
    requires able { Able (emission_by_code definition.now (world_of engine.now.world) (first_frame engine.now) object.0 (emit_of emit)) }
    ensures { IfOk result (λ e. emission_by_code definition.now (world_of engine.now.world) (first_frame engine.now) object.0 (emit_of emit.entry) ≡ Ok (new_of e)) }
{
    let object = object_in(engine, object);
    let signal = signal_in(engine, definition, object, emit.signal, emit.link);
    let detail = shared_detail_in(engine, definition, object, signal, emit.detail, emit.link)?;
    let registers = first_registers(engine);
    copy_values(registers, emit.args, &mut args)?;
    Ok(NewEmission {
        object,
        signal,
        detail,
        args,
        by_event: false,
    })
}

/// Begins an emission before the program goes on. The program waits for the result if it takes one.
pub(crate) fn emit_from_program(
    engine: &mut Engine,
    definition: &Definition,
    object: Register,
    emit: Emit<'_>,
) -> Result<(), AllocError>
    requires first { IsProgram engine.now }
    requires link { LinksEmission definition.now engine.now.links emit.signal.now (emit_of emit).detail emit.link }
    requires able { Able (in_program definition.now engine.now (λ w f. emitting definition.now w f object.0 (emit_of emit))) }
    requires names { LeadsToLiving (in_program definition.now engine.now (λ w f. emitting definition.now w f object.0 (emit_of emit))) }
    requires counted { Counts definition.now nothing engine.now }
    requires room { HasRoom 1 engine.now }
    ensures { Executes result definition.now engine.old engine.new
        (in_program definition.now engine.old (λ w f. emitting definition.now w f object.0 (emit_of emit.entry))) }
{
    let args = engine.spare_args.take_for(engine.alloc, emit.args.len());
    let emission = new_emission(engine, definition, object, emit, args)?;
    engine.stack.wait_first(emit.into);
    push_task(engine, Task::Beginning(emission));
    Ok(())
}
