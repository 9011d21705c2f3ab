//! The execution of an instruction, by its sort.

ghost use Rattle.std.specs.Prelude.{◌≡◌, ◌-◌, Some, IfSome, OnOk};
ghost use Rattle.ui_machine.specs.Definition.Lookups.{program_at};
ghost use Rattle.g_values.specs.View.{IsKnown};
ghost use Rattle.law_typing.specs.Good.Meanings.{KeepsMeanings};
ghost use Rattle.engine_world.specs.FirstPrograms.{IsProgram, first_frame};
ghost use Rattle.bytecode.specs.Known.{HasKnownKinds};
ghost use Rattle.bytecode.specs.View.{control_view, instruction_view, object_instruction_view, program_view, property_instruction_view, signal_instruction_view, source_instruction_view};
ghost use Rattle.engine_world.specs.Room.{HasRoom};
ghost use Rattle.engine_world.specs.View.{world_of};
ghost use Rattle.engine_world.specs.Counting.{Counts, nothing};
ghost use Rattle.engine_world.specs.Able.{Able, LeadsToLiving};
ghost use Rattle.engine_instructions.specs.ClosedPeers.{LeavesClosed};
ghost use Rattle.engine_links.specs.Linked.{AreLinked, IsLink, instruction_at};
ghost use Rattle.engine_world.specs.Executions.{Executes, ExecutesWithoutGone};
ghost use Rattle.engine_instructions.specs.InProgram.{executed};

use crate::calls::call_from_program;
use crate::connects::connect_from_program;
use crate::emits::{Emit, emit_from_program};
use crate::jumps::{branch, branch_null, jump};
use crate::matched_handlers::{block_matched, disconnect_matched, unblock_matched};
use crate::new_objects::create;
use crate::objects::{
    adopt_from_program, freeze_notify, look_up_object, orphan, run_dispose, sink, thaw_notify,
};
use crate::properties::{get_property, notify_from_program, set_property};
use crate::registers::compute_register;
use crate::returns::return_from_program;
use crate::sources::{Attach, attach_from_program, remove_from_program};
use crate::stops::stop_from_program;
use crate::unbinds::unbind_from_program;
use bytecode::{
    ControlInstruction, Instruction, ObjectInstruction, Program, PropertyInstruction,
    SignalInstruction, SourceInstruction,
};
use definitions::Definition;
use engine_links::Link;
use engine_world::engine::Engine;
use engine_world::program_frames::first_frame;
use std::alloc::AllocError;

// Returns the link of an instruction that the program which is the first task has taken.
fn link_of(engine: &Engine, definition: &Definition, instruction: &Instruction) -> Link
    requires first { IsProgram engine.now }
    requires links { AreLinked definition.now engine.now.links }
    requires taken { instruction_at definition.now (first_frame engine.now).program (first_frame engine.now).block ((first_frame engine.now).at - 1) ≡ Some (instruction_view instruction.now) }
    ensures { IsLink definition.now engine.now.links (instruction_view instruction.now) result }
{
    let frame = first_frame(engine);
    let at = frame.at.saturating_sub(1);
    engine.links.link(frame.program, frame.block, at)
}

/// Carries out an instruction, which the program that is the first task has taken and which is counted already. Leaves the number of a peer that it closes in the
/// engine. Handlers that it disconnects have no more turns in the emissions that are under way.
///
/// # Errors
///
/// `AllocError` if memory is refused.
pub fn execute(
    engine: &mut Engine,
    definition: &Definition,
    program: &Program,
    instruction: &Instruction,
) -> Result<(), AllocError>
    requires first { IsProgram engine.now }
    requires able { Able (executed definition.now engine.now (instruction_view instruction.now)) }
    requires names { LeadsToLiving (executed definition.now engine.now (instruction_view instruction.now)) }
    requires program { program_at definition.now (first_frame engine.now).program ≡ Some (program_view program.now) }
    requires taken { instruction_at definition.now (first_frame engine.now).program (first_frame engine.now).block ((first_frame engine.now).at - 1) ≡ Some (instruction_view instruction.now) }
    requires known { HasKnownKinds definition.now.types instruction.now }
    requires meanings { KeepsMeanings definition.now (world_of engine.now.world) }
    requires result { IfSome program.now.result (IsKnown definition.now.types) }
    requires counted { Counts definition.now nothing engine.now }
    requires room { HasRoom 1 engine.now }
    ensures executes { ExecutesWithoutGone result definition.now engine.old engine.new nothing
        (executed definition.now engine.old (instruction_view instruction.now)) }
    ensures closing { OnOk result (LeavesClosed (instruction_view instruction.now) (world_of engine.old.world) (first_frame engine.old) engine.old.closing engine.new.closing) }
{
    match instruction {
        Instruction::Compute { to, computation } => {
            compute_register(engine, definition, *to, computation)
        }
        Instruction::Control(control) => { execute_control(engine, definition, program, control) }
        Instruction::Property(property) => {
            let link = link_of(engine, definition, instruction);
            execute_on_properties(engine, definition, property, link)
        }
        Instruction::Object(object) => {
            let link = link_of(engine, definition, instruction);
            execute_on_objects(engine, definition, object, link)
        }
        Instruction::Signal(signal) => {
            let link = link_of(engine, definition, instruction);
            execute_on_signals(engine, definition, signal, link)
        }
        Instruction::Source(source) => {
            let link = link_of(engine, definition, instruction);
            execute_on_sources(engine, definition, source, link)
        }
        Instruction::Peer(call) => {
            let link = link_of(engine, definition, instruction);
            call_from_program(engine, definition, call, link)
        }
    }
}

// Carries out a jump, a branch or a return.
fn execute_control(
    engine: &mut Engine,
    definition: &Definition,
    program: &Program,
    instruction: &ControlInstruction,
) -> Result<(), AllocError>
    requires first { IsProgram engine.now }
    requires able { Able (executed definition.now engine.now (control_view instruction.now)) }
    requires program { program_at definition.now (first_frame engine.now).program ≡ Some (program_view program.now) }
    requires result { IfSome program.now.result (IsKnown definition.now.types) }
    requires counted { Counts definition.now nothing engine.now }
    ensures { Executes result definition.now engine.old engine.new (executed definition.now engine.old (control_view instruction.now)) }
{
    match instruction {
        ControlInstruction::Jump(to) => jump(engine, definition, program, *to),
        ControlInstruction::Branch {
            on,
            then_to,
            else_to,
        } => branch(engine, definition, program, *on, *then_to, *else_to),
        ControlInstruction::BranchNull {
            on,
            then_to,
            else_to,
        } => branch_null(engine, definition, program, *on, *then_to, *else_to),
        ControlInstruction::Return(from) => {
            return_from_program(engine, definition, program, *from)?;
        }
    }
    Ok(())
}

// Carries out an instruction on properties.
fn execute_on_properties(
    engine: &mut Engine,
    definition: &Definition,
    instruction: &PropertyInstruction,
    link: Link,
) -> Result<(), AllocError>
    requires first { IsProgram engine.now }
    requires link { IsLink definition.now engine.now.links (property_instruction_view instruction.now) link }
    requires able { Able (executed definition.now engine.now (property_instruction_view instruction.now)) }
    requires names { LeadsToLiving (executed definition.now engine.now (property_instruction_view instruction.now)) }
    requires counted { Counts definition.now nothing engine.now }
    requires room { HasRoom 1 engine.now }
    ensures { Executes result definition.now engine.old engine.new
        (executed definition.now engine.old (property_instruction_view instruction.now)) }
{
    match instruction {
        PropertyInstruction::Get {
            to,
            object,
            property,
        } => get_property(engine, definition, *to, *object, property.as_str(), link)?,
        PropertyInstruction::Set {
            object,
            property,
            from,
        } => set_property(engine, definition, *object, property.as_str(), *from, link)?,
        PropertyInstruction::Notify { object, property } => {
            notify_from_program(engine, definition, *object, property.as_str(), link)?;
        }
        PropertyInstruction::Freeze(object) => freeze_notify(engine, definition, *object),
        PropertyInstruction::Thaw(object) => thaw_notify(engine, definition, *object),
    }
    Ok(())
}

// Carries out an instruction on objects. Handlers that `dispose` disconnects have no more turns.
fn execute_on_objects(
    engine: &mut Engine,
    definition: &Definition,
    instruction: &ObjectInstruction,
    link: Link,
) -> Result<(), AllocError>
    requires first { IsProgram engine.now }
    requires link { IsLink definition.now engine.now.links (object_instruction_view instruction.now) link }
    requires able { Able (executed definition.now engine.now (object_instruction_view instruction.now)) }
    requires names { LeadsToLiving (executed definition.now engine.now (object_instruction_view instruction.now)) }
    requires counted { Counts definition.now nothing engine.now }
    requires room { HasRoom 1 engine.now }
    ensures executes { ExecutesWithoutGone result definition.now engine.old engine.new nothing
        (executed definition.now engine.old (object_instruction_view instruction.now)) }
    ensures closing { OnOk result (LeavesClosed (object_instruction_view instruction.now) (world_of engine.old.world) (first_frame engine.old) engine.old.closing engine.new.closing) }
{
    match instruction {
        ObjectInstruction::LookUp { to, id } => {
            look_up_object(engine, definition, *to, id.as_str(), link);
        }
        ObjectInstruction::New { to, id } => create(engine, definition, *to, id.as_str(), link)?,
        ObjectInstruction::Sink(object) => sink(engine, definition, *object),
        ObjectInstruction::Orphan(object) => orphan(engine, definition, *object)?,
        ObjectInstruction::Dispose(object) => run_dispose(engine, definition, *object)?,
        ObjectInstruction::Adopt { to, parent, child } => {
            adopt_from_program(engine, definition, *to, *parent, *child)?;
        }
    }
    Ok(())
}

// Carries out an instruction on signals and handlers. Handlers that `disconnect` disconnects have no more turns.
fn execute_on_signals(
    engine: &mut Engine,
    definition: &Definition,
    instruction: &SignalInstruction,
    link: Link,
) -> Result<(), AllocError>
    requires first { IsProgram engine.now }
    requires link { IsLink definition.now engine.now.links (signal_instruction_view instruction.now) link }
    requires able { Able (executed definition.now engine.now (signal_instruction_view instruction.now)) }
    requires names { LeadsToLiving (executed definition.now engine.now (signal_instruction_view instruction.now)) }
    requires counted { Counts definition.now nothing engine.now }
    requires room { HasRoom 1 engine.now }
    ensures { ExecutesWithoutGone result definition.now engine.old engine.new nothing
        (executed definition.now engine.old (signal_instruction_view instruction.now)) }
{
    match instruction {
        SignalInstruction::Emit {
            into,
            object,
            signal,
            detail,
            args,
        } => {
            let emit = Emit {
                into: *into,
                signal: signal.as_str(),
                detail,
                args: args.as_slice(),
                link,
            };
            emit_from_program(engine, definition, *object, emit)?;
        }
        SignalInstruction::Connect {
            to,
            object,
            connection,
        } => connect_from_program(engine, definition, *to, *object, connection, link)?,
        SignalInstruction::Disconnect { object, program } => {
            disconnect_matched(engine, definition, *object, program.as_str(), link);
        }
        SignalInstruction::Block { object, program } => {
            block_matched(engine, definition, *object, program.as_str(), link);
        }
        SignalInstruction::Unblock { object, program } => {
            unblock_matched(engine, definition, *object, program.as_str(), link);
        }
        SignalInstruction::Stop => stop_from_program(engine, definition),
    }
    Ok(())
}

// Carries out an instruction on bindings and sources.
fn execute_on_sources(
    engine: &mut Engine,
    definition: &Definition,
    instruction: &SourceInstruction,
    link: Link,
) -> Result<(), AllocError>
    requires first { IsProgram engine.now }
    requires link { IsLink definition.now engine.now.links (source_instruction_view instruction.now) link }
    requires meanings { KeepsMeanings definition.now (world_of engine.now.world) }
    requires able { Able (executed definition.now engine.now (source_instruction_view instruction.now)) }
    requires counted { Counts definition.now nothing engine.now }
    ensures { Executes result definition.now engine.old engine.new
        (executed definition.now engine.old (source_instruction_view instruction.now)) }
{
    match instruction {
        SourceInstruction::Unbind(name) => {
            unbind_from_program(engine, definition, name.as_str(), link);
        }
        SourceInstruction::Idle {
            to,
            program,
            priority,
            with,
        } => {
            let attach = Attach {
                word: "idle",
                program: program.as_str(),
                link,
                priority: *priority,
                interval: None,
                with: *with,
            };
            attach_from_program(engine, definition, *to, attach)?;
        }
        SourceInstruction::Timeout {
            to,
            program,
            priority,
            interval,
            with,
        } => {
            let attach = Attach {
                word: "timeout",
                program: program.as_str(),
                link,
                priority: *priority,
                interval: Some(*interval),
                with: *with,
            };
            attach_from_program(engine, definition, *to, attach)?;
        }
        SourceInstruction::Remove(program) => {
            remove_from_program(engine, definition, program.as_str(), link);
        }
    }
    Ok(())
}
