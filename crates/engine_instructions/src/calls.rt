//! `call`: a program calls a method of an object's peer.

ghost use Rattle.std.specs.Prelude.{◌≡◌, List, Ok, IfOk, IfSome, IsSome, map, option_map, string_bytes};
ghost use Rattle.ui_machine.specs.Definition.Types.{GType};
ghost use Rattle.ui_machine.specs.Instructions.Peers.{calling};
ghost use Rattle.ui_machine.specs.declared.arm.Arm.TheVariants as arms;
ghost use Rattle.ui_machine.specs.Outcome.{known};
ghost use Rattle.ui_machine.specs.Definition.Names.{place_named};
ghost use Rattle.ui_machine.specs.State.Objects.{Object, living};
ghost use Rattle.law_typing.specs.Good.Meanings.{KeepsMeanings, class_methods};
ghost use Rattle.engine_links.specs.Linked.{LinksMethod};
ghost use Rattle.bytecode.specs.View.{number_of};
ghost use Rattle.engine_world.specs.FirstPrograms.{IsProgram, first_frame};
ghost use Rattle.engine_world.specs.Counting.{Counts, nothing};
ghost use Rattle.engine_world.specs.Able.{Able, LeadsToLiving};
ghost use Rattle.engine_world.specs.SeatView.{HasKnownKinds};
ghost use Rattle.engine_stack.specs.TaskView.{call_of};
ghost use Rattle.engine_world.specs.Room.{HasRoom};
ghost use Rattle.engine_world.specs.View.{world_of};
ghost use Rattle.engine_instructions.specs.CallingView.{called_in, called_view, due_call};
ghost use Rattle.engine_world.specs.Executions.{Executes};
ghost use Rattle.engine_instructions.specs.InProgram.{in_program};

use crate::operands::object_in;
use bytecode::{Call, Register};
use definitions::Definition;
use engine_links::Link;
use engine_stack::{DueCall, Task};
use engine_world::engine::Engine;
use engine_world::program_frames::first_registers;
use engine_world::references::push_task;
use frames::copy_values;
use peer_shapes::MethodRef;
use std::alloc::AllocError;
use ui_machine::ObjectId;

// A method of a peer, with the numbers of both.
#[derive(Clone, Copy)]
struct CalledMethod<'a> {
    peer: usize,
    number: usize,
    method: MethodRef<'a>,
}

// Returns the number of a method among those of an object's class, if the class has it. The instruction's link says what the name means.
fn method_number(
    engine: &Engine,
    definition: &Definition,
    object: ObjectId,
    name: &str,
    link: Link,
) -> Option<usize>
    requires live { IsSome (living engine.now.world.table.objects object.0) }
    requires link { LinksMethod definition.now engine.now.links name.now link }
    ensures { (o : Object) → living engine.now.world.table.objects object.0 ≡ Some o → result ≡ place_named (λ m. m.name) (class_methods definition.now o.class) name.now }
{
    let class = engine.world.table.class_of(object);
    let shape = definition.shape_number(class)?;
    engine.links.method(shape, link.method())
}

// Returns the method that a name means for an object's peer, if there are both. Its kinds are known whatever the types are.
fn method_called<'a>(
    engine: &'a Engine,
    definition: &Definition,
    object: ObjectId,
    name: &str,
    link: Link,
) -> Option<CalledMethod<'a>>
    requires live { IsSome (living engine.now.world.table.objects object.0) }
    requires link { LinksMethod definition.now engine.now.links name.now link }
    requires meanings { KeepsMeanings definition.now (world_of engine.now.world) }
    ensures called { known arms.Call (option_map called_view result) ≡ called_in (world_of engine.now.world) object.0 name.now }
    ensures known { (types : List GType) → IfSome result (λ called. HasKnownKinds types called.method) }
{
    let Some(peer) = engine.world.table.peer_of(object) else {
        return None;
    };
    let Some(number) = method_number(engine, definition, object, name, link) else {
        return None;
    };
    let Some(method) = engine.world.seats.method(peer, number) else {
        return None;
    };
    Some(CalledMethod {
        peer,
        number,
        method,
    })
}

// Returns the call that the instruction asks for, with its arguments copied from the registers.
fn due_call(
    engine: &Engine,
    definition: &Definition,
    call: &Call,
    link: Link,
) -> Result<DueCall, AllocError>
    requires first { IsProgram engine.now }
    requires link { LinksMethod definition.now engine.now.links (string_bytes call.now.method) link }
    requires meanings { KeepsMeanings definition.now (world_of engine.now.world) }
    requires able { Able (due_call definition.now (world_of engine.now.world) (first_frame engine.now)
        call.now.to.0 call.now.object.0 (string_bytes call.now.method) (map number_of call.now.args.items)) }
    ensures { IfOk result (λ due. due_call definition.now (world_of engine.now.world) (first_frame engine.now)
        call.now.to.0 call.now.object.0 (string_bytes call.now.method) (map number_of call.now.args.items) ≡ Ok (call_of due)) }
{
    let object = object_in(engine, call.object);
    let name = call.method.as_str();
    let Some(called) = method_called(engine, definition, object, name, link) else {
        unreachable!()
    };
    let registers = first_registers(engine);
    let from = call.args.as_slice();
    let mut args = Vec::new(engine.alloc);
    copy_values(registers, from, &mut args)?;
    Ok(DueCall {
        object,
        peer: called.peer,
        method: called.number,
        args,
        to: call.to,
    })
}

/// Calls a method of an object's peer, which answers before the program goes on.
pub(crate) fn call_from_program(
    engine: &mut Engine,
    definition: &Definition,
    call: &Call,
    link: Link,
) -> Result<(), AllocError>
    requires first { IsProgram engine.now }
    requires link { LinksMethod definition.now engine.now.links (string_bytes call.now.method) link }
    requires meanings { KeepsMeanings definition.now (world_of engine.now.world) }
    requires able { Able (in_program definition.now engine.now (λ w f. calling definition.now w f call.now.to.0 call.now.object.0 (string_bytes call.now.method) (map number_of call.now.args.items))) }
    requires names { LeadsToLiving (in_program definition.now engine.now (λ w f. calling definition.now w f call.now.to.0 call.now.object.0 (string_bytes call.now.method) (map number_of call.now.args.items))) }
    requires counted { Counts definition.now nothing engine.now }
    requires room { HasRoom 1 engine.now }
    ensures { Executes result definition.now engine.old engine.new
        (in_program definition.now engine.old (λ w f. calling definition.now w f call.now.to.0 call.now.object.0 (string_bytes call.now.method) (map number_of call.now.args.items))) }
{
    let due = due_call(engine, definition, call, link)?;
    push_task(engine, Task::Calling(due));
    Ok(())
}
