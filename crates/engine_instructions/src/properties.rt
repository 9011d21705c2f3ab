//! Instructions on properties: `get`, `set` and `notify`.

ghost use Rattle.std.specs.Prelude.{◌≡◌, IfOk, Ok};
ghost use Rattle.ui_machine.specs.Instructions.Properties.{set_property, get_property, slot_at, notify_from_program};
ghost use Rattle.ui_machine.specs.Instructions.Registers.{value_in};
ghost use Rattle.ui_machine.specs.Rules.Sets.{raising};
ghost use Rattle.g_values.specs.View.{value_view};
ghost use Rattle.engine_world.specs.FirstPrograms.{IsProgram, first_frame};
ghost use Rattle.engine_world.specs.Able.{Able, LeadsToLiving};
ghost use Rattle.engine_links.specs.Linked.{LinksProperty};
ghost use Rattle.engine_world.specs.Room.{HasRoom};
ghost use Rattle.engine_world.specs.View.{world_of};
ghost use Rattle.engine_instructions.specs.PropertyView.{readable_value};
ghost use Rattle.engine_world.specs.Counting.{Counts, IsCounted, nothing};
ghost use Rattle.engine_world.specs.Executions.{Acts, Executes, uncounted_step};
ghost use Rattle.engine_instructions.specs.InProgram.{in_program};

use crate::operands::object_in;
use crate::registers::write_register;
use bytecode::Register;
use definitions::Definition;
use engine_links::Link;
use engine_stack::Task;
use engine_world::engine::Engine;
use engine_world::program_frames::first_registers;
use engine_world::properties::spec_of;
use engine_world::references::push_task;
use frames::value_at;
use g_values::Value;
use std::alloc::AllocError;
use ui_machine::{ObjectId, Slot};

/// Returns a copy of the value of a register, which has to be set.
pub(crate) fn value_in(engine: &Engine, from: Register) -> Result<Value, AllocError>
    requires first { IsProgram engine.now }
    requires able { Able (value_in (first_frame engine.now) from.0) }
    ensures { IfOk result (λ value. value_in (first_frame engine.now) from.0 ≡ Ok (value_view value)) }
{
    let registers = first_registers(engine);
    let Some(value) = value_at(registers, from) else {
        unreachable!()
    };
    value.copied()
}

// Returns the slot of an object's property. The instruction's link says what the name means.
fn slot_at(
    engine: &Engine,
    definition: &Definition,
    object: ObjectId,
    property: &str,
    link: Link,
) -> Slot
    requires able { Able (slot_at definition.now (world_of engine.now.world) object.0 property.now) }
    requires link { LinksProperty definition.now engine.now.links property.now link }
    ensures { slot_at definition.now (world_of engine.now.world) object.0 property.now ≡ Ok result }
{
    let class = engine.world.table.class_of(object);
    let Some(slot) = engine.links.slot(class, link.property()) else {
        unreachable!()
    };
    slot
}

// Returns a copy of the value of an object's property, which has to be readable.
fn readable_value(
    engine: &Engine,
    definition: &Definition,
    object: ObjectId,
    property: &str,
    link: Link,
) -> Result<Value, AllocError>
    requires able { Able (readable_value definition.now (world_of engine.now.world) object.0 property.now) }
    requires link { LinksProperty definition.now engine.now.links property.now link }
    ensures { IfOk result (λ value. readable_value definition.now (world_of engine.now.world) object.0 property.now ≡ Ok (value_view value)) }
{
    let slot = slot_at(engine, definition, object, property, link);
    engine.world.table.read(object, slot).copied()
}

/// Writes the value of an object's property to a register.
pub(crate) fn get_property(
    engine: &mut Engine,
    definition: &Definition,
    to: Register,
    object: Register,
    property: &str,
    link: Link,
) -> Result<(), AllocError>
    requires first { IsProgram engine.now }
    requires able { Able (in_program definition.now engine.now (λ w f. get_property definition.now w f to.0 object.0 property.now)) }
    requires names { LeadsToLiving (in_program definition.now engine.now (λ w f. get_property definition.now w f to.0 object.0 property.now)) }
    requires link { LinksProperty definition.now engine.now.links property.now link }
    requires counted { Counts definition.now nothing engine.now }
    ensures { Executes result definition.now engine.old engine.new
        (in_program definition.now engine.old (λ w f. get_property definition.now w f to.0 object.0 property.now)) }
{
    let object = object_in(engine, object);
    let value = readable_value(engine, definition, object, property, link)?;
    write_register(engine, definition, to, Some(value));
    Ok(())
}

/// Sets an object's property to the value of a register, before the program goes on.
pub(crate) fn set_property(
    engine: &mut Engine,
    definition: &Definition,
    object: Register,
    property: &str,
    from: Register,
    link: Link,
) -> Result<(), AllocError>
    requires first { IsProgram engine.now }
    requires able { Able (in_program definition.now engine.now (λ w f. set_property definition.now w f object.0 property.now from.0)) }
    requires link { LinksProperty definition.now engine.now.links property.now link }
    requires counted { Counts definition.now nothing engine.now }
    requires room { HasRoom 1 engine.now }
    ensures { Executes result definition.now engine.old engine.new
        (in_program definition.now engine.old (λ w f. set_property definition.now w f object.0 property.now from.0)) }
{
    let object = object_in(engine, object);
    let slot = slot_at(engine, definition, object, property, link);
    let value = value_in(engine, from)?;
    push_task(
        engine,
        Task::Setting {
            object,
            slot,
            value,
        },
    );
    Ok(())
}

// Raises the notification of a property. It waits if the object is frozen, and otherwise comes before the other tasks.
#[tactic(auto, unfolding(ui_machine::specs::Rules::Sets::raising))]
fn raise(
    engine: &mut Engine,
    definition: &Definition,
    object: ObjectId,
    slot: Slot,
) -> Result<(), AllocError>
    requires able { Able (uncounted_step definition.now engine.now (λ w. raising w object.0 slot)) }
    requires counted { IsCounted definition.now engine.now }
    requires room { HasRoom 1 engine.now }
    ensures { Acts result definition.now engine.old engine.new
        (uncounted_step definition.now engine.old (λ w. raising w object.0 slot)) }
{
    if engine.world.table.add(object, slot)? {
        push_task(engine, Task::Notifying { object, slot });
    }
    Ok(())
}

/// Raises the notification of an object's property before the program goes on. Does nothing if the property is not readable.
pub(crate) fn notify_from_program(
    engine: &mut Engine,
    definition: &Definition,
    object: Register,
    property: &str,
    link: Link,
) -> Result<(), AllocError>
    requires first { IsProgram engine.now }
    requires able { Able (in_program definition.now engine.now (λ w f. notify_from_program definition.now w f object.0 property.now)) }
    requires link { LinksProperty definition.now engine.now.links property.now link }
    requires counted { Counts definition.now nothing engine.now }
    requires room { HasRoom 1 engine.now }
    ensures { Executes result definition.now engine.old engine.new
        (in_program definition.now engine.old (λ w f. notify_from_program definition.now w f object.0 property.now)) }
{
    let object = object_in(engine, object);
    let slot = slot_at(engine, definition, object, property, link);
    let spec = spec_of(engine, definition, object, slot);
    if !spec.is_readable() {
        return Ok(());
    }
    raise(engine, definition, object, slot)
}
