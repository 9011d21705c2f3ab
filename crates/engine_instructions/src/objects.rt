//! Instructions on objects: `object`, `sink`, `orphan`, `adopt`, `dispose`, `freeze` and `thaw`.

ghost use Rattle.std.specs.Prelude.{◌≡◌, map, IsSome, OnOk, OnErr};
ghost use Rattle.ui_machine.specs.Instructions.Objects.{adopting, disposing, freezing, look_up_object, orphaning, sinking, thaw_notify};
ghost use Rattle.ui_machine.specs.Instructions.Registers.{operand_in};
ghost use Rattle.ui_machine.specs.Rules.Children.{orphaned};
ghost use Rattle.ui_machine.specs.Rules.Disposal.{disposed};
ghost use Rattle.ui_machine.specs.State.Objects.{living};
ghost use Rattle.engine_world.specs.FirstPrograms.{IsProgram, first_frame};
ghost use Rattle.instance_tables.specs.Family.{parent_in};
ghost use Rattle.instance_tables.specs.Weak.{Knows};
ghost use Rattle.machine_laws.specs.GoneLaws.{pruned};
ghost use Rattle.engine_world.specs.Able.{Able, Leads, LeadsToLiving};
ghost use Rattle.engine_links.specs.Linked.{LinksPlace};
ghost use Rattle.engine_world.specs.Quiet.{IsQuiet};
ghost use Rattle.engine_world.specs.Room.{HasRoom, SameRoom};
ghost use Rattle.engine_world.specs.View.{world_of};
ghost use Rattle.engine_world.specs.TaskView.{agenda_of};
ghost use Rattle.engine_world.specs.ClosingView.{closed_with, or_number};
ghost use Rattle.engine_world.specs.Counting.{Counts, KeepsCounts, nothing};
ghost use Rattle.engine_world.specs.Standing.{gone_handlers};
ghost use Rattle.engine_instructions.specs.ClosedPeers.{closed_in};
ghost use Rattle.engine_world.specs.Executions.{Executes, ExecutesWithoutGone};
ghost use Rattle.engine_instructions.specs.InProgram.{in_program};

use crate::operands::object_in;
use crate::registers::write_register;
use bytecode::Register;
use definitions::Definition;
use engine_links::Link;
use engine_stack::{Slots, Task};
use engine_world::children::join_objects;
use engine_world::closings::{closing_with, dispose_line, say_and_close};
use engine_world::engine::Engine;
use engine_world::given::object_or_null;
use engine_world::lines::Line;
use engine_world::references::push_task;
use g_values::Value;
use std::alloc::AllocError;
use ui_machine::ObjectId;

/// Writes the object that the builder holds for an id to a register, or null if it holds none.
pub(crate) fn look_up_object(
    engine: &mut Engine,
    definition: &Definition,
    to: Register,
    id: &str,
    link: Link,
)
    requires first { IsProgram engine.now }
    requires link { LinksPlace definition.now id.now link }
    requires able { Able (in_program definition.now engine.now (λ w f. look_up_object definition.now w f to.0 id.now)) }
    requires names { LeadsToLiving (in_program definition.now engine.now (λ w f. look_up_object definition.now w f to.0 id.now)) }
    requires counted { Counts definition.now nothing engine.now }
    ensures { Executes (Ok result) definition.now engine.old engine.new
        (in_program definition.now engine.old (λ w f. look_up_object definition.now w f to.0 id.now)) }
{
    let Some(place) = link.place() else {
        unreachable!()
    };
    let object = object_or_null(engine.world.built(place));
    write_register(engine, definition, to, Some(object))
}

/// Sinks an object, which floats no longer.
pub(crate) fn sink(engine: &mut Engine, definition: &Definition, object: Register)
    requires first { IsProgram engine.now }
    requires able { Able (in_program definition.now engine.now (λ w f. sinking w f object.0)) }
    requires counted { Counts definition.now nothing engine.now }
    ensures { Executes (Ok result) definition.now engine.old engine.new
        (in_program definition.now engine.old (λ w f. sinking w f object.0)) }
{
    let object = object_in(engine, object);
    engine.world.table.sink(object);
}

/// Freezes the notifications of an object, which wait from then on.
pub(crate) fn freeze_notify(engine: &mut Engine, definition: &Definition, object: Register)
    requires first { IsProgram engine.now }
    requires able { Able (in_program definition.now engine.now (λ w f. freezing w f object.0)) }
    requires counted { Counts definition.now nothing engine.now }
    ensures { Executes (Ok result) definition.now engine.old engine.new
        (in_program definition.now engine.old (λ w f. freezing w f object.0)) }
{
    let object = object_in(engine, object);
    engine.world.table.freeze(object);
}

/// Takes one freeze of an object off. If it was the last one, the properties that wait are notified before the program goes on.
pub(crate) fn thaw_notify(engine: &mut Engine, definition: &Definition, object: Register)
    requires first { IsProgram engine.now }
    requires able { Able (in_program definition.now engine.now (λ w f. thaw_notify w f object.0)) }
    requires counted { Counts definition.now nothing engine.now }
    requires room { HasRoom 1 engine.now }
    ensures { Executes (Ok result) definition.now engine.old engine.new
        (in_program definition.now engine.old (λ w f. thaw_notify w f object.0)) }
{
    let object = object_in(engine, object);
    let slots = engine.world.table.thaw(object);
    push_task(
        engine,
        Task::Thawing {
            object,
            slots: Slots::new(slots),
        },
    );
}

// Takes an object out of its parent, and says its line. Does nothing if it has no parent.
fn leave(engine: &mut Engine, definition: &Definition, child: ObjectId) -> Result<(), AllocError>
    ensures ok { let w = world_of engine.old.world in OnOk result (world_of engine.new.world ≡ orphaned definition.now w child.0 (parent_in (living w.objects child.0))) }
    ensures err { OnErr result (IsQuiet (world_of engine.old.world) (world_of engine.new.world)) }
    ensures same { (engine.new.stack ≡ engine.old.stack) × (engine.new.counted ≡ engine.old.counted) }
    ensures handlers { engine.new.world.handlers ≡ engine.old.world.handlers }
    ensures counted { OnOk result (KeepsCounts definition.now engine.old engine.new) }
{
    if engine.world.table.parent_of(child).is_none() {
        return Ok(());
    }
    let line = Line::Orphan { child }.text(engine.alloc, definition.types())?;
    engine.world.table.orphan(child);
    engine.world.say(line)?;
    Ok(())
}

/// Takes an object out of its parent, if it has one.
pub(crate) fn orphan(
    engine: &mut Engine,
    definition: &Definition,
    object: Register,
) -> Result<(), AllocError>
    requires first { IsProgram engine.now }
    requires able { Able (in_program definition.now engine.now (λ w f. orphaning definition.now w f object.0)) }
    requires counted { Counts definition.now nothing engine.now }
    ensures { Executes result definition.now engine.old engine.new
        (in_program definition.now engine.old (λ w f. orphaning definition.now w f object.0)) }
{
    let object = object_in(engine, object);
    leave(engine, definition, object)?;
    Ok(())
}

/// Makes an object the child of another one, or says a limit's line. Writes to a register whether the object was adopted.
pub(crate) fn adopt_from_program(
    engine: &mut Engine,
    definition: &Definition,
    to: Register,
    parent: Register,
    child: Register,
) -> Result<(), AllocError>
    requires first { IsProgram engine.now }
    requires able { Able (in_program definition.now engine.now (λ w f. adopting definition.now w f to.0 parent.0 child.0)) }
    requires counted { Counts definition.now nothing engine.now }
    ensures { Executes result definition.now engine.old engine.new
        (in_program definition.now engine.old (λ w f. adopting definition.now w f to.0 parent.0 child.0)) }
{
    let parent = object_in(engine, parent);
    let child = object_in(engine, child);
    let is_free = engine.world.table.refusal(parent, child).is_none();
    write_register(engine, definition, to, Some(Value::Bool(is_free)));
    join_objects(engine, definition, parent, child)
}

// Disposes an object that was not disposed before: it lets go what it holds, and all forget it. Its peer is closed, if it has an open one.
// Its handlers are disconnected and have no more turns in the emissions that are under way, and its bindings end.
fn dispose(engine: &mut Engine, definition: &Definition, object: ObjectId) -> Result<(), AllocError>
    requires able { Able (disposed definition.now (world_of engine.now.world) object.0) }
    requires live { IsSome (living engine.now.world.table.objects object.0) }
    requires knows { Knows definition.now engine.now.world.weak }
    ensures step { Leads result (disposed definition.now (world_of engine.old.world) object.0) (world_of engine.new.world) }
    ensures agenda { OnOk result (agenda_of definition.now engine.new ≡ map (pruned (gone_handlers (world_of engine.new.world))) (agenda_of definition.now engine.old)) }
    ensures quiet { OnErr result (IsQuiet (world_of engine.old.world) (world_of engine.new.world)) }
    ensures same { OnOk result (engine.new.counted ≡ engine.old.counted) }
    ensures closing { OnOk result (engine.new.closing ≡ or_number (closed_with (world_of engine.old.world) object.0) engine.old.closing) }
    ensures counted { OnOk result (KeepsCounts definition.now engine.old engine.new) }
    ensures room { SameRoom engine.old engine.new }
{
    let line = dispose_line(engine, definition, object)?;
    let closed = closing_with(engine, definition, object)?;
    // For the proof: what is known of the numbers of handlers.
    let _last = engine.world.handlers.last();
    engine.world.table.dispose(&engine.world.weak, object);
    engine.world.handlers.disconnect_object(object);
    engine.world.bindings.end_of(object);
    say_and_close(engine, line, closed, None)?;
    Ok(())
}

/// Disposes an object, unless it was disposed before: it lets go what it holds, and all forget it. Its peer is closed, if it has an open
/// one. Its handlers have no more turns in the emissions that are under way, and its bindings end.
pub(crate) fn run_dispose(
    engine: &mut Engine,
    definition: &Definition,
    object: Register,
) -> Result<(), AllocError>
    requires first { IsProgram engine.now }
    requires able { Able (in_program definition.now engine.now (λ w f. disposing definition.now w f object.0)) }
    requires counted { Counts definition.now nothing engine.now }
    ensures executes { ExecutesWithoutGone result definition.now engine.old engine.new nothing
        (in_program definition.now engine.old (λ w f. disposing definition.now w f object.0)) }
    ensures closing { OnOk result (engine.new.closing
        ≡ or_number (closed_in (world_of engine.old.world) (operand_in (world_of engine.old.world) (first_frame engine.old) object.0)) engine.old.closing) }
{
    let object = object_in(engine, object);
    if engine.world.table.is_disposed(object) {
        return Ok(());
    }
    dispose(engine, definition, object)
}
