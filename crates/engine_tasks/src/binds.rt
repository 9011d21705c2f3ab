//! The bindings of the definition, which are made once all objects are there (GTK manual, GtkBuilder: the attribute `bind-source`).

ghost use Rattle.std.specs.Prelude.{◌≡◌, ◌<◌, ◌≤◌, ◌+◌, ◌||◌, ◌++◌, ℕ, Ok, false, option_map, string_bytes, IfOk, OnOk};
ghost use Rattle.ui_machine.specs.Definition as machine;
ghost use Rattle.ui_machine.specs.Rules.Build.{building, first_transfer, is_connecting, new_binding, with_binding};
ghost use Rattle.ui_machine.specs.Rules.Connections.{greatest_handler};
ghost use Rattle.ui_machine.specs.Seq.{total};
ghost use Rattle.ui_machine.specs.Rules.Sets.{is_disposed};
ghost use Rattle.ui_machine.specs.State.Objects.{living};
ghost use Rattle.bindings.specs.Made.{binding_of};
ghost use Rattle.definition_format.specs.Meaning.{bind_view};
ghost use Rattle.engine_world.specs.Counting.{Connects, KeepsCounts};
ghost use Rattle.engine_world.specs.Able.{Able};
ghost use Rattle.engine_world.specs.Quiet.{IsQuiet};
ghost use Rattle.engine_world.specs.TaskView.{agenda_of};
ghost use Rattle.engine_stack.specs.TaskView.{binds_from, connects_from};
ghost use Rattle.engine_world.specs.Room.{HasRoom, SameRoom};
ghost use Rattle.engine_world.specs.View.{world_of};
ghost use Rattle.engine_tasks.specs.BindView.{ends_at, ends_of};
ghost use Rattle.engine_world.specs.Executions.{Acts, uncounted_step};

use crate::signals::connect_from_build;
use bindings::{BindError, Binding, BindingFlags};
use bitflags::Flags;
use definition_format::Bind;
use definitions::Definition;
use engine_stack::Task;
use engine_world::engine::Engine;
use engine_world::given::held_object;
use engine_world::places::FIRST_PLACE;
use engine_world::references::push_task;
use instance_tables::Table;
use std::alloc::{AllocError, Global};
use ui_machine::ObjectId;

/// The two objects of a binding.
#[derive(Clone, Copy, Debug)]
struct Ends {
    source: ObjectId,
    target: ObjectId,
}

// Returns the objects that the builder holds for a binding of the definition.
fn ends_of(engine: &Engine, bind: &Bind) -> Ends
    requires able { Able (ends_at (world_of engine.now.world) (bind_view bind.now)) }
    ensures { ends_at (world_of engine.now.world) (bind_view bind.now) ≡ Ok (ends_of result) }
{
    let source = held_object(engine, bind.source);
    let target = held_object(engine, bind.target);
    Ends { source, target }
}

// Returns whether one of the two objects is disposed.
fn is_any_disposed(table: &Table, ends: Ends) -> bool
    ensures { result ≡ (is_disposed (living table.now.objects ends.source.0) || is_disposed (living table.now.objects ends.target.0)) }
{
    table.is_disposed(ends.source) || table.is_disposed(ends.target)
}

// Returns a copy of a name, if there is one.
fn copied_name(alloc: Global, name: &Option<String>) -> Result<Option<String>, AllocError>
    ensures { IfOk result (λ copy. option_map (λ text. string_bytes text) copy ≡ option_map (λ text. string_bytes text) name.now) }
{
    let Some(name) = name else {
        return Ok(None);
    };
    let copy = String::from_str(alloc, name.as_str())?;
    Ok(Some(copy))
}

// Returns the binding that the definition describes, between these objects.
fn new_binding(alloc: Global, bind: &Bind, ends: Ends) -> Result<Binding, AllocError>
    ensures { IfOk result (λ b. (number : ℕ) → binding_of number false b ≡ new_binding number (bind_view bind.now) ends.source.0 ends.target.0) }
{
    let name = copied_name(alloc, &bind.name)?;
    Ok(Binding {
        name,
        source: ends.source,
        source_slot: bind.source_slot,
        target: ends.target,
        target_slot: bind.target_slot,
        flags: bind.flags,
    })
}

// Makes the binding set its target at once, if it has SYNC_CREATE.
fn push_first_transfer(engine: &mut Engine, number: usize, bind: &Bind)
    requires room { HasRoom 1 engine.now }
    ensures agenda { (d : machine.Definition) → agenda_of d engine.new ≡ first_transfer number (bind_view bind.now) ++ agenda_of d engine.old }
    ensures world { world_of engine.new.world ≡ world_of engine.old.world }
    ensures same { engine.new.counted ≡ engine.old.counted }
    ensures counted { (d : machine.Definition) → KeepsCounts d engine.old engine.new }
    ensures room { SameRoom engine.old engine.new }
{
    if !bind.flags.contains(BindingFlags::SYNC_CREATE) {
        return;
    }
    push_task(
        engine,
        Task::Transferring {
            number: number as u64,
            back: false,
        },
    );
}

// Makes a binding of the definition, under its number there.
fn bind(
    engine: &mut Engine,
    definition: &Definition,
    number: usize,
    bind: &Bind,
    ends: Ends,
) -> Result<(), AllocError>
    requires few { number < usize.MAX }
    ensures world { OnOk result (world_of engine.new.world ≡ with_binding (world_of engine.old.world) (new_binding number (bind_view bind.now) ends.source.0 ends.target.0)) }
    ensures quiet { IsQuiet (world_of engine.old.world) (world_of engine.new.world) }
    ensures same { (engine.new.stack ≡ engine.old.stack) × (engine.new.counted ≡ engine.old.counted) }
    ensures handlers { engine.new.world.handlers ≡ engine.old.world.handlers }
    ensures counted { KeepsCounts definition.now engine.old engine.new }
{
    let binding = new_binding(engine.alloc, bind, ends)?;
    match engine.world.bindings.bind_as(number as u64, binding) {
        Ok(()) => return Ok(()),
        Err(BindError::OutOfMemory) => return Err(AllocError),
        Err(BindError::BindingLimit) => unreachable!(),
    }
}

/// Makes the next binding of the definition, unless one of its objects is disposed, or connects the first signal if no binding is left.
/// Handler numbers have to be left for all signals.
///
/// # Errors
///
/// `AllocError` if memory is refused.
#[tactic(auto, unfolding(ui_machine::specs::Rules::Build::building_binding))]
pub fn bind_from_build(
    engine: &mut Engine,
    definition: &Definition,
    number: usize,
) -> Result<(), AllocError>
    requires able { Able (uncounted_step definition.now engine.now (λ w. building definition.now w (binds_from definition.now number))) }
    requires connects { Connects definition.now engine.now }
    requires numbers { (world_of engine.now.world).last_handler + total is_connecting (connects_from definition.now 0 0) ≤ greatest_handler }
    requires room { HasRoom 2 engine.now }
    ensures { Acts result definition.now engine.old engine.new
        (uncounted_step definition.now engine.old (λ w. building definition.now w (binds_from definition.now number))) }
{
    if number >= definition.binding_count() {
        return connect_from_build(engine, definition, FIRST_PLACE, 0);
    }
    let Some(meant) = definition.binding(number) else {
        unreachable!()
    };
    let ends = ends_of(engine, meant);
    let is_late = is_any_disposed(&engine.world.table, ends);
    push_task(engine, Task::Binding { number: number + 1 });
    if is_late {
        return Ok(());
    }
    push_first_transfer(engine, number, meant);
    bind(engine, definition, number, meant, ends)?;
    Ok(())
}
