//! Transfers of bindings, which set the value of a property at another property (GObject manual, GBinding).

ghost use Rattle.std.specs.Prelude.{◌≡◌, Ok, option_map, IfOk, IsSome};
ghost use Rattle.ui_machine.specs.Rules.Transfers.{set_by, transferring, unsetting};
ghost use Rattle.ui_machine.specs.Steps.{counted};
ghost use Rattle.ui_machine.specs.State.Objects.{living};
ghost use Rattle.g_values.specs.View.{value_view};
ghost use Rattle.engine_world.specs.Counting.{IsCounted};
ghost use Rattle.engine_world.specs.Able.{Able};
ghost use Rattle.engine_world.specs.Room.{HasRoom};
ghost use Rattle.engine_world.specs.View.{world_of};
ghost use Rattle.engine_tasks.specs.TransferSteps.{carried_value, to_end};
ghost use Rattle.engine_world.specs.Executions.{Acts, counted_step, uncounted_step};

use bindings::Transfer;
use definitions::Definition;
use engine_stack::Task;
use engine_world::counted_steps::count;
use engine_world::engine::Engine;
use engine_world::properties::spec_of;
use engine_world::references::push_task;
use engine_world::transformations::{inverted, transformed};
use g_values::Value;
use std::alloc::AllocError;

// Returns the value that a transfer sets: the value of its source, transformed, and inverted if the binding says so. Returns None if the
// transformation fails.
fn carried_value(
    engine: &Engine,
    definition: &Definition,
    transfer: Transfer,
) -> Result<Option<Value>, AllocError>
    requires able { Able (carried_value definition.now (world_of engine.now.world) transfer) }
    ensures { IfOk result (λ value. carried_value definition.now (world_of engine.now.world) transfer ≡ Ok (option_map value_view value)) }
{
    // For the proof: what is known of a definition's types.
    let types = definition.types();
    let from = spec_of(engine, definition, transfer.source, transfer.source_slot);
    let to = spec_of(engine, definition, transfer.target, transfer.target_slot);
    let table = &engine.world.table;
    let value = table.read(transfer.source, transfer.source_slot);
    let value = transformed(engine.alloc, types, from.kind, to.kind, value)?;
    Ok(inverted(transfer.invert, value))
}

// Sets the value at the target. The binding sets until all that this raises has ended. Without a value nothing is set.
fn set_by(engine: &mut Engine, definition: &Definition, transfer: Transfer, value: Option<Value>)
    requires able { Able (uncounted_step definition.now engine.now (λ w. set_by w transfer.number (to_end transfer) (option_map value_view value))) }
    requires live { IsSome (living engine.now.world.table.objects transfer.target.0) }
    requires counted { IsCounted definition.now engine.now }
    requires room { HasRoom 2 engine.now }
    ensures { Acts (Ok result) definition.now engine.old engine.new
        (uncounted_step definition.now engine.old (λ w. set_by w transfer.number (to_end transfer) (option_map value_view value))) }
{
    let Some(value) = value else {
        return;
    };
    engine.world.bindings.setting(transfer.number, true);
    push_task(
        engine,
        Task::Unsetting {
            number: transfer.number,
        },
    );
    push_task(
        engine,
        Task::Setting {
            object: transfer.target,
            slot: transfer.target_slot,
            value,
        },
    );
}

/// Makes a due transfer, as a counted step. A binding that has ended makes none.
///
/// # Errors
///
/// `AllocError` if memory is refused.
pub fn transfer(
    engine: &mut Engine,
    definition: &Definition,
    number: u64,
    back: bool,
) -> Result<(), AllocError>
    requires able { Able (counted_step definition.now engine.now (λ w. transferring definition.now w number back)) }
    requires counted { IsCounted definition.now engine.now }
    requires room { HasRoom 2 engine.now }
    ensures { Acts result definition.now engine.old engine.new
        (counted_step definition.now engine.old (λ w. transferring definition.now w number back)) }
{
    count(engine);
    let Some(transfer) = engine.world.bindings.transfer(number, back) else {
        return Ok(());
    };
    let value = carried_value(engine, definition, transfer)?;
    set_by(engine, definition, transfer, value);
    Ok(())
}

/// Marks a binding as no longer setting, since what it set has ended.
pub fn unset(engine: &mut Engine, definition: &Definition, number: u64)
    ensures { Acts (Ok result) definition.now engine.old engine.new
        (uncounted_step definition.now engine.old (λ w. unsetting w number)) }
{
    engine.world.bindings.setting(number, false);
}
