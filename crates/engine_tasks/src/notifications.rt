//! The beginning of a notification, and the notifications of a thaw.

ghost use Rattle.std.specs.Prelude.{IfOk, IsSome, ◌≡◌, Ok, map};
ghost use Rattle.ui_machine.specs.Rules.EmissionPlan.{notifying};
ghost use Rattle.ui_machine.specs.Steps.{counted};
ghost use Rattle.ui_machine.specs.Rules.NotifyQueue.{thawing};
ghost use Rattle.ui_machine.specs.State.Bindings.{transfers};
ghost use Rattle.ui_machine.specs.State.Objects.{living};
ghost use Rattle.bindings.specs.Due.{entry_of};
ghost use Rattle.engine_world.specs.Able.{Able};
ghost use Rattle.engine_world.specs.Room.{HasRoom};
ghost use Rattle.engine_world.specs.Counting.{IsCounted};
ghost use Rattle.engine_world.specs.Executions.{Acts, counted_step, uncounted_step};

use crate::emission::start_emission;
use bindings::DueTransfers;
use definitions::Definition;
use engine_stack::{Slots, Task, Transfers};
use engine_world::counted_steps::count;
use engine_world::engine::Engine;
use engine_world::lines::Line;
use engine_world::references::push_task;
use std::alloc::AllocError;
use ui_machine::{ObjectId, SignalId, Slot};

// The number of the signal `notify`.
const NOTIFY: SignalId = 0;

// Returns the transfers of the bindings that listen at a property.
fn due_transfers(
    engine: &mut Engine,
    object: ObjectId,
    slot: Slot,
) -> Result<DueTransfers, AllocError>
    ensures due { IfOk result (λ due. map entry_of due ≡ transfers object.0 slot engine.old.world.bindings.bindings) }
    ensures same { engine.new ≡ engine.old }
{
    engine.world.bindings.due(engine.alloc, object, slot)
}

// Begins a due notification with these transfers, as a counted step, and says its line.
#[tactic(auto, unfolding(ui_machine::specs::Rules::EmissionPlan::notifying))]
fn notify_with(
    engine: &mut Engine,
    definition: &Definition,
    object: ObjectId,
    slot: Slot,
    due: DueTransfers,
) -> Result<(), AllocError>
    requires due { map entry_of due ≡ transfers object.0 slot engine.now.world.bindings.bindings }
    requires able { Able (counted_step definition.now engine.now (λ w. notifying definition.now w object.0 slot)) }
    requires counted { IsCounted definition.now engine.now }
    requires room { HasRoom 1 engine.now }
    ensures { Acts result definition.now engine.old engine.new
        (counted_step definition.now engine.old (λ w. notifying definition.now w object.0 slot)) }
{
    // For the proof: what is known of the numbers of handlers.
    let _last = engine.world.handlers.last();
    count(engine);
    let class = engine.world.table.class_of(object);
    let Some(spec) = definition.spec(class, slot) else {
        unreachable!()
    };
    let name = spec.name.clone()?;
    let Some(emission) = engine
        .links
        .emission(definition, class, object, NOTIFY, Some(name))
    else {
        unreachable!()
    };
    let told = Line::Notify {
        object,
        property: spec.name.as_str(),
    };
    let line = told.text(engine.alloc, definition.types())?;
    let args = engine.spare_args.take(engine.alloc);
    start_emission(engine, emission, args, false, Transfers::Ahead(due), line)?;
    Ok(())
}

/// Begins a due notification with the transfers of the bindings that listen at the property. It is a counted step, and a line reports it.
///
/// # Errors
///
/// `AllocError` if memory is refused.
pub fn notify(
    engine: &mut Engine,
    definition: &Definition,
    object: ObjectId,
    slot: Slot,
) -> Result<(), AllocError>
    requires able { Able (counted_step definition.now engine.now (λ w. notifying definition.now w object.0 slot)) }
    requires counted { IsCounted definition.now engine.now }
    requires room { HasRoom 1 engine.now }
    ensures { Acts result definition.now engine.old engine.new
        (counted_step definition.now engine.old (λ w. notifying definition.now w object.0 slot)) }
{
    let due = due_transfers(engine, object, slot)?;
    notify_with(engine, definition, object, slot, due)
}

/// Makes the next of the notifications that are left of a thaw due. Does nothing if none is left.
pub fn notify_thawed(
    engine: &mut Engine,
    definition: &Definition,
    object: ObjectId,
    mut slots: Slots,
)
    requires able { Able (uncounted_step definition.now engine.now (λ w. thawing w object.0 slots)) }
    requires live { IsSome (living engine.now.world.table.objects object.0) }
    requires counted { IsCounted definition.now engine.now }
    requires room { HasRoom 2 engine.now }
    ensures { Acts (Ok result) definition.now engine.old engine.new
        (uncounted_step definition.now engine.old (λ w. thawing w object.0 slots)) }
{
    let Some(slot) = slots.take() else {
        return;
    };
    push_task(engine, Task::Thawing { object, slots });
    push_task(engine, Task::Notifying { object, slot });
}
