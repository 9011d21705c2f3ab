//! Finalisation: an object that nothing holds is disposed and taken out before anything else is done.

ghost use Rattle.std.specs.Prelude.{◌≡◌, ◌<◌, List, map, suc, IsSome, OnOk, OnErr};
ghost use Rattle.ui_machine.specs.Prefix.{IsPrefix};
ghost use Rattle.ui_machine.specs.State.Objects.{living};
ghost use Rattle.ui_machine.specs.State.Tasks.{Task};
ghost use Rattle.ui_machine.specs.Steps.{counted, finalising, most_steps};
ghost use Rattle.instance_tables.specs.Store.{count_of};
ghost use Rattle.instance_tables.specs.Weak.{Knows};
ghost use Rattle.machine_laws.specs.GoneLaws.{pruned};
ghost use Rattle.engine_world.specs.ClosingView.{closed_with, or_number};
ghost use Rattle.engine_world.specs.Able.{Able, Leads};
ghost use Rattle.engine_world.specs.Quiet.{IsQuiet};
ghost use Rattle.engine_world.specs.Room.{SameRoom};
ghost use Rattle.engine_world.specs.View.{world_of};
ghost use Rattle.engine_world.specs.TaskView.{agenda_of};
ghost use Rattle.engine_world.specs.Counting.{KeepsCounts};
ghost use Rattle.engine_world.specs.Standing.{gone_handlers};
ghost use Rattle.engine_world.specs.Executions.{counted_step};

use definitions::Definition;
use engine_world::closings::{closing_with, dispose_line, say_and_close};
use engine_world::counted_steps::count;
use engine_world::engine::Engine;
use engine_world::lines::Line;
use std::alloc::AllocError;
use ui_machine::ObjectId;

/// Finalises an object that nothing holds, as a counted step. The object is disposed, once more if it was before, and taken out. Its peer
/// is closed, if it has an open one. Its handlers are disconnected and have no more turns in the emissions that are under way, and its
/// bindings end.
///
/// # Errors
///
/// `AllocError` if memory is refused.
pub fn finalise(
    engine: &mut Engine,
    definition: &Definition,
    object: ObjectId,
) -> Result<(), AllocError>
    requires able { Able (counted_step definition.now engine.now (λ w. finalising definition.now w object.0)) }
    requires live { IsSome (living engine.now.world.table.objects object.0) }
    requires unheld { count_of engine.now.world.table.counts object.0 ≡ 0 }
    requires knows { Knows definition.now engine.now.world.weak }
    ensures step { (rest : List Task) → Leads result
        (counted rest engine.old.counted (finalising definition.now (world_of engine.old.world) object.0))
        (record { world = world_of engine.new.world; agenda = rest; counted = engine.new.counted }) }
    ensures agenda { OnOk result (agenda_of definition.now engine.new ≡ map (pruned (gone_handlers (world_of engine.new.world))) (agenda_of definition.now engine.old)) }
    ensures quiet { OnErr result (IsQuiet (world_of engine.old.world) (world_of engine.new.world)) }
    ensures counts { OnOk result ((engine.old.counted < most_steps) × (engine.new.counted ≡ suc engine.old.counted)) }
    ensures same { OnOk result ((engine.new.stack ≡ engine.old.stack) × (engine.new.world.table.floating ≡ engine.old.world.table.floating)) }
    ensures closing { OnOk result (engine.new.closing ≡ or_number (closed_with (world_of engine.old.world) object.0) engine.old.closing) }
    ensures grows { OnOk result (IsPrefix (world_of engine.old.world).transcript (world_of engine.new.world).transcript) }
    ensures counted { OnOk result (KeepsCounts definition.now engine.old engine.new) }
    ensures room { SameRoom engine.old engine.new }
{
    count(engine);
    let disposed = dispose_line(engine, definition, object)?;
    let closed = closing_with(engine, definition, object)?;
    let finalised = Line::Final { object }.text(engine.alloc, definition.types())?;
    // For the proof: what is known of the numbers of handlers.
    let _last = engine.world.handlers.last();
    engine.world.table.finalise(&engine.world.weak, object);
    engine.world.handlers.disconnect_object(object);
    engine.world.bindings.end_of(object);
    say_and_close(engine, disposed, closed, Some(finalised))?;
    Ok(())
}
