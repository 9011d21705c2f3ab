//! Turns of the main loop (GLib manual, `g_main_context_iteration`).

ghost use Rattle.std.specs.Prelude.{◌≡◌, ◌<◌, ◌↔◌, IfOk, OnErr};
ghost use Rattle.ui_machine.specs.Prefix.{IsPrefix};
ghost use Rattle.engine_world.specs.Quiet.{IsQuiet};
ghost use Rattle.engine_world.specs.Room.{SameRoom};
ghost use Rattle.engine_world.specs.View.{world_of};
ghost use Rattle.engine_dispatches.specs.Dispatched.{IsAtRest};
ghost use Rattle.engine_dispatches.specs.TurnView.{TurnBegins};

use definitions::Definition;
use engine_world::engine::Engine;
use engine_world::lines::Line;
use main_context::{Batch, TurnError};

/// Begins a turn at a moment, says its line, and returns the sources that are to run.
///
/// # Errors
///
/// Returns `ClockBack` if the moment is before the latest one, and changes nothing then. After that test, `OutOfMemory` if memory is
/// refused.
pub fn begin_turn(
    engine: &mut Engine,
    definition: &Definition,
    moment: u64,
) -> Result<Batch, TurnError>
    requires rests { IsAtRest definition.now engine.now }
    ensures rests { IsAtRest definition.now engine.new }
    ensures begins { IfOk result (λ batch. TurnBegins definition.now moment (world_of engine.old.world) batch (world_of engine.new.world)) }
    ensures clock_back { (result ≡ Err TurnError.ClockBack) ↔ (moment < (world_of engine.old.world).moment) }
    ensures back { result ≡ Err TurnError.ClockBack → engine.new ≡ engine.old }
    ensures quiet { OnErr result (IsQuiet (world_of engine.old.world) (world_of engine.new.world)) }
    ensures grows { IsPrefix (world_of engine.old.world).transcript (world_of engine.new.world).transcript }
    ensures room { SameRoom engine.old engine.new }
{
    let batch = engine.world.context.iteration(moment)?;
    let line = Line::Turn { moment }.text(engine.alloc, definition.types())?;
    engine.world.say(line)?;
    engine.world.result = None;
    Ok(batch)
}
