//! Emissions that begin and end: what they hold, beside how far they have come.

ghost use Rattle.std.specs.Prelude.{◌≡◌, ℕ, ◌+◌, ◌≤◌, [], ◌∷◌, map};
ghost use Rattle.ui_machine.specs.Definition as machine;
ghost use Rattle.ui_machine.specs.Seq.{total};
ghost use Rattle.ui_machine.specs.State.References.{in_register, in_value, same};
ghost use Rattle.g_values.specs.View.{value_view};
ghost use Rattle.instance_tables.specs.Store.{count_of};
ghost use Rattle.engine_world.specs.Counting.{Counts, MayBeHeld, OnlyTasks};
ghost use Rattle.engine_stack.specs.HeldByTasks.{in_emitted};
ghost use Rattle.engine_world.specs.FirstEmissions.{IsEmission, first_emitted};
ghost use Rattle.engine_stack.specs.FirstEmissions.{emitted_of, emitting};
ghost use Rattle.engine_world.specs.FirstPrograms.{rest_of};
ghost use Rattle.engine_stack.specs.KnownHandlers.{EndsWithoutTransfers};
ghost use Rattle.engine_world.specs.Room.{HasRoom, SameRoom, TakesFrame};
ghost use Rattle.engine_world.specs.TaskView.{agenda_of};
ghost use Rattle.engine_stack.specs.TaskView.{emission_of};
ghost use Rattle.engine_world.specs.View.{world_of};

use crate::engine::Engine;
use crate::references::{hold_any, let_go_values, never_full};
use engine_stack::{EmissionFrame, Transfers};
use g_values::Value;
use signal_core::Cursor;

/// Puts an emission that goes on before the other tasks. The values that it is given stay held, and its object, which has to live, is held
/// from then on. The list of the values is empty afterwards.
pub fn push_emission(
    engine: &mut Engine,
    cursor: Cursor,
    values: &mut Vec<Value>,
    by_event: bool,
    transfers: Transfers,
)
    requires may { MayBeHeld engine.now cursor.object }
    requires begun { cursor.greatest ≤ engine.now.world.handlers.last }
    requires ends { EndsWithoutTransfers cursor transfers }
    requires room { HasRoom 1 engine.now }
    ensures agenda { (d : machine.Definition) → agenda_of d engine.new
        ≡ emitting (record { walk = cursor; args = values.old.items; by_event = by_event; transfers = transfers }) engine.old.world.handlers.handlers ∷ agenda_of d engine.old }
    ensures emptied { values.new.items ≡ [] }
    ensures world { world_of engine.new.world ≡ world_of engine.old.world }
    ensures same { engine.new.counted ≡ engine.old.counted }
    ensures handlers { engine.new.world.handlers ≡ engine.old.world.handlers }
    ensures counted { (d : machine.Definition) (taken : ℕ → ℕ)
        → Counts d (λ o. taken o + in_emitted o (emission_of cursor values.old.items by_event)) engine.old → Counts d taken engine.new }
    ensures room { TakesFrame engine.old engine.new }
{
    // For the proof: what lives may be held once more.
    never_full(engine);
    hold_any(&mut engine.world.table, Some(cursor.object()));
    engine
        .stack
        .push_emission(engine.alloc, cursor, values, by_event, transfers);
}

/// Takes the emission off that is the first task. Its arguments are let go and dropped. Its object and the value that it has accumulated
/// stay held.
pub fn drop_emission(engine: &mut Engine) -> EmissionFrame
    requires first { IsEmission engine.now }
    requires held { (o : ℕ) → total (in_value o) (map value_view (first_emitted engine.now).args) ≤ count_of engine.now.world.table.counts o }
    ensures ended { emitted_of result ≡ record (first_emitted engine.old) { args = [] } }
    ensures agenda { (d : machine.Definition) → agenda_of d engine.new ≡ rest_of d engine.old }
    ensures only { OnlyTasks engine.old engine.new }
    ensures counted { (d : machine.Definition) (taken : ℕ → ℕ) → Counts d taken engine.old
        → Counts d (λ o. taken o + (same o (first_emitted engine.old).walk.object + in_register o (first_emitted engine.old).walk.value)) engine.new }
    ensures room { SameRoom engine.old engine.new }
{
    let Some(emission) = engine.stack.first_emission() else {
        unreachable!()
    };
    let_go_values(&mut engine.world.table, emission.args.as_slice());
    engine.stack.drop_emission(engine.alloc)
}
