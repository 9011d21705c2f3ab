//! The values that programs give: an emission collects them (GObject manual, Signals: GSignalAccumulator).

ghost use Rattle.std.specs.Prelude.{◌≡◌, ℕ, ◌+◌, ◌≤◌, None, Ok, Some, option_map};
ghost use Rattle.ui_machine.specs.Rules.Accumulation.{down_to_emission, given_down};
ghost use Rattle.ui_machine.specs.Definition as machine;
ghost use Rattle.ui_machine.specs.Rules.MainLoop.{kept_source};
ghost use Rattle.ui_machine.specs.State.References.{in_option, in_register};
ghost use Rattle.g_values.specs.View.{value_view};
ghost use Rattle.signal_core.specs.Emission.{accumulator_of};
ghost use Rattle.instance_tables.specs.Store.{count_of, id_of};
ghost use Rattle.engine_stack.specs.KnownHandlers.{AllTakeKnownHandlers};
ghost use Rattle.engine_world.specs.FirstEmissions.{IsEmission, first_emitted};
ghost use Rattle.engine_stack.specs.FirstEmissions.{EmitsKnown, IsReemitted, emission_view, entries_left, first_emission};
ghost use Rattle.engine_world.specs.FirstPrograms.{rest_of};
ghost use Rattle.engine_world.specs.Able.{Able};
ghost use Rattle.engine_world.specs.Quiet.{IsQuiet};
ghost use Rattle.engine_instructions.specs.CollectView.{collected_by, collects};
ghost use Rattle.engine_world.specs.Counting.{HoldsTasks, IsCounted, KeepsCounts, MayHold, OnlyTasks};
ghost use Rattle.engine_world.specs.SourceView.{HoldsSources};
ghost use Rattle.engine_world.specs.TaskView.{agenda_of};
ghost use Rattle.engine_world.specs.Room.{SameRoom};
ghost use Rattle.engine_world.specs.View.{world_of};

use definitions::Definition;
use engine_stack::Task;
use engine_world::engine::Engine;
use engine_world::references::{accumulated, hold_any, let_go_any, never_full};
use engine_world::sources::answer_source;
use g_values::Value;
use signal_core::{Accumulator, is_last};
use ui_machine::ObjectId;

// Returns the object that is named by what the emission that is the first task has collected, if it names one.
fn first_collected(engine: &Engine) -> Option<ObjectId>
    requires first { IsEmission engine.now }
    ensures { (o : ℕ) → in_option o (id_of result) ≡ in_register o (first_emitted engine.now).walk.value }
{
    let Some(emission) = engine.stack.first_emission() else {
        unreachable!()
    };
    accumulated(&emission.cursor)
}

// Has the emission that is the first task collect a program's value, by which the accumulator may stop it. The emission holds what the value
// names, and lets go what the value before it named.
fn collect(engine: &mut Engine, accumulator: Option<Accumulator>, value: Value)
    requires first { IsEmission engine.now }
    requires held { (o : ℕ) → in_register o (first_emitted engine.now).walk.value ≤ count_of engine.now.world.table.counts o }
    requires may { MayHold engine.now.world.table (λ o. in_register o (collects (option_map accumulator_of accumulator) (Some (value_view value)) (first_emitted engine.now).walk).value) }
    ensures emission { first_emitted engine.new ≡ collected_by (option_map accumulator_of accumulator) (Some (value_view value)) (first_emitted engine.old) }
    ensures emits { IsReemitted engine.old.stack engine.new.stack }
    ensures only { OnlyTasks engine.old engine.new }
    ensures counts { (o : ℕ) → count_of engine.new.world.table.counts o + in_register o (first_emitted engine.old).walk.value
        ≡ count_of engine.old.world.table.counts o + in_register o (first_emitted engine.new).walk.value }
    ensures room { SameRoom engine.old engine.new }
{
    let before = first_collected(engine);
    let is_last = is_last(accumulator, &value);
    engine.stack.collect(engine.alloc, value, is_last);
    let now = first_collected(engine);
    hold_any(&mut engine.world.table, now);
    let_go_any(&mut engine.world.table, before);
}

// Gives a program's value to the emission that is the first task, which may stop it.
fn accumulate(engine: &mut Engine, definition: &Definition, given: Option<Value>)
    requires first { IsEmission engine.now }
    requires able { Able (down_to_emission definition.now (world_of engine.now.world) (emission_view (first_emitted engine.now)) (entries_left (first_emitted engine.now) engine.now.world.handlers.handlers)
        (rest_of definition.now engine.now) (option_map value_view given)) }
    requires held { (o : ℕ) → in_register o (first_emitted engine.now).walk.value ≤ count_of engine.now.world.table.counts o }
    requires may { MayHold engine.now.world.table (λ o. in_register o (option_map value_view given)) }
    requires again { MayHold engine.now.world.table (λ o. in_register o (first_emitted engine.now).walk.value) }
    requires known { EmitsKnown engine.now.world.handlers.last (first_emitted engine.now) }
    ensures step { down_to_emission definition.now (world_of engine.old.world) (emission_view (first_emitted engine.old)) (entries_left (first_emitted engine.old) engine.old.world.handlers.handlers)
        (rest_of definition.now engine.old) (option_map value_view given)
        ≡ Ok (record { world = world_of engine.new.world; agenda = agenda_of definition.now engine.new }) }
    ensures only { OnlyTasks engine.old engine.new }
    ensures counted { KeepsCounts definition.now engine.old engine.new }
    ensures room { SameRoom engine.old engine.new }
{
    let Some(emission) = engine.stack.first_emission() else {
        unreachable!()
    };
    let object = emission.cursor.object();
    let number = emission.cursor.signal();
    let class = engine.world.table.class_of(object);
    let Some(signal) = definition.signal(class, number) else {
        unreachable!()
    };
    let Some(value) = given else {
        return;
    };
    collect(engine, signal.accumulator, value);
}

// Keeps or removes a source, as its program answered (GLib manual, GSourceFunc).
fn answer(engine: &mut Engine, source: u64, given: Option<Value>)
    requires able { Able (kept_source (world_of engine.now.world) source (option_map value_view given)) }
    requires held { HoldsSources engine.now }
    ensures kept { kept_source (world_of engine.old.world) source (option_map value_view given) ≡ Ok (world_of engine.new.world) }
    ensures quiet { IsQuiet (world_of engine.old.world) (world_of engine.new.world) }
    ensures same { (engine.new.stack ≡ engine.old.stack) × (engine.new.counted ≡ engine.old.counted) }
    ensures handlers { engine.new.world.handlers ≡ engine.old.world.handlers }
    ensures counted { (d : machine.Definition) → KeepsCounts d engine.old engine.new }
{
    let Some(Value::Bool(keep)) = given else {
        unreachable!()
    };
    answer_source(engine, source, keep);
}

// Gives a program's value to the first task, which is no emission. A source stays or goes by it, and any other task takes nothing.
fn give_other(engine: &mut Engine, definition: &Definition, given: Option<Value>)
    requires none { first_emission engine.now.stack.tasks.items ≡ None }
    requires able { Able (given_down definition.now (world_of engine.now.world) (agenda_of definition.now engine.now) (option_map value_view given)) }
    requires sources { HoldsSources engine.now }
    ensures step { given_down definition.now (world_of engine.old.world) (agenda_of definition.now engine.old) (option_map value_view given)
        ≡ Ok (record { world = world_of engine.new.world; agenda = agenda_of definition.now engine.new }) }
    ensures quiet { IsQuiet (world_of engine.old.world) (world_of engine.new.world) }
    ensures same { engine.new.counted ≡ engine.old.counted }
    ensures counted { KeepsCounts definition.now engine.old engine.new }
    ensures room { SameRoom engine.old engine.new }
{
    let Some(task) = engine.stack.first() else {
        return;
    };
    let Task::Answering { source } = task else {
        return;
    };
    let source = *source;
    engine.stack.pop_task();
    answer(engine, source, given);
}

/// Gives a program's value to the task below the program. An emission collects it, a source stays or goes by it, and any other task takes
/// nothing.
pub(crate) fn give_down(engine: &mut Engine, definition: &Definition, given: Option<Value>)
    requires able { Able (given_down definition.now (world_of engine.now.world) (agenda_of definition.now engine.now) (option_map value_view given)) }
    requires held { HoldsTasks definition.now engine.now }
    requires may { MayHold engine.now.world.table (λ o. in_register o (option_map value_view given)) }
    requires counted { IsCounted definition.now engine.now }
    requires sources { HoldsSources engine.now }
    requires begun { AllTakeKnownHandlers engine.now.world.handlers.last engine.now.stack }
    ensures step { given_down definition.now (world_of engine.old.world) (agenda_of definition.now engine.old) (option_map value_view given)
        ≡ Ok (record { world = world_of engine.new.world; agenda = agenda_of definition.now engine.new }) }
    ensures quiet { IsQuiet (world_of engine.old.world) (world_of engine.new.world) }
    ensures same { engine.new.counted ≡ engine.old.counted }
    ensures counted { KeepsCounts definition.now engine.old engine.new }
    ensures room { SameRoom engine.old engine.new }
{
    // For the proof: what an emission has collected lives, and may be held once more.
    never_full(engine);
    if engine.stack.first_emission().is_none() {
        give_other(engine, definition, given);
        return;
    }
    accumulate(engine, definition, given);
}
