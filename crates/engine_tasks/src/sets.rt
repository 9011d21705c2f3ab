//! Sets of properties, and the notifications that they raise.

ghost use Rattle.std.specs.Prelude.{◌≡◌, ◌&&◌, Ok, not, string_bytes, true, OnOk, OnErr};
ghost use Rattle.ui_machine.specs.Rules.Sets.{setting, without_disposed, written, raising_if, notifies, lives, unless_disposed};
ghost use Rattle.ui_machine.specs.State.Objects.{class_in, changed, with_value};
ghost use Rattle.param_specs.specs.Validation.{KnowsClass};
ghost use Rattle.ui_machine.specs.Definition.Properties.{is_lax};
ghost use Rattle.ui_machine.specs.State.Config.{said, with_objects};
ghost use Rattle.ui_machine.specs.Output.Lines as lines;
ghost use Rattle.g_values.specs.View.{value_view};
ghost use Rattle.param_specs.specs.View.{spec_view};
ghost use Rattle.engine_world.specs.Able.{Able};
ghost use Rattle.engine_world.specs.Room.{HasRoom};
ghost use Rattle.engine_world.specs.View.{world_of, with_line};
ghost use Rattle.engine_world.specs.Counting.{IsCounted, KeepsCounts};
ghost use Rattle.engine_world.specs.Executions.{Acts, uncounted_step};

use definitions::Definition;
use engine_stack::Task;
use engine_world::engine::Engine;
use engine_world::lines::Line;
use engine_world::properties::spec_of;
use engine_world::references::{named, never_full, push_task};
use g_values::{Value, is_same};
use instance_tables::Table;
use param_specs::{Spec, validate};
use std::alloc::AllocError;
use ui_machine::{ObjectId, Slot};

// Returns whether a write of a property is notified.
fn notifies(spec: &Spec, old: &Value, new: &Value) -> bool
    ensures { result ≡ notifies (spec_view spec.now) (value_view old.now) (value_view new.now) }
{
    spec.is_readable() && (!spec.is_explicit_notify() || !is_same(old, new))
}

// Returns whether a set is refused, given whether validation changes the value.
fn refuses(spec: &Spec, is_changed: bool) -> bool
    ensures { result ≡ (is_changed && not (is_lax (spec_view spec.now))) }
{
    is_changed && !spec.is_lax()
}

// Returns a value with the class of the object that it names, which has to live.
fn with_own_class(table: &Table, value: Value) -> Value
    requires lives { lives table.now.objects (value_view value) ≡ true }
    ensures value { value_view result ≡ value_view value }
    ensures class { KnowsClass (class_in table.now.objects) result }
{
    let Some(id) = named(&value) else {
        return value;
    };
    Value::Object(table.class_of(id), Some(id))
}

// Returns a value, with null in place of a disposed object.
fn unless_disposed(table: &Table, value: Value) -> Value
    ensures { value_view result ≡ unless_disposed table.now.objects (value_view value) }
{
    let Value::Object(class, Some(id)) = &value else {
        return value;
    };
    let (class, id) = (*class, *id);
    if table.is_disposed(id) {
        return Value::Object(class, None);
    }
    value
}

// Returns the value that is written to a property: null in place of a disposed object if the property is weak, and otherwise the value as
// it is.
fn without_disposed(table: &Table, spec: &Spec, value: Value) -> Value
    ensures { value_view result ≡ without_disposed table.now.objects (spec_view spec.now) (value_view value) }
{
    if !spec.weak {
        return value;
    }
    unless_disposed(table, value)
}

// Says a line, and raises the notification of a property if `is_told` is set.
#[tactic(auto, unfolding(ui_machine::specs::Rules::Sets::raising))]
fn say_and_raise(
    engine: &mut Engine,
    definition: &Definition,
    object: ObjectId,
    slot: Slot,
    line: String,
    is_told: bool,
) -> Result<(), AllocError>
    requires able { Able (uncounted_step definition.now engine.now (λ w. raising_if is_told (with_line (string_bytes line) w) object.0 slot)) }
    requires counted { IsCounted definition.now engine.now }
    requires room { HasRoom 1 engine.now }
    ensures { Acts result definition.now engine.old engine.new
        (uncounted_step definition.now engine.old (λ w. raising_if is_told (with_line (string_bytes line) w) object.0 slot)) }
{
    if !is_told {
        engine.world.say(line)?;
        return Ok(());
    }
    if engine.world.table.add(object, slot)? {
        push_task(engine, Task::Notifying { object, slot });
        engine.world.say(line)?;
        return Ok(());
    }
    engine.world.say(line)?;
    Ok(())
}

// Writes a property, and returns its value from before.
fn write(
    engine: &mut Engine,
    definition: &Definition,
    object: ObjectId,
    slot: Slot,
    value: Value,
) -> Value
    requires able { Able (changed (world_of engine.now.world).objects object.0 (with_value slot (value_view value))) }
    requires lives { lives (world_of engine.now.world).objects (value_view value) ≡ true }
    requires counted { IsCounted definition.now engine.now }
    ensures changes { changed (world_of engine.old.world).objects object.0 (with_value slot (value_view value))
        ≡ Ok (record { state = (world_of engine.new.world).objects; answer = value_view result }) }
    ensures world { world_of engine.new.world ≡ with_objects (world_of engine.old.world) (world_of engine.new.world).objects }
    ensures same { (engine.new.stack ≡ engine.old.stack) × (engine.new.counted ≡ engine.old.counted) }
    ensures handlers { engine.new.world.handlers ≡ engine.old.world.handlers }
    ensures counted { KeepsCounts definition.now engine.old engine.new }
{
    // For the proof: what is written may be held once more.
    never_full(engine);
    let world = &mut engine.world;
    world.table.write(&world.weak, object, slot, value)
}

// Writes a value, says its line, and raises the notification if the write is notified.
#[tactic(auto, unfolding(ui_machine::specs::Rules::Sets::written))]
fn write_and_notify(
    engine: &mut Engine,
    definition: &Definition,
    object: ObjectId,
    slot: Slot,
    spec: &Spec,
    value: Value,
) -> Result<(), AllocError>
    requires able { Able (uncounted_step definition.now engine.now (λ w. written definition.now w object.0 slot (spec_view spec.now) (value_view value))) }
    requires lives { lives (world_of engine.now.world).objects (value_view value) ≡ true }
    requires counted { IsCounted definition.now engine.now }
    requires room { HasRoom 1 engine.now }
    ensures { Acts result definition.now engine.old engine.new
        (uncounted_step definition.now engine.old (λ w. written definition.now w object.0 slot (spec_view spec.now) (value_view value))) }
{
    let told = Line::Set {
        object,
        property: spec.name.as_str(),
        value: &value,
    };
    let line = told.text(engine.alloc, definition.types())?;
    let old = write(engine, definition, object, slot, value.copied()?);
    let is_told = notifies(spec, &old, &value);
    say_and_raise(engine, definition, object, slot, line, is_told)
}

// Says the line that a property refuses a value. The world is unchanged after an error.
fn refuse(
    engine: &mut Engine,
    definition: &Definition,
    object: ObjectId,
    name: &str,
    value: &Value,
) -> Result<(), AllocError>
    ensures ok { OnOk result (world_of engine.new.world ≡ said definition.now (world_of engine.old.world) (lines.refused object.0 name.now (value_view value.now))) }
    ensures err { OnErr result (world_of engine.new.world ≡ world_of engine.old.world) }
    ensures counted { OnOk result (KeepsCounts definition.now engine.old engine.new) }
    ensures same { (engine.new.stack ≡ engine.old.stack) × (engine.new.counted ≡ engine.old.counted) }
    ensures handlers { engine.new.world.handlers ≡ engine.old.world.handlers }
{
    let told = Line::Refused {
        object,
        property: name,
        value,
    };
    let line = told.text(engine.alloc, definition.types())?;
    engine.world.say(line)?;
    Ok(())
}

/// Validates a value and writes it to a property. If validation would change the value, the set is refused with a line, unless the property
/// is lax.
///
/// # Errors
///
/// `AllocError` if memory is refused.
pub fn validate_and_set(
    engine: &mut Engine,
    definition: &Definition,
    object: ObjectId,
    slot: Slot,
    value: Value,
) -> Result<(), AllocError>
    requires able { Able (uncounted_step definition.now engine.now (λ w. setting definition.now w object.0 slot (value_view value))) }
    requires counted { IsCounted definition.now engine.now }
    requires room { HasRoom 1 engine.now }
    ensures { Acts result definition.now engine.old engine.new
        (uncounted_step definition.now engine.old (λ w. setting definition.now w object.0 slot (value_view value))) }
{
    let spec = spec_of(engine, definition, object, slot);
    let known = with_own_class(&engine.world.table, value);
    let original = known.copied()?;
    let (valid, is_changed) = validate(definition.types(), spec, known);
    if refuses(spec, is_changed) {
        refuse(engine, definition, object, spec.name.as_str(), &original)?;
        return Ok(());
    }
    let without_disposed = without_disposed(&engine.world.table, spec, valid);
    write_and_notify(engine, definition, object, slot, spec, without_disposed)?;
    Ok(())
}
