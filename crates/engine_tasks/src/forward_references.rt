//! Forward references, which give an object to a property before the object is built. They are set once all objects are made.

ghost use Rattle.std.specs.Prelude.{◌≡◌, ◌≤◌, ◌+◌, ◌++◌, map, OnOk, IfOk};
ghost use Rattle.std.specs.List.{flat_map};
ghost use Rattle.ui_machine.specs.Rules.Build.{building, forward_of, forward_items, is_connecting};
ghost use Rattle.ui_machine.specs.Rules.Connections.{greatest_handler};
ghost use Rattle.ui_machine.specs.Seq.{total};
ghost use Rattle.definition_format.specs.Meaning.{given_property, object_count};
ghost use Rattle.engine_world.specs.Able.{Able, LeadsToLiving};
ghost use Rattle.engine_world.specs.Room.{HasRoom};
ghost use Rattle.engine_world.specs.View.{world_of};
ghost use Rattle.engine_stack.specs.TaskView.{connects_from, item_of, items_of, forwards_at, build_end};
ghost use Rattle.engine_world.specs.Counting.{Connects, IsCounted};
ghost use Rattle.engine_world.specs.Executions.{Acts, uncounted_step};

use crate::binds::bind_from_build;
use definition_format::{Given, GivenValue};
use definitions::Definition;
use engine_stack::{ForwardReference, ForwardReferences, Task};
use engine_world::engine::Engine;
use engine_world::given::{held_object, held_value};
use engine_world::places::{entry_at, place_numbered};
use engine_world::references::push_task;
use std::alloc::{AllocError, Global};
use ui_machine::Place;

// Puts what an entry gives before these references, if it is a forward reference.
fn add_forward(
    forwards: &mut Vec<ForwardReference>,
    object: Place,
    entry: &GivenValue,
) -> Result<(), AllocError>
    ensures { OnOk result (items_of forwards.new.items ≡ forward_of object.0 (given_property entry.now) ++ items_of forwards.old.items) }
{
    let Given::Object(to) = &entry.given else {
        return Ok(());
    };
    if object.0 > to.0 {
        return Ok(());
    }
    forwards.push(ForwardReference {
        object,
        slot: entry.slot,
        to: *to,
    })?;
    Ok(())
}

// Puts the forward references of an object before these references, in the given order.
fn add_forwards(
    forwards: &mut Vec<ForwardReference>,
    object: Place,
    given: &[GivenValue],
) -> Result<(), AllocError>
    ensures { OnOk result (items_of forwards.new.items ≡ flat_map (forward_of object.0) (map given_property given.now) ++ items_of forwards.old.items) }
{
    let mut left = given.len();
    'entries: while left > 0 {
        left -= 1;
        add_forward(forwards, object, &given[left])?;
    }
    Ok(())
}

// Adds the forward references of the object at a place of the definition like `add_forwards`.
fn add_forwards_of(
    forwards: &mut Vec<ForwardReference>,
    definition: &Definition,
    place: Place,
) -> Result<(), AllocError>
    ensures { OnOk result (items_of forwards.new.items ≡ forwards_at definition.now place.0 ++ items_of forwards.old.items) }
{
    let Some(entry) = entry_at(definition, place) else {
        return Ok(());
    };
    add_forwards(forwards, place, entry.given)
}

/// Returns the forward references of a definition's objects, in document order.
///
/// # Errors
///
/// `AllocError` if memory is refused.
pub fn forward_references(
    alloc: Global,
    definition: &Definition,
) -> Result<ForwardReferences, AllocError>
    ensures { IfOk result (λ forwards. map item_of forwards ≡ forward_items 0 definition.now.places) }
{
    // For the proof: what is known of a definition's types.
    let _types = definition.types();
    let mut forwards = Vec::new(alloc);
    let mut left = definition.object_count();
    'places: while left > 0 {
        left -= 1;
        add_forwards_of(&mut forwards, definition, place_numbered(definition, left))?;
    }
    Ok(ForwardReferences::new(forwards))
}

/// Sets the next forward reference once all objects are made, or makes the first binding if none is left.
#[tactic(auto, unfolding(ui_machine::specs::Rules::Build::building_forward, ui_machine::specs::Rules::Build::set_forward))]
pub(crate) fn set_forward_reference(
    engine: &mut Engine,
    definition: &Definition,
    place: Place,
    mut forwards: ForwardReferences,
) -> Result<(), AllocError>
    requires able { Able (uncounted_step definition.now engine.now (λ w. building definition.now w (build_end definition.now forwards))) }
    requires names { LeadsToLiving (uncounted_step definition.now engine.now (λ w. building definition.now w (build_end definition.now forwards))) }
    requires counted { IsCounted definition.now engine.now }
    requires past { object_count definition.now ≤ place.0 }
    requires connects { Connects definition.now engine.now }
    requires numbers { (world_of engine.now.world).last_handler + total is_connecting (connects_from definition.now 0 0) ≤ greatest_handler }
    requires room { HasRoom 2 engine.now }
    ensures { Acts result definition.now engine.old engine.new
        (uncounted_step definition.now engine.old (λ w. building definition.now w (build_end definition.now forwards))) }
{
    // For the proof: what is known of a definition's places.
    let _types = definition.types();
    let Some(forward) = forwards.take() else {
        return bind_from_build(engine, definition, 0);
    };
    let object = held_object(engine, forward.object);
    let value = held_value(engine, forward.to);
    push_task(engine, Task::Building { place, forwards });
    push_task(
        engine,
        Task::Setting {
            object,
            slot: forward.slot,
            value,
        },
    );
    Ok(())
}
