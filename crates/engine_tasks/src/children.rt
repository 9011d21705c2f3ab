//! The adoption of objects by their parents as the build makes them.

ghost use Rattle.std.specs.Prelude.{◌≡◌, Ok, suc};
ghost use Rattle.ui_machine.specs.Rules.Build.{building_child};
ghost use Rattle.engine_world.specs.Able.{Able};
ghost use Rattle.engine_world.specs.Room.{HasRoom};
ghost use Rattle.engine_world.specs.View.{world_of};
ghost use Rattle.engine_world.specs.KinView.{kin_of, kin_at};
ghost use Rattle.engine_stack.specs.TaskView.{build_from};
ghost use Rattle.engine_world.specs.Counting.{IsCounted};
ghost use Rattle.engine_world.specs.Executions.{Acts, uncounted_step};

use definitions::Definition;
use engine_stack::{ForwardReferences, Task};
use engine_world::children::{Kin, join};
use engine_world::engine::Engine;
use engine_world::given::held_object;
use engine_world::places::{entry_at, next_place};
use engine_world::references::push_task;
use std::alloc::AllocError;
use ui_machine::Place;

// Returns the objects that the builder holds at a place and at the place of its parent.
fn kin_at(engine: &Engine, definition: &Definition, place: Place) -> Kin
    requires able { Able (kin_at definition.now (world_of engine.now.world) place.0) }
    ensures { kin_at definition.now (world_of engine.now.world) place.0 ≡ Ok (kin_of result) }
{
    let Some(entry) = entry_at(definition, place) else {
        unreachable!()
    };
    let Some(above) = entry.parent else {
        unreachable!()
    };
    let parent = held_object(engine, above);
    let child = held_object(engine, place);
    Kin { parent, child }
}

/// Makes the object at a place the child of its parent, and then goes on with the build behind it.
///
/// # Errors
///
/// `AllocError` if memory is refused.
pub fn adopt_from_build(
    engine: &mut Engine,
    definition: &Definition,
    place: Place,
    forwards: ForwardReferences,
) -> Result<(), AllocError>
    requires able { Able (uncounted_step definition.now engine.now (λ w. building_child definition.now w place.0 (build_from definition.now (suc place.0) forwards))) }
    requires counted { IsCounted definition.now engine.now }
    requires room { HasRoom 1 engine.now }
    ensures { Acts result definition.now engine.old engine.new
        (uncounted_step definition.now engine.old (λ w. building_child definition.now w place.0 (build_from definition.now (suc place.0) forwards))) }
{
    // For the proof: what is known of a definition's places.
    let _types = definition.types();
    let kin = kin_at(engine, definition, place);
    push_task(
        engine,
        Task::Building {
            place: next_place(definition, place),
            forwards,
        },
    );
    join(engine, definition, kin)
}
