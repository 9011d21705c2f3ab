//! The specs of the properties of living objects.

ghost use Rattle.std.specs.Prelude.{◌≡◌, Ok};
ghost use Rattle.ui_machine.specs.Rules.Sets.{spec_at};
ghost use Rattle.param_specs.specs.View.{spec_view};
ghost use Rattle.definition_format.specs.Meaning.{IsPlain};
ghost use Rattle.engine_world.specs.View.{world_of};
ghost use Rattle.engine_world.specs.Able.{Able};

use crate::engine::Engine;
use definitions::Definition;
use param_specs::Spec;
use ui_machine::{ObjectId, Slot};

/// Returns the spec of a property of a living object.
#[tactic(auto, unfolding(ui_machine::specs::Rules::Sets::spec_at))]
pub fn spec_of<'a>(
    engine: &Engine,
    definition: &'a Definition,
    object: ObjectId,
    slot: Slot,
) -> &'a Spec
    requires able { Able (spec_at definition.now (world_of engine.now.world).objects object.0 slot) }
    ensures spec { spec_at definition.now (world_of engine.now.world).objects object.0 slot ≡ Ok (spec_view result.now) }
    ensures plain { IsPlain definition.now.types (spec_view result.now) }
{
    // For the proof: what is known of a definition's types.
    let _types = definition.types();
    let class = engine.world.table.class_of(object);
    let Some(spec) = definition.spec(class, slot) else {
        unreachable!()
    };
    spec
}
