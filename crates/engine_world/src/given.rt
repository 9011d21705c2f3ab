//! Given values, and objects that the builder holds.

ghost use Rattle.std.specs.Prelude.{◌≡◌, Ok, Some, option_map, IfOk};
ghost use Rattle.ui_machine.specs.Definition.Values as values;
ghost use Rattle.ui_machine.specs.Outcome.{known};
ghost use Rattle.ui_machine.specs.declared.arm.Arm.TheVariants as arms;
ghost use Rattle.ui_machine.specs.Rules.Build.{held_object};
ghost use Rattle.ui_machine.specs.Rules.Construction.{given_value};
ghost use Rattle.g_values.specs.View.{value_view};
ghost use Rattle.definition_format.specs.Meaning.{given_view};
ghost use Rattle.instance_tables.specs.Store.{id_of};
ghost use Rattle.ui_machine.specs.declared.ids.ObjectId.{ObjectId};
ghost use Rattle.engine_world.specs.Able.{Able};
ghost use Rattle.engine_world.specs.GivenView.{held_value};
ghost use Rattle.engine_world.specs.View.{world_of};

use crate::engine::Engine;
use crate::world::World;
use definition_format::Given;
use g_values::Value;
use std::alloc::AllocError;
use type_tree::TypeId;
use ui_machine::{ObjectId, Place};

// The number of the type `GObject`, which every object is.
const G_OBJECT: u16 = 0;

/// Returns an object as a value.
pub fn object_value(object: ObjectId) -> Value
    ensures { value_view result ≡ values.object (Some object.0) }
{
    Value::Object(TypeId::new(G_OBJECT), Some(object))
}

impl World {
    /// Returns a copy of a given value, or the object that the builder holds at a given place, None if it holds none there.
    ///
    /// # Errors
    ///
    /// `AllocError` if memory is refused.
    pub fn given(&self, given: &Given) -> Result<Option<Value>, AllocError>
        ensures { IfOk result (λ value. option_map value_view value ≡ given_value (world_of self.now) (given_view given.now)) }
    {
        match given {
            Given::Value(value) => Ok(Some(value.copied()?)),
            Given::Object(place) => Ok(self.built(*place).map(object_value)),
        }
    }
}

/// Returns the object that the builder holds at a place. It has to hold one.
pub fn held_object(engine: &Engine, place: Place) -> ObjectId
    requires able { Able (held_object (world_of engine.now.world) place.0) }
    ensures { held_object (world_of engine.now.world) place.0 ≡ Ok result.0 }
{
    let Some(object) = engine.world.built(place) else {
        unreachable!()
    };
    object
}

/// Returns the object that the builder holds at a place as a value. It has to hold one.
pub fn held_value(engine: &Engine, place: Place) -> Value
    requires able { Able (held_value (world_of engine.now.world) place.0) }
    ensures { held_value (world_of engine.now.world) place.0 ≡ Ok (value_view result) }
{
    object_value(held_object(engine, place))
}

/// Returns a given value, or the object that the builder holds at a given place, where it has to hold one.
pub fn operand(engine: &Engine, given: Given) -> Value
    requires able { Able (known arms.Operand (given_value (world_of engine.now.world) (given_view given))) }
    ensures { given_value (world_of engine.now.world) (given_view given) ≡ Some (value_view result) }
{
    match given {
        Given::Value(value) => value,
        Given::Object(place) => held_value(engine, place),
    }
}

/// Returns an object as a value, or the null object.
pub fn object_or_null(object: Option<ObjectId>) -> Value
    ensures { value_view result ≡ values.object (id_of object) }
{
    Value::Object(TypeId::new(G_OBJECT), object)
}
