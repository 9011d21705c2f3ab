//! The objects of a definition that events name.

ghost use Rattle.std.specs.Prelude.{◌≡◌, ◌↔◌, IsTrue, MatchOption, Some};
ghost use Rattle.law_typing.specs.Laws.WellRead.{IsObject};
ghost use Rattle.law_typing.specs.Rules.RegisterKinds.{class_at};

use definitions::Definition;
use type_tree::TypeId;
use ui_machine::Place;

/// Returns the class of the object at a place, or `None` if no object is there. A prototype is not an object.
pub(crate) fn object_class(definition: &Definition, place: Place) -> Option<TypeId>
    ensures { MatchOption result (¬ IsObject definition.now place.0) (λ class. IsObject definition.now place.0 × (class_at definition.now place.0 ≡ Some class)) }
{
    let Some(entry) = definition.object(usize::from(place.0)) else {
        return None;
    };
    if entry.is_prototype {
        return None;
    }
    Some(entry.class)
}

/// Returns whether an object is at a place.
pub(crate) fn is_object(definition: &Definition, place: Place) -> bool
    ensures { IsTrue result ↔ IsObject definition.now place.0 }
{
    object_class(definition, place).is_some()
}
