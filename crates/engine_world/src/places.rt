//! The places of a definition, what is at each, and their order.

ghost use Rattle.std.specs.Prelude.{◌≡◌, ◌<◌, ◌≤◌, false, true, suc, map, option_map, slice_get};
ghost use Rattle.definition_format.specs.Meaning.{object_count};
ghost use Rattle.definitions.specs.EntryView.{entry_view};

use definitions::{Definition, ObjectEntry};
use ui_machine::Place;

/// The first place.
pub const FIRST_PLACE: Place = Place(0);

/// Returns the object or prototype at a place, if there is one.
pub fn entry_at(definition: &Definition, place: Place) -> Option<ObjectEntry<'_>>
    ensures { option_map entry_view result ≡ slice_get definition.now.places place.0 }
{
    definition.object(usize::from(place.0))
}

/// Returns whether an object is at a place. Prototypes come after all objects.
pub fn is_object(definition: &Definition, place: Place) -> bool
    ensures within { result ≡ true → place.0 < object_count definition.now }
    ensures past { result ≡ false → object_count definition.now ≤ place.0 }
{
    usize::from(place.0) < definition.object_count()
}

/// Returns the place of the object with this number in the definition.
pub fn place_numbered(definition: &Definition, number: usize) -> Place
    requires { number < object_count definition.now }
    ensures { result.0 ≡ number }
{
    // For the proof: how many places there are at most.
    let _places = definition.place_count();
    let _types = definition.types();
    Place(number as u16)
}

/// Returns the place after `place`, which has to be the place of an object.
pub fn next_place(definition: &Definition, place: Place) -> Place
    requires { place.0 < object_count definition.now }
    ensures { result.0 ≡ suc place.0 }
{
    // For the proof: how many places there are at most.
    let _places = definition.place_count();
    let _types = definition.types();
    Place(place.0 + 1)
}
