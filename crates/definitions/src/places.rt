//! The places of a definition by their ids: its objects, followed by its prototypes.

ghost use Rattle.std.specs.Prelude.{◌≡◌, ◌<◌, ◌≤◌, ◌+◌, length, IfSome, map};
ghost use Rattle.ui_machine.specs.Definition.Names.{place_named};
ghost use Rattle.definition_format.specs.Meaning.{places_of, plain_object, plain_prototype};

use definition_format::{ObjectBody, PrototypeBody};
use indexmap::IndexMap;

/// The most places of a definition.
pub const MOST_PLACES: usize = 512;

/// Objects in document order, by their ids.
pub type Objects = IndexMap<String, ObjectBody>;

/// Prototypes in document order, by their ids.
pub type Prototypes = IndexMap<String, PrototypeBody>;

// Returns the index of the object with this id.
pub(crate) fn position_of(objects: &Objects, id: &str) -> Option<usize>
    ensures place { result ≡ place_named (λ p. p.id) (map plain_object objects.now.entries) id.now }
    ensures within { IfSome result (λ i. i < length objects.now.entries) }
{
    objects.get_index_of(id)
}

/// Returns the index of the prototype with this id among the prototypes.
pub fn prototype_of(prototypes: &Prototypes, id: &str) -> Option<usize>
    ensures place { result ≡ place_named (λ p. p.id) (map plain_prototype prototypes.now.entries) id.now }
    ensures within { IfSome result (λ i. i < length prototypes.now.entries) }
{
    prototypes.get_index_of(id)
}

/// Returns the place of the object or prototype with this id. Prototypes come after the objects.
pub fn place_in(objects: &Objects, prototypes: &Prototypes, id: &str) -> Option<usize>
    requires { length objects.now.entries + length prototypes.now.entries ≤ 512 }
    ensures place { result ≡ place_named (λ p. p.id) (places_of objects.now.entries prototypes.now.entries) id.now }
    ensures within { IfSome result (λ i. i < 512) }
{
    match position_of(objects, id) {
        Some(place) => Some(place),
        None => {
            let number = prototype_of(prototypes, id)?;
            Some(objects.len() + number)
        }
    }
}
