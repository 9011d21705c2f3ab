//! The peers that a definition names.

ghost use Rattle.std.specs.Prelude.{◌≡◌, option_map, slice_get};
ghost use Rattle.std.specs.List.{flat_map};
ghost use Rattle.definition_format.specs.Meaning.{name_bytes};
ghost use Rattle.definitions.specs.EntryView.{entry_view};
ghost use Rattle.named_peers.specs.NamedPeers.{IsSought, named_of_kind, peers_of, shape_name, with_shape};

use definitions::{Definition, ObjectEntry};
use type_tree::TypeId;

/// The result of a search for the peer with a number.
#[derive(Clone, Copy)]
pub(crate) enum Sought<'a> {
    /// The name of the peer, and the name of its shape.
    Found(&'a str, &'a str),
    /// There are fewer peers. The value is the number minus the number of peers searched.
    Beyond(usize),
}

// Returns the name of a class's shape, if it has one.
fn shape_name(definition: &Definition, class: TypeId) -> Option<&str>
    ensures { option_map (λ s. s.now) result ≡ shape_name definition.now class }
{
    let number = definition.shape_number(class)?;
    let _shape = definition.shape(number)?;
    Some(definition.shape_name(number))
}

// Searches for the peer with a number among these names, which all have this shape. Without a shape there are no peers.
fn among<'a>(names: &'a [String], shape: Option<&'a str>, number: usize) -> Sought<'a>
    ensures { IsSought (with_shape (option_map (λ s. s.now) shape.entry) (name_bytes names.now)) number result }
{
    let Some(shape) = shape else {
        return Sought::Beyond(number);
    };
    match names.get(number) {
        Some(name) => Sought::Found(name.as_str(), shape),
        None => Sought::Beyond(number - names.len()),
    }
}

// Searches for the peer with a number among those that a place names. Only prototypes count if `is_prototype` is true, and only objects if
// it is false.
fn at_place<'a>(
    definition: &'a Definition,
    entry: &ObjectEntry<'a>,
    is_prototype: bool,
    number: usize,
) -> Sought<'a>
    ensures { IsSought (named_of_kind definition.now is_prototype (entry_view entry.now)) number result }
{
    if entry.is_prototype == is_prototype {
        among(entry.peers, shape_name(definition, entry.class), number)
    } else {
        Sought::Beyond(number)
    }
}

// Searches for the peer with a number among those that all prototypes name, or all objects.
fn among_places(definition: &Definition, is_prototype: bool, number: usize) -> Sought<'_>
    ensures { IsSought (flat_map (named_of_kind definition.now is_prototype) definition.now.places) number result }
{
    let mut left = number;
    'places: for place in 0..definition.place_count() {
        let Some(entry) = definition.object(place) else {
            unreachable!()
        };
        match at_place(definition, &entry, is_prototype, left) {
            Sought::Found(name, shape) => return Sought::Found(name, shape),
            Sought::Beyond(rest) => left = rest,
        }
    }
    Sought::Beyond(left)
}

/// Returns the name of the k-th peer that a definition names, counted from 0, and the name of the shape of its class. Returns `None` if
/// there are not so many. Peers that prototypes name come first, then those that objects name, in document order. Takes no memory.
pub fn peers(definition: &Definition, k: usize) -> Option<(&str, &str)>
    ensures { option_map (λ p. (p.0.now, p.1.now)) result ≡ slice_get (peers_of definition.now) k }
{
    let left = match among_places(definition, true, k) {
        Sought::Found(name, shape) => return Some((name, shape)),
        Sought::Beyond(left) => left,
    };
    match among_places(definition, false, left) {
        Sought::Found(name, shape) => Some((name, shape)),
        Sought::Beyond(_) => None,
    }
}
