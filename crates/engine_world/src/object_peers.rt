//! The peer that an object gets as it is made.

ghost use Rattle.std.specs.Prelude.{◌≡◌, ◌<◌, ◌||◌, ℕ, IfOk, IfSome, List, None, Ok, Some, drop, is_some, length, not, slice_get, take};
ghost use Rattle.ui_machine.specs.Rules.Build.{first_peer};
ghost use Rattle.ui_machine.specs.Rules.Construction.{has_shape, peer_left, peer_to_take};
ghost use Rattle.definition_format.specs.Meaning.{name_bytes};
ghost use Rattle.definitions.specs.EntryView.{entry_view};
ghost use Rattle.engine_world.specs.Able.{Able};
ghost use Rattle.ui_machine.specs.Definition as definition;
ghost use Rattle.ui_machine.specs.Definition.Places as machine;
ghost use Rattle.ui_machine.specs.Seq.{read};
ghost use Rattle.ui_machine.specs.State.Peers.{Peer};
ghost use Rattle.engine_world.specs.GotNames.{AreAllGot};
ghost use Rattle.engine_world.specs.Counting.{PassesIn};
ghost use Rattle.engine_world.specs.PeerPlaces.{AreGot, AreNumbered, Numbered, first_of, is_there, own_peer, taken};
ghost use Rattle.engine_world.specs.View.{world_of};

use crate::engine::Engine;
use crate::seats::Seats;
use definitions::{Definition, ObjectEntry};
use std::alloc::{AllocError, Global};
use type_tree::TypeId;
use ui_machine::Place;

/// The peer that a new object of a prototype gets.
#[derive(Clone, Copy, Debug, PartialEq, Eq)]
pub enum NewPeer {
    /// The object's class has no shape.
    NotWanted,
    /// The number of the first of the prototype's peers that no object has got.
    Left(usize),
    /// Objects have got all of the prototype's peers.
    NoneLeft,
}

impl NewPeer {
    /// Returns whether there is a peer for the object, or it wants none.
    pub fn is_there(self) -> bool
        ensures { result ≡ is_there self }
    {
        match self {
            NewPeer::NotWanted | NewPeer::Left(_) => true,
            NewPeer::NoneLeft => false,
        }
    }

    /// Returns the number of the peer that the object takes, if it takes one.
    pub fn number(self) -> Option<usize>
        ensures { result ≡ taken self }
    {
        match self {
            NewPeer::Left(number) => Some(number),
            NewPeer::NotWanted | NewPeer::NoneLeft => None,
        }
    }
}

// Returns whether objects of the class have peers.
fn has_shape(definition: &Definition, class: TypeId) -> bool
    ensures { result ≡ has_shape definition.now class }
{
    definition.shape_number(class).is_some()
}

// Returns the numbers of the peers that a place names, or no numbers if none are kept for the place.
pub(crate) fn numbers_at(numbers: &[Vec<Option<usize>>], place: Place) -> &[Option<usize>]
    ensures { IfSome (slice_get numbers.now place.0) (λ kept. result.now ≡ kept.items) }
{
    match numbers.get(usize::from(place.0)) {
        Some(numbers) => numbers.as_slice(),
        None => &[],
    }
}

// Returns the first of these numbers, if there is one.
fn first_number(numbers: &[Option<usize>]) -> Option<usize>
    ensures { (peers : List Peer) (names : List (List ℕ)) → Numbered peers names numbers.now → result ≡ first_peer peers names }
{
    match numbers {
        [] => None,
        [number, ..] => *number,
    }
}

/// Returns the number of the peer that the object at a place of the build has for its own. It has one if its class has a shape.
pub fn own_peer(engine: &Engine, definition: &Definition, place: Place) -> Option<usize>
    requires able { Able (own_peer definition.now (world_of engine.now.world) place.0) }
    requires numbered { AreNumbered definition.now engine.now.world.seats engine.now.world.peer_numbers.items }
    ensures own { own_peer definition.now (world_of engine.now.world) place.0 ≡ Ok result }
    ensures within { IfSome result (λ number. number < length engine.now.world.seats) }
{
    first_number(numbers_at(&engine.world.peer_numbers, place))
}

// Returns the number that is kept for a place, or 0 if none is.
fn number_at(numbers: &[usize], place: Place) -> usize
    ensures { result ≡ read 0 numbers.now place.0 }
{
    let place = usize::from(place.0);
    if place < numbers.len() {
        numbers[place]
    } else {
        0
    }
}

// Returns the numbers from index `from` on, or no numbers if there are fewer.
fn numbers_from(numbers: &[Option<usize>], from: usize) -> &[Option<usize>]
    ensures { result.now ≡ drop from numbers.now }
{
    match numbers.get(from..) {
        Some(rest) => rest,
        None => &[],
    }
}

// Returns the first of the peers of a place that no object has got, if one is left.
fn peer_left(engine: &Engine, place: Place) -> Option<usize>
    ensures left { (d : definition.Definition) (p : machine.Place) → slice_get d.places place.0 ≡ Some p → PassesIn d engine.now.world → result ≡ peer_left (world_of engine.now.world) p }
    ensures within { IfSome result (λ number. number < length engine.now.world.seats) }
{
    let numbers = numbers_at(&engine.world.peer_numbers, place);
    let got = number_at(&engine.world.got_peers, place);
    engine.world.seats.first_left(numbers_from(numbers, got))
}

/// Counts anew how many peers of a place are not left, from where the count ended before. So all objects that are made of a prototype go
/// through its peers once. `numbers` are the numbers of the place's peers.
pub(crate) fn count_got(
    got: &mut Vec<usize>,
    seats: &Seats,
    place: Place,
    numbers: &[Option<usize>],
)
    ensures got { (d : definition.Definition) (p : machine.Place) → slice_get d.places place.0 ≡ Some p → Numbered seats.now p.peers numbers.now
        → AreGot d seats.now got.old.items → AreGot d seats.now got.new.items }
    ensures all { place.0 < length got.old.items → AreAllGot seats.now numbers.now (read 0 got.new.items place.0) }
    ensures beside { (other : ℕ) → (other ≡ place.0 → ⊥) → read 0 got.new.items other ≡ read 0 got.old.items other }
    ensures len { length got.new.items ≡ length got.old.items }
{
    let number = seats.got(numbers, number_at(got, place));
    let place = usize::from(place.0);
    if place < got.len() {
        got[place] = number;
    }
}

/// Returns the peer for a new object of the prototype at a place.
pub fn new_peer(
    engine: &Engine,
    definition: &Definition,
    place: Place,
    prototype: &ObjectEntry<'_>,
) -> NewPeer
    requires at { slice_get definition.now.places place.0 ≡ Some (entry_view prototype.now) }
    requires passes { PassesIn definition.now engine.now.world }
    ensures there { is_there result ≡ (not (has_shape definition.now prototype.now.class) || is_some (peer_left (world_of engine.now.world) (entry_view prototype.now))) }
    ensures taken { taken result ≡ peer_to_take definition.now (world_of engine.now.world) (entry_view prototype.now) }
    ensures within { IfSome (taken result) (λ number. number < length engine.now.world.seats) }
{
    if !has_shape(definition, prototype.class) {
        return NewPeer::NotWanted;
    }
    match peer_left(engine, place) {
        Some(number) => NewPeer::Left(number),
        None => NewPeer::NoneLeft,
    }
}

// Returns the numbers of the peers with these names, with None for a name that no peer has.
fn numbers_of(
    alloc: Global,
    seats: &Seats,
    names: &[String],
) -> Result<Vec<Option<usize>>, AllocError>
    ensures { IfOk result (λ numbers. Numbered seats.now (name_bytes names.now) numbers.items) }
{
    let mut numbers = Vec::with_capacity(alloc, names.len())?;
    'names: for name in names {
        numbers.push(seats.find(name.as_str()))?;
    }
    Ok(numbers)
}

// Returns the numbers of the peers that a place names, or no numbers if nothing is at the place.
fn numbers_for(
    alloc: Global,
    definition: &Definition,
    seats: &Seats,
    place: usize,
) -> Result<Vec<Option<usize>>, AllocError>
    ensures { IfOk result (λ numbers. IfSome (slice_get definition.now.places place) (λ p. Numbered seats.now p.peers numbers.items)) }
{
    match definition.object(place) {
        Some(entry) => numbers_of(alloc, seats, entry.peers),
        None => Ok(Vec::new(alloc)),
    }
}

/// Returns the numbers of the peers that each place names, by place.
///
/// # Errors
///
/// `AllocError` if memory is refused.
pub fn peer_numbers(
    alloc: Global,
    definition: &Definition,
    seats: &Seats,
) -> Result<Vec<Vec<Option<usize>>>, AllocError>
    ensures { IfOk result (λ kept. AreNumbered definition.now seats.now kept.items) }
{
    let count = definition.place_count();
    let mut kept = Vec::with_capacity(alloc, count)?;
    'places: for place in 0..count {
        kept.push(numbers_for(alloc, definition, seats, place)?)?;
    }
    Ok(kept)
}
