//! Places of sources in order of a rank. Places of the same rank are in order of attachment.

ghost use Rattle.std.specs.Prelude.{◌≡◌, ◌<◌, length, option_map, vec_len, vec_capacity, OnOk};
ghost use Rattle.std.specs.List.{find};
ghost use Rattle.main_context.specs.Places.{IsAscending, IsThere, all_added, has_rank, index_from, is_before, is_up_to, up_to, with_any, with_place, without_any, without_place};

use std::alloc::AllocError;

/// The place of a source: its rank and its number.
#[derive(Clone, Copy, Debug, PartialEq, Eq)]
pub(crate) struct Place {
    pub rank: i128,
    pub number: u64,
}

impl Place {
    fn is_up_to(self, rank: i128) -> bool
        ensures { result ≡ is_up_to rank self }
    {
        self.rank <= rank
    }

    fn has_rank(self, rank: i128) -> bool
        ensures { result ≡ has_rank rank self }
    {
        self.rank == rank
    }

    /// Returns whether the rank is lower than the other's, or the same with a lower number.
    #[tactic(auto, unfolding(crate::specs::Places::is_before))]
    fn is_before(self, other: Place) -> bool
        ensures { result ≡ is_before self other }
    {
        self.rank < other.rank || (self.rank == other.rank && self.number < other.number)
    }
}

/// Adds a place, for which there is room.
pub(crate) fn add(places: &mut Vec<Place>, place: Place)
    requires ascending { IsAscending places.old.items }
    requires room { vec_len places.old < vec_capacity places.old }
    ensures { places.new.items ≡ with_place place places.old.items }
{
    let index = index_from(places, place);
    let Ok(()) = places.insert(index, place) else {
        unreachable!()
    };
}

/// Removes a place, which has to be there. There is room for another one then.
pub(crate) fn take(places: &mut Vec<Place>, place: Place)
    requires ascending { IsAscending places.old.items }
    requires there { index_from place places.old.items < length places.old.items }
    ensures left { places.new.items ≡ without_place place places.old.items }
    ensures room { vec_len places.new < vec_capacity places.new }
{
    let index = index_from(places, place);
    places.remove(index);
}

/// Adds a place, for which there is room, if there is one.
pub(crate) fn add_any(places: &mut Vec<Place>, place: Option<Place>)
    requires ascending { IsAscending places.old.items }
    requires room { vec_len places.old < vec_capacity places.old }
    ensures { places.new.items ≡ with_any place places.old.items }
{
    if let Some(place) = place {
        add(places, place);
    }
}

/// Removes a place, which has to be there, if there is one.
pub(crate) fn take_any(places: &mut Vec<Place>, place: Option<Place>)
    requires ascending { IsAscending places.old.items }
    requires there { IsThere place places.old.items }
    ensures { places.new.items ≡ without_any place places.old.items }
{
    if let Some(place) = place {
        take(places, place);
    }
}

/// Returns the number of the first source with this rank.
pub(crate) fn first_of(places: &[Place], rank: i128) -> Option<u64>
    requires { IsAscending places.now }
    ensures { result ≡ option_map (λ p. p.number) (find (has_rank rank) places.now) }
{
    let first = places.get(index_from(places, Place { rank, number: 0 }))?;
    first.has_rank(rank).then_some(first.number)
}

/// Adds places to others.
///
/// # Errors
///
/// `AllocError` if memory is refused.
pub(crate) fn add_all(places: &mut Vec<Place>, more: &[Place]) -> Result<(), AllocError>
    requires { IsAscending places.old.items }
    ensures { OnOk result (places.new.items ≡ all_added more.now places.old.items) }
{
    for place in more {
        places.reserve(1)?;
        add(places, *place);
    }
    Ok(())
}

/// Returns the places of at most this rank.
pub(crate) fn up_to(places: &[Place], rank: i128) -> &[Place]
    requires { IsAscending places.now }
    ensures { result.now ≡ up_to rank places.now }
{
    let count = places.partition_point(|place| place.is_up_to(rank));
    &places[..count]
}

// Returns the index of the first place that is not before this one, which is searched by halves.
fn index_from(places: &[Place], place: Place) -> usize
    requires { IsAscending places.now }
    ensures { result ≡ index_from place places.now }
{
    places.partition_point(|other| other.is_before(place))
}
