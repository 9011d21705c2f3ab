//! The sources of one iteration.

ghost use Rattle.std.specs.Prelude.{◌≡◌, [], ◌∷◌, map, slice_get, MatchOption, IfOk};
ghost use Rattle.ui_machine.specs.Rules.MainLoop.{ready};
ghost use Rattle.main_context.specs.Order.{RisesFrom};
ghost use Rattle.main_context.specs.Places.{IsAscending, by_priority, idle_rank, least_rank, ranked, timeout_rank, up_to};

use crate::places::{self, Place};
use crate::source::Source;
use crate::sources;
use std::alloc::{AllocError, Global};
use std::marker::Model;

/// The numbers of the sources of an iteration whose turn is still to come. A contract sees them as a list.
#[derive(Debug, Drop)]
pub struct Batch {
    numbers: Vec<u64>,
    taken: usize,
}

impl Model for Batch {
    ghost use Rattle.std.specs.Prelude.{ℕ, List, ◌≤◌, vec_len, drop};

    ghost Value = { List ℕ };

    ghost view = { λ b. drop b.taken b.numbers.items };

    ghost invariant = { λ b. b.taken ≤ vec_len b.numbers };
}

impl Batch {
    /// Collects the ready sources with the least priority number, from the places of the idles by priority and of the timeouts by due
    /// moment. Looks at the timeouts that are ready and at the sources that it collects.
    pub(crate) fn ready(
        alloc: Global,
        sources: &[Source],
        idles: &[Place],
        timeouts: &[Place],
        moment: u64,
    ) -> Result<Self, AllocError>
        requires rising { RisesFrom 0 sources.now }
        requires by_priority { idles.now ≡ ranked idle_rank sources.now }
        requires by_due { timeouts.now ≡ ranked timeout_rank sources.now }
        ensures { IfOk result (λ batch. batch ≡ map (λ s. s.number) (ready moment sources.now)) }
    {
        let due = places::up_to(timeouts, i128::from(moment));
        let mut ready = by_priority(alloc, sources, due)?;
        if let Some(least) = least_rank(idles, &ready) {
            places::add_all(&mut ready, places::up_to(idles, least))?;
            let numbers = numbers_up_to(alloc, &ready, least)?;
            return Ok(Batch { numbers, taken: 0 });
        }
        Ok(Batch {
            numbers: Vec::new(alloc),
            taken: 0,
        })
    }

    /// Takes the next number, or returns `None` if none is left.
    pub(crate) fn pop(&mut self) -> Option<u64>
        ensures { MatchOption result (self.old ≡ [] × self.new ≡ []) (λ number. self.old ≡ number ∷ self.new) }
    {
        let number = *self.numbers.get(self.taken)?;
        self.taken += 1;
        Some(number)
    }
}

// Collects the places by priority of the sources that have these places.
fn by_priority(
    alloc: Global,
    sources: &[Source],
    places: &[Place],
) -> Result<Vec<Place>, AllocError>
    requires { RisesFrom 0 sources.now }
    ensures { IfOk result (λ found. found.items ≡ by_priority sources.now places.now) }
{
    let mut found = Vec::new(alloc);
    for place in places {
        found.reserve(1)?;
        places::add_any(&mut found, sources::priority_place(sources, place.number));
    }
    Ok(found)
}

// Returns the least rank, which is that of the first place of one list.
fn least_rank(left: &[Place], right: &[Place]) -> Option<i128>
    ensures { result ≡ least_rank (slice_get left.now 0) (slice_get right.now 0) }
{
    match (left.first(), right.first()) {
        (None, None) => None,
        (Some(place), None) | (None, Some(place)) => Some(place.rank),
        (Some(left), Some(right)) => Some(left.rank.min(right.rank)),
    }
}

// Collects the numbers of the places of at most this rank.
fn numbers_up_to(alloc: Global, places: &[Place], rank: i128) -> Result<Vec<u64>, AllocError>
    requires { IsAscending places.now }
    ensures { IfOk result (λ numbers. numbers.items ≡ map (λ p. p.number) (up_to rank places.now)) }
{
    places::up_to(places, rank)
        .iter()
        .map(|place| place.number)
        .collect(alloc)
}
