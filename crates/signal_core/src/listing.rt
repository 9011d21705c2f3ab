//! A set of numbers of handlers, listed under three keys.

ghost use Rattle.std.specs.Prelude.{◌≡◌, ◌<◌, ◌^◌, ◌&&◌, OnOk, nat_eq, true};
ghost use Rattle.signal_core.specs.Kept.{IsNext, Stays, StaysBeside, is_listed, least_of};

use std::alloc::{AllocError, Global};
use std::collections::BTreeSet;

/// The numbers of handlers that are listed under three other numbers, such as those of an object, a program and 0. Each operation takes
/// time logarithmic in the number of entries.
#[derive(Debug, Drop)]
pub(crate) struct Listing {
    keys: BTreeSet<(u64, u64, u64, u64)>,
}

impl Listing {
    /// Creates an empty listing. Takes no memory.
    pub(crate) fn new(alloc: Global) -> Self {
        Listing {
            keys: BTreeSet::new(alloc),
        }
    }

    /// Lists a number under three others.
    pub(crate) fn add(
        &mut self,
        first: u64,
        second: u64,
        third: u64,
        number: u64,
    ) -> Result<(), AllocError>
        ensures stays { Stays self.old self.new }
        ensures listed { OnOk result (is_listed self.new first second third number ≡ true) }
    {
        self.keys.insert((first, second, third, number))?;
        Ok(())
    }

    /// Removes a number that may be listed under three others.
    pub(crate) fn remove(&mut self, first: u64, second: u64, third: u64, number: u64)
        ensures { StaysBeside number self.old self.new }
    {
        self.keys.remove(&(first, second, third, number));
    }

    /// Returns the next number above `given` that is listed under three others.
    pub(crate) fn next(&self, first: u64, second: u64, third: u64, given: u64) -> Option<u64>
        ensures { IsNext self.now first second third given result }
    {
        let from = given.checked_add(1)?;
        let key = self.keys.range((first, second, third, from)..).next()?;
        if is_under(key, first, second, third) {
            return Some(number_of(key));
        }
        None
    }
}

// Returns whether these are the first three numbers of a key.
fn is_under(key: &(u64, u64, u64, u64), first: u64, second: u64, third: u64) -> bool
    ensures { result ≡ (nat_eq key.now.0 first && nat_eq key.now.1 second && nat_eq key.now.2 third) }
{
    key.0 == first && key.1 == second && key.2 == third
}

// Returns the last number of a key.
fn number_of(key: &(u64, u64, u64, u64)) -> u64
    ensures number { result ≡ key.now.3 }
    ensures fits { result < 2 ^ 64 }
{
    key.3
}

/// Returns the lower one of two numbers, either of which may be missing.
pub(crate) fn least(one: Option<u64>, other: Option<u64>) -> Option<u64>
    ensures { result ≡ least_of one other }
{
    match (one, other) {
        (None, other) => other,
        (one, None) => one,
        (Some(one), Some(other)) => Some(one.min(other)),
    }
}
