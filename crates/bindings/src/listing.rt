//! A set of numbers of bindings, listed under two keys.

ghost use Rattle.std.specs.Prelude.{◌≡◌, OnOk, true};
ghost use Rattle.bindings.specs.Kept.{IsNext, IsPrevious, Stays, StaysBeside, is_listed};

use std::alloc::{AllocError, Global};
use std::collections::BTreeSet;

/// The numbers of bindings that are listed under two other numbers, such as those of an object and a slot. Each operation takes time
/// logarithmic in the number of entries.
#[derive(Debug, Drop)]
pub(crate) struct Listing {
    keys: BTreeSet<(u64, u64, u64)>,
}

impl Listing {
    /// Creates an empty listing. Takes no memory.
    pub(crate) fn new(alloc: Global) -> Self {
        Listing {
            keys: BTreeSet::new(alloc),
        }
    }

    /// Lists a number under two others.
    pub(crate) fn add(&mut self, first: u64, second: u64, number: u64) -> Result<(), AllocError>
        ensures stays { Stays self.old self.new }
        ensures listed { OnOk result (is_listed self.new first second number ≡ true) }
    {
        self.keys.insert((first, second, number))?;
        Ok(())
    }

    /// Removes a number that may be listed under two others.
    pub(crate) fn remove(&mut self, first: u64, second: u64, number: u64)
        ensures { StaysBeside number self.old self.new }
    {
        self.keys.remove(&(first, second, number));
    }

    /// Returns the last number below `end` that is listed under two others.
    pub(crate) fn before(&self, first: u64, second: u64, end: u64) -> Option<u64>
        ensures { IsPrevious self.now first second end result }
    {
        let last = end.checked_sub(1)?;
        let range = (first, second, 0)..=(first, second, last);
        let (_, _, number) = self.keys.range(range).next_back()?;
        Some(*number)
    }
    /// Returns the first number, from `from` on, that is listed under two others.
    pub(crate) fn from(&self, first: u64, second: u64, from: u64) -> Option<u64>
        ensures { IsNext self.now first second from result }
    {
        let range = (first, second, from)..=(first, second, u64::MAX);
        let (_, _, number) = self.keys.range(range).next()?;
        Some(*number)
    }
}
