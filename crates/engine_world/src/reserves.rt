//! The room that a run reserves before it begins, and the lists in which it gathers values.

ghost use Rattle.std.specs.Prelude.{◌≡◌, []};

use std::alloc::{AllocError, Global};
use std::marker::Model;
use std::mem;

/// The room that a run reserves: for `depth` frames at a time, for programs with at most `registers` registers and emissions with at most
/// `args` arguments, and for `constructions` constructions at a time with `steps` steps each.
#[derive(Debug, Drop)]
pub struct Room {
    pub depth: u32,
    pub registers: usize,
    pub constructions: usize,
    pub steps: usize,
    pub args: usize,
}

/// A stock of empty lists with room for values. Contracts see nothing of it.
#[derive(Drop)]
pub struct Spare<T> {
    // The lists that have `room` each.
    plain: Vec<Vec<T>>,
    room: usize,
    // The list that has more room, or one without room while it is in use.
    wide: Vec<T>,
}

impl<T> Model for Spare<T> {
    ghost use Rattle.std.specs.Prelude.{◌≡◌, [], All, ⊤};

    ghost Value = { ⊤ };

    ghost view = { λ s. tt };

    ghost invariant = { λ s. All (λ v. v.items ≡ []) s.plain.items × (s.wide.items ≡ []) };
}

impl<T: Drop> Spare<T> {
    /// Creates a stock of `count` lists, each with room for `room` values.
    ///
    /// # Errors
    ///
    /// `AllocError` if memory is refused.
    pub fn new(alloc: Global, count: usize, room: usize) -> Result<Self, AllocError> {
        let mut plain = Vec::with_capacity(alloc, count)?;
        for _ in 0..count {
            plain.push_reserved(Vec::with_capacity(alloc, room)?);
        }
        Ok(Spare {
            plain,
            room,
            wide: Vec::new(alloc),
        })
    }

    /// Adds a list with room for `room` values, if that is more than usual.
    ///
    /// # Errors
    ///
    /// `AllocError` if memory is refused.
    pub fn add_wide(&mut self, alloc: Global, room: usize) -> Result<(), AllocError> {
        if room > self.room {
            self.wide = Vec::with_capacity(alloc, room)?;
        }
        Ok(())
    }

    /// Takes a list. It has the usual room while fewer are in use than were made.
    pub fn take(&mut self, alloc: Global) -> Vec<T>
        ensures { result.items ≡ [] }
    {
        match self.plain.pop() {
            Some(list) => list,
            None => Vec::new(alloc),
        }
    }

    /// Takes a list for `count` values, which is the one with more room if these need more than usual.
    pub fn take_for(&mut self, alloc: Global, count: usize) -> Vec<T>
        ensures { result.items ≡ [] }
    {
        if count <= self.room {
            return self.take(alloc);
        }
        mem::replace(&mut self.wide, Vec::new(alloc))
    }

    /// Gives a list back, and drops its values. A list for which the stock has no place is dropped.
    pub fn give_back(&mut self, mut list: Vec<T>) {
        list.clear();
        if list.capacity() > self.room {
            self.wide = list;
        } else if self.plain.len() < self.plain.capacity() {
            self.plain.push_reserved(list);
        }
    }
}
