//! Vectors of one room that are not in use.

ghost use Rattle.std.specs.Prelude.{◌≡◌, ◌+◌, ◌-◌, ◌<◌, ◌≤◌, [], IfOk, vec_capacity};
ghost use Rattle.engine_stack.specs.Stocks.{is_usual};

use std::alloc::{AllocError, Global};
use std::marker::Model;
use std::mem;

/// A stock of empty vectors, each with the same room. A vector that has this room is given for one of them, so that no memory is asked for.
#[derive(Debug, Drop)]
pub struct Stock<T> {
    vectors: Vec<Vec<T>>,
    room: usize,
}

impl<T> Model for Stock<T> {
    ghost use Rattle.std.specs.Prelude.{All, vec_capacity, vec_len};
    ghost use Rattle.engine_stack.specs.Stocks.{IsEmptyOf, Kept};

    ghost Value = { Kept };

    ghost view = { λ s. record { count = vec_len s.vectors; most = vec_capacity s.vectors; room = s.room } };

    ghost invariant = { λ s. All (IsEmptyOf s.room) s.vectors.items };
}

impl<T: Drop> Stock<T> {
    /// Creates a stock of `count` vectors with room for `room` values each.
    ///
    /// # Errors
    ///
    /// `AllocError` if memory is refused. No other call asks for memory.
    pub fn new(alloc: Global, count: usize, room: usize) -> Result<Self, AllocError>
        ensures { IfOk result (λ s. s ≡ record { count = count; most = count; room = room }) }
    {
        let mut vectors = Vec::with_capacity(alloc, count)?;
        for _ in 0..count {
            vectors.push_reserved(Vec::with_capacity(alloc, room)?);
        }
        Ok(Stock { vectors, room })
    }

    /// Takes a vector of the stock.
    pub fn take(&mut self) -> Vec<T>
        requires left { 0 < self.now.count }
        ensures empty { result.items ≡ [] }
        ensures room { vec_capacity result ≡ self.old.room }
        ensures taken { self.new ≡ record self.old { count = self.old.count - 1 } }
    {
        self.vectors.pop().unwrap()
    }

    /// Takes these values in their vector. A vector of the stock is left in its place if it has the stock's room, and a vector without
    /// room otherwise.
    pub fn keep(&mut self, alloc: Global, values: &mut Vec<T>) -> Vec<T>
        requires left { 0 < self.now.count }
        ensures kept { result ≡ values.old }
        ensures emptied { values.new.items ≡ [] }
        ensures taken { self.new.count + is_usual self.old.room result ≡ self.old.count }
        ensures beside { self.new ≡ record self.old { count = self.new.count } }
    {
        if values.capacity() != self.room {
            return mem::replace(values, Vec::new(alloc));
        }
        let spare = self.vectors.pop().unwrap();
        mem::replace(values, spare)
    }

    /// Drops the values of a vector. The vector goes into the stock if it has the stock's room, and a vector without room is returned. Any
    /// other vector is returned, and keeps its room.
    pub fn give_back(&mut self, alloc: Global, mut vector: Vec<T>) -> Vec<T>
        requires place { self.now.count + is_usual self.now.room vector ≤ self.now.most }
        ensures given { self.new ≡ record self.old { count = self.old.count + is_usual self.old.room vector } }
        ensures emptied { result.items ≡ [] }
        ensures kept { is_usual self.old.room vector ≡ 0 → vec_capacity result ≡ vec_capacity vector }
    {
        vector.clear();
        if vector.capacity() != self.room {
            return vector;
        }
        self.vectors.push_reserved(vector);
        Vec::new(alloc)
    }
}
