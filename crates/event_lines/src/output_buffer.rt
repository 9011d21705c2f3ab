//! Bytes that were said and not yet written.

ghost use Rattle.std.specs.Prelude.{◌≡◌, ◌≤◌, ◌<◌, ◌-◌, min, ◌++◌, [], ℕ, List, take, length, true, false};
ghost use Rattle.event_lines.specs.declared.output_buffer.TheConstants.{GATHER_SIZE};

use std::marker::Model;

/// The greatest number of bytes that are gathered.
pub const GATHER_SIZE: usize = 4096;

/// The bytes that wait to be written.
#[derive(Drop)]
pub struct Gather {
    bytes: [u8; GATHER_SIZE],
    len: usize,
}

impl Model for Gather {
    ghost Value = { List ℕ };

    ghost view = { λ g. take g.len g.bytes };

    ghost invariant = { λ g. g.len ≤ GATHER_SIZE };
}

impl Gather {
    /// Creates a buffer without bytes.
    pub fn new() -> Gather
        ensures { result ≡ [] }
    {
        Gather {
            bytes: [0; GATHER_SIZE],
            len: 0,
        }
    }

    /// Returns the bytes, in their order.
    pub fn as_slice(&self) -> &[u8]
        ensures { result.now ≡ self.now }
    {
        &self.bytes[..self.len]
    }

    /// Returns whether there is no room for more.
    pub fn is_full(&self) -> bool
        ensures full { result ≡ true → length self.now ≡ GATHER_SIZE }
        ensures room { result ≡ false → length self.now < GATHER_SIZE }
    {
        self.len == GATHER_SIZE
    }

    /// Removes all bytes.
    pub fn clear(&mut self)
        ensures { self.new ≡ [] }
    {
        self.len = 0;
    }

    /// Takes as many of the bytes as there is room for, and returns how many.
    pub fn push_front_of(&mut self, bytes: &[u8]) -> usize
        ensures count { result ≡ min (length bytes.now) (GATHER_SIZE - length self.old) }
        ensures grows { self.new ≡ self.old ++ take result bytes.now }
    {
        let count = bytes.len().min(GATHER_SIZE - self.len);
        let end = self.len + count;
        self.bytes[self.len..end].copy_from_slice(&bytes[..count]);
        self.len = end;
        count
    }
}
