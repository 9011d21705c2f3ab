//! The bytes of a reader that are read ahead.

ghost use Rattle.std.specs.Prelude.{◌≡◌, ◌≤◌, ◌++◌, ◌⊎◌, [], ◌∷◌, ℕ, List, drop, take, length, IfOk, OnOk, OnErr, MatchOption, false};
ghost use Rattle.std.specs.Io.KnownBytes.{Keeps, Consumes, IsAtEnd, prepend_known};
ghost use Rattle.event_lines.specs.Reading.{IsReadAnew, IsTaken};
ghost use Rattle.event_lines.specs.Writing.{Waits, IsFine};
ghost use Rattle.event_lines.specs.declared.chunk.TheConstants.{CHUNK_SIZE};

use crate::devices::{Reader, Writer};
use crate::output_buffer::Gather;
use std::marker::Model;
use ui_machine::DeviceFault;

/// The greatest number of bytes that are read ahead.
pub const CHUNK_SIZE: usize = 4096;

/// The bytes that were read and not yet taken.
#[derive(Drop)]
pub struct Chunk {
    bytes: [u8; CHUNK_SIZE],
    at: usize,
    end: usize,
}

impl Model for Chunk {
    ghost Value = { List ℕ };

    ghost view = { λ c. drop c.at (take c.end c.bytes) };

    ghost invariant = { λ c. (c.at ≤ c.end) × (c.end ≤ CHUNK_SIZE) };
}

impl Chunk {
    /// Creates a chunk without bytes.
    pub fn new() -> Chunk
        ensures { result ≡ [] }
    {
        Chunk {
            bytes: [0; CHUNK_SIZE],
            at: 0,
            end: 0,
        }
    }

    /// Takes the next byte, and reads more bytes first if none is left. Returns None at the end. Before a read all that was said is
    /// written. Neither a read nor a write is tried again.
    ///
    /// # Errors
    ///
    /// `DeviceFault` if a device fails. It is not called again.
    pub fn next<R: Reader, W: Writer>(
        &mut self,
        reader: &mut R,
        gather: &mut Gather,
        writer: &mut W,
    ) -> Result<Option<u8>, DeviceFault>
        requires reader { R.failed reader.old ≡ false }
        requires writer { W.failed writer.old ≡ false }
        ensures byte { IfOk result (λ next. MatchOption next
            (Keeps (prepend_known self.old (R.left reader.old)) (prepend_known self.new (R.left reader.new))
            × IsAtEnd (prepend_known self.new (R.left reader.new)))
            (λ b. Consumes (prepend_known self.old (R.left reader.old)) (prepend_known self.new (R.left reader.new)) (b ∷ []))) }
        ensures kept { OnErr result (Keeps (prepend_known self.old (R.left reader.old)) (R.left reader.new) × (self.new ≡ [])) }
        ensures small { length self.new ≤ CHUNK_SIZE }
        ensures anew { ((reader.new ≡ reader.old) × IfOk result (λ next. IsTaken next self.old self.new)) ⊎ IfOk result (λ next. IsReadAnew next self.old self.new) }
        ensures waits { Waits (reader.new ≡ reader.old) (R.reads reader.old) (R.reads reader.new) (W.failed writer.new)
            (W.sent writer.old) gather.old (W.sent writer.new) gather.new }
        ensures marks { IsFine result (R.failed reader.new) (W.failed writer.new) }
    {
        self.fill(reader, gather, writer)?;
        let next = self.pop();
        Ok(next)
    }

    // Reads more bytes if none is left, after writing all that is gathered.
    fn fill<R: Reader, W: Writer>(
        &mut self,
        reader: &mut R,
        gather: &mut Gather,
        writer: &mut W,
    ) -> Result<(), DeviceFault>
        requires reader { R.failed reader.old ≡ false }
        requires writer { W.failed writer.old ≡ false }
        ensures keeps { OnOk result (Keeps (prepend_known self.old (R.left reader.old)) (prepend_known self.new (R.left reader.new))) }
        ensures kept { OnErr result (Keeps (prepend_known self.old (R.left reader.old)) (R.left reader.new) × (self.new ≡ [])) }
        ensures small { length self.new ≤ CHUNK_SIZE }
        ensures end { OnOk result (self.new ≡ [] → IsAtEnd (R.left reader.new)) }
        ensures anew { ((reader.new ≡ reader.old) × (self.new ≡ self.old)) ⊎ (self.old ≡ []) }
        ensures waits { Waits (reader.new ≡ reader.old) (R.reads reader.old) (R.reads reader.new) (W.failed writer.new)
            (W.sent writer.old) gather.old (W.sent writer.new) gather.new }
        ensures marks { IsFine result (R.failed reader.new) (W.failed writer.new) }
    {
        if self.at < self.end {
            return Ok(());
        }
        gather.flush(writer)?;
        let count = reader.read(&mut self.bytes)?;
        self.at = 0;
        self.end = count;
        Ok(())
    }

    fn pop(&mut self) -> Option<u8>
        ensures taken { MatchOption result ((self.old ≡ []) × (self.new ≡ [])) (λ b. self.old ≡ b ∷ self.new) }
        ensures small { length self.new ≤ CHUNK_SIZE }
    {
        if self.at == self.end {
            return None;
        }
        let byte = self.bytes[self.at];
        self.at += 1;
        Some(byte)
    }
}
