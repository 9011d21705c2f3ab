//! The lines in the bytes of a reader.

ghost use Rattle.std.specs.Prelude.{◌≡◌, ◌≤◌, ◌⊎◌, length, IfOk, OnErr, OnOk, false};
ghost use Rattle.std.specs.Io.KnownBytes.{prepend_known};
ghost use Rattle.event_lines.specs.Reading.{WhereKnown, Reads, IsBegun, IsLate};
ghost use Rattle.event_lines.specs.Writing.{Waits, IsFine};

use crate::MAX_LINE_BYTES;
use crate::chunk::{CHUNK_SIZE, Chunk};
use crate::devices::{Reader, Writer};
use crate::output_buffer::Gather;
use ui_machine::DeviceFault;

/// What was found as the next line.
#[derive(Clone, Copy, Debug, PartialEq, Eq)]
pub enum Found {
    /// The line is in the buffer.
    Whole,
    /// The line has more than `MAX_LINE_BYTES` bytes. One byte past the limit was taken, and no more.
    TooLong,
    /// Memory for the line was refused.
    NoMemory,
}

/// A reader of one line after the other. Each line ends with LF, which the last one may lack.
#[derive(Drop)]
pub struct LineReader {
    pub chunk: Chunk,
    pub line: Vec<u8>,
}

impl LineReader {
    /// Reads the next line into the buffer, or returns None at the end. It reads no further than a chunk past the line, or if the line is
    /// too long, a chunk past the limit. Before each read all that was said is written.
    ///
    /// # Errors
    ///
    /// `DeviceFault` if a device fails. It is not called again.
    pub fn next_line<R: Reader, W: Writer>(
        &mut self,
        reader: &mut R,
        gather: &mut Gather,
        writer: &mut W,
    ) -> Result<Option<Found>, DeviceFault>
        requires reader { R.failed reader.old ≡ false }
        requires writer { W.failed writer.old ≡ false }
        ensures reads { IfOk result (λ found.
            Reads found self.new.line.items (prepend_known self.old.chunk (R.left reader.old)) (prepend_known self.new.chunk (R.left reader.new))) }
        ensures begun { OnErr result (WhereKnown (prepend_known self.old.chunk (R.left reader.old)) (R.left reader.new) (λ xs ys. IsBegun xs ys)) }
        ensures small { length self.new.chunk ≤ CHUNK_SIZE }
        ensures late { OnOk result ((reader.new ≡ reader.old) ⊎ WhereKnown (prepend_known self.old.chunk (R.left reader.old)) (R.left reader.new) (λ xs ys. IsLate xs ys)) }
        ensures waits { Waits (reader.new ≡ reader.old) (R.reads reader.old) (R.reads reader.new) (W.failed writer.new)
            (W.sent writer.old) gather.old (W.sent writer.new) gather.new }
        ensures marks { IsFine result (R.failed reader.new) (W.failed writer.new) }
    {
        self.line.clear();
        loop {
            let Some(byte) = self.chunk.next(reader, gather, writer)? else {
                if self.line.is_empty() {
                    return Ok(None);
                }
                return Ok(Some(Found::Whole));
            };
            if byte == b'\n' {
                return Ok(Some(Found::Whole));
            }
            if self.line.len() >= MAX_LINE_BYTES {
                return Ok(Some(Found::TooLong));
            }
            let Ok(()) = self.line.push(byte) else {
                return Ok(Some(Found::NoMemory));
            };
        }
    }
}
