//! The one line and the status with which the program ends if it runs nothing.

ghost use Rattle.std.specs.Prelude.{◌≡◌, [], true, false, MatchResult};
ghost use Rattle.event_lines.specs.Endings.{ending_line, ending_status};
ghost use Rattle.event_lines.specs.Writing.{Writes, Puts, IsTold};

use crate::devices::Writer;
use crate::output_buffer::Gather;
use crate::writing::put_parts;
use ui_machine::DeviceFault;

/// The reason why nothing is run.
#[derive(Clone, Copy, Debug, PartialEq, Eq)]
pub enum Ending {
    /// The words of the command line make no request.
    Usage,
    /// The definition can't be read, or the events can't be opened.
    Unreadable,
    /// Memory for the words or for the bytes of the definition was refused.
    OutOfMemory,
}

impl Ending {
    /// Writes the line, with the name of the file that can't be read, and returns the status: 2 for the words of the command line and 4 for
    /// a file, whether or not the line was lost. For want of memory it is 3, or 4 if the line was lost.
    pub fn tell<W: Writer>(self, writer: &mut W, name: &str) -> u8
        requires works { W.failed writer.old ≡ false }
        ensures text { IsTold (W.failed writer.new) (W.sent writer.old).bytes (W.sent writer.new).bytes (ending_line self name.now) }
        ensures status { result ≡ ending_status self (W.failed writer.new) }
    {
        let Ok(()) = self.write(writer, name) else {
            return self.status(true);
        };
        self.status(false)
    }

    fn write<W: Writer>(self, writer: &mut W, name: &str) -> Result<(), DeviceFault>
        requires works { W.failed writer.old ≡ false }
        ensures writes { Writes result (W.sent writer.old).bytes (W.sent writer.new).bytes (ending_line self name.now) }
        ensures marks { MatchResult result (λ _. W.failed writer.new ≡ false) (λ _. W.failed writer.new ≡ true) }
    {
        let mut gather = Gather::new();
        let Ok(()) = self.put(&mut gather, writer, name) else {
            return Err(DeviceFault);
        };
        gather.flush(writer)
    }

    fn put<W: Writer>(
        self,
        gather: &mut Gather,
        writer: &mut W,
        name: &str,
    ) -> Result<(), DeviceFault>
        requires works { W.failed writer.old ≡ false }
        ensures puts { Puts result (W.sent writer.old) gather.old (W.sent writer.new) gather.new (ending_line self name.now) }
        ensures marks { MatchResult result (λ _. W.failed writer.new ≡ false) (λ _. W.failed writer.new ≡ true) }
    {
        let name = name.as_bytes();
        match self {
            Ending::Usage => return put_parts(
                gather,
                writer,
                &[b"usage: ui verify DEF | ui run DEF EVENTS", name, b"\n"],
            ),
            Ending::Unreadable => return put_parts(gather, writer, &[b"cannot read ", name, b"\n"]),
            Ending::OutOfMemory => return put_parts(
                gather,
                writer,
                &[b"refused: OutOfMemory", name, b"\n"],
            ),
        }
    }

    fn status(self, lost: bool) -> u8
        ensures { result ≡ ending_status self lost }
    {
        match self {
            Ending::Usage => 2,
            Ending::Unreadable => 4,
            Ending::OutOfMemory if lost => 4,
            Ending::OutOfMemory => 3,
        }
    }
}
