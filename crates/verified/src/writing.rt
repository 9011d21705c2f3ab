//! Writes lines to a writer.

ghost use Rattle.std.specs.Prelude.{◌≡◌, ◌∷◌, [], true, false, string_bytes, MatchResult};
ghost use Rattle.verified.specs.Writing.{IsMarked, Reports, Writes};

use crate::faults::ReportFault;
use ui_machine::{DeviceFault, Sink};

// Writes all the bytes, or those that come before the first write that fails.
fn write_all<W: Sink>(writer: &mut W, bytes: &[u8]) -> Result<(), DeviceFault>
    requires works { W.failed writer.old ≡ false }
    ensures writes { Writes result (W.taken writer.old) (W.taken writer.new) bytes.now }
    ensures marks { MatchResult result (λ _. W.failed writer.new ≡ false) (λ _. W.failed writer.new ≡ true) }
{
    let mut done = 0;
    while done < bytes.len() {
        let Ok(count) = writer.write(&bytes[done..]) else {
            return Err(DeviceFault);
        };
        done += count;
    }
    Ok(())
}

/// Writes a line and its LF, in one piece if the writer takes it so.
///
/// # Errors
///
/// Returns `WriteFault` if a write failed, after a part of the line. Returns `OutOfMemory` if memory for the LF is refused, before any of
/// it.
pub(crate) fn write_line<W: Sink>(writer: &mut W, mut line: String) -> Result<(), ReportFault>
    requires works { W.failed writer.old ≡ false }
    ensures writes { Reports result (W.taken writer.old) (W.taken writer.new) (string_bytes line ∷ []) }
    ensures marks { IsMarked result (W.failed writer.new) }
{
    line.push_str("\n")?;
    write_all(writer, line.as_bytes())?;
    Ok(())
}
