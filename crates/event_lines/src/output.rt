//! The text that a run says, on its way to a writer.

ghost use Rattle.std.specs.Prelude.{◌≡◌, ◌≤◌, ◌<◌, ◌+◌, [], ℕ, List, ◌≢◌, take, length, true, false, IfOk, OnOk, MatchResult};
ghost use Rattle.event_lines.specs.Writing.{Writes, Passes, Tears, Puts, Finishes, IsMarked};

use crate::devices::Writer;
use crate::output_buffer::Gather;
use ui_machine::DeviceFault;

// Writes all the bytes, or those before the first write that fails.
fn write_all<W: Writer>(writer: &mut W, bytes: &[u8]) -> Result<(), DeviceFault>
    requires works { W.failed writer.old ≡ false }
    ensures writes { Writes result (W.sent writer.old).bytes (W.sent writer.new).bytes bytes.now }
    ensures once { (W.sent writer.new).writes ≤ (W.sent writer.old).writes + 1 }
    ensures marks { MatchResult result (λ _. W.failed writer.new ≡ false) (λ _. W.failed writer.new ≡ true) }
{
    let mut done = 0;
    while done < bytes.len() {
        let Ok(count) = writer.write(&bytes[done..]) else {
            return Err(DeviceFault);
        };
        done += count;
    }
    Ok(())
}

impl Gather {
    /// Says the bytes. They are gathered, and what is gathered is written each time that there is no room for more. A write that fails is
    /// not tried again.
    ///
    /// # Errors
    ///
    /// `DeviceFault` if a device fails. It is not called again.
    pub fn put<W: Writer>(&mut self, writer: &mut W, bytes: &[u8]) -> Result<(), DeviceFault>
        requires works { W.failed writer.old ≡ false }
        ensures puts { Puts result (W.sent writer.old) self.old (W.sent writer.new) self.new bytes.now }
        ensures marks { MatchResult result (λ _. W.failed writer.new ≡ false) (λ _. W.failed writer.new ≡ true) }
    {
        let mut done = 0;
        while done < bytes.len() {
            let Ok(count) = self.put_some(writer, &bytes[done..]) else {
                return Err(DeviceFault);
            };
            done += count;
        }
        Ok(())
    }

    // Gathers some of the bytes, at least 1, and returns how many.
    fn put_some<W: Writer>(&mut self, writer: &mut W, bytes: &[u8]) -> Result<usize, DeviceFault>
        requires works { W.failed writer.old ≡ false }
        requires some { 0 < length bytes.now }
        ensures bound { IfOk result (λ n. (0 < n) × (n ≤ length bytes.now)) }
        ensures puts { MatchResult result
            (λ n. Passes (W.sent writer.old) self.old (W.sent writer.new) self.new (take n bytes.now))
            (λ _. Tears (W.sent writer.old) self.old (W.sent writer.new) []) }
        ensures marks { MatchResult result (λ _. W.failed writer.new ≡ false) (λ _. W.failed writer.new ≡ true) }
    {
        let Ok(()) = self.make_room(writer) else {
            return Err(DeviceFault);
        };
        let count = self.push_front_of(bytes);
        Ok(count)
    }

    // Writes what is gathered if there is no room for more.
    fn make_room<W: Writer>(&mut self, writer: &mut W) -> Result<(), DeviceFault>
        requires works { W.failed writer.old ≡ false }
        ensures room { OnOk result (length self.new < 4096) }
        ensures puts { Puts result (W.sent writer.old) self.old (W.sent writer.new) self.new [] }
        ensures marks { MatchResult result (λ _. W.failed writer.new ≡ false) (λ _. W.failed writer.new ≡ true) }
    {
        if self.is_full() {
            return self.flush(writer);
        }
        Ok(())
    }

    /// Writes all that is gathered, in one piece, or what comes before the first write that fails.
    ///
    /// # Errors
    ///
    /// `DeviceFault` if a device fails. It is not called again.
    pub fn flush<W: Writer>(&mut self, writer: &mut W) -> Result<(), DeviceFault>
        requires works { W.failed writer.old ≡ false }
        ensures empty { OnOk result (self.new ≡ []) }
        ensures writes { Writes result (W.sent writer.old).bytes (W.sent writer.new).bytes self.old }
        ensures once { (W.sent writer.new).writes ≤ (W.sent writer.old).writes + 1 }
        ensures marks { MatchResult result (λ _. W.failed writer.new ≡ false) (λ _. W.failed writer.new ≡ true) }
    {
        let Ok(()) = write_all(writer, self.as_slice()) else {
            return Err(DeviceFault);
        };
        self.clear();
        Ok(())
    }

    /// Writes all that is gathered, and returns the status of the run: the one given, or 4 if a write failed.
    pub fn finish<W: Writer>(&mut self, writer: &mut W, status: u8) -> u8
        requires works { W.failed writer.old ≡ false }
        requires fine { status ≢ 4 }
        ensures finishes { Finishes status result (W.failed writer.new) (W.sent writer.old) self.old (W.sent writer.new) }
        ensures marks { IsMarked result (W.failed writer.new) }
    {
        let Ok(()) = self.flush(writer) else {
            return 4;
        };
        status
    }
}
