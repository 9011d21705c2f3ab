//! Devices whose calls are counted.

ghost use Rattle.std.specs.Prelude.{◌≡◌, ◌<◌, ◌+◌, ◌||◌, ℕ, Bool, true, false, List, Option, length, nat_eq, IfOk, MatchResult};
ghost use Rattle.std.specs.Io.{ReadsAtMost, WritesAtMost};
ghost use Rattle.std.specs.Io.KnownBytes.{ReadConsumes, WriteAppends};
ghost use Rattle.law_typing.specs.Verdict.Accepted.{Accepted};
ghost use Rattle.verified.specs.Lines.{report_of};
ghost use Rattle.verified.specs.Writing as reports;
ghost use Rattle.verified.specs.Writing.{Reports};
ghost use Rattle.event_lines.specs.Writing.{Sent, CountsWrite};

use std::alloc::Global;
use ui_machine::{DeviceFault, Feed, Sink};
use verified::{ReportFault, Verified};

/// A feed that counts its reads.
pub trait Reader {
    /// The bytes that reads will give from here on, where they are known.
    ghost left: { Self → Option (List ℕ) };

    /// How many reads there were.
    ghost reads: { Self → ℕ };

    /// Whether a read has failed.
    ghost failed: { Self → Bool };

    /// Reads some bytes into the front of `buf`, and returns how many. There are none only at the end, or if `buf` is empty. A fault takes
    /// none and marks the reader as failed. After it no more reads may be made.
    fn read(&mut self, buf: &mut [u8]) -> Result<usize, DeviceFault>
        requires works { failed self.old ≡ false }
        ensures bound { ReadsAtMost result buf.new }
        ensures bytes { ReadConsumes (left self.old) (left self.new) result buf.new }
        ensures counts { reads self.new ≡ reads self.old + 1 }
        ensures marks { MatchResult result (λ _. failed self.new ≡ false) (λ _. failed self.new ≡ true) };
}

/// A sink that counts its writes.
pub trait Writer {
    /// The bytes that it has taken, where they are known, and how many writes there were. A write that took only a part of its bytes is not
    /// counted. Where a sink always takes all that it is given, these are all its writes.
    ghost sent: { Self → Sent };

    /// Whether a write has failed.
    ghost failed: { Self → Bool };

    /// Takes a front of `bytes`, and returns how long it is: at least 1, unless `bytes` is empty. A fault takes none and marks the writer
    /// as failed. After it no more writes may be made.
    fn write(&mut self, bytes: &[u8]) -> Result<usize, DeviceFault>
        requires works { failed self.old ≡ false }
        ensures bound { WritesAtMost result bytes.now }
        ensures some { IfOk result (λ n. 0 < length bytes.now → 0 < n) }
        ensures bytes { WriteAppends (sent self.old).bytes (sent self.new).bytes result bytes.now }
        ensures counts { CountsWrite result (length bytes.now) (sent self.old).writes (sent self.new).writes }
        ensures marks { MatchResult result (λ _. failed self.new ≡ false) (λ _. failed self.new ≡ true) };

    /// Writes the report of a verified definition, line by line.
    ///
    /// # Errors
    ///
    /// Returns `WriteFault` if a write fails, after a front of the report's bytes, and `OutOfMemory` if memory for a line is refused, after
    /// the lines before that one.
    fn write_report(&mut self, alloc: Global, verified: &Verified) -> Result<(), ReportFault>
        requires works { failed self.old ≡ false }
        ensures lines { (a : Accepted verified.now) → Reports result (sent self.old).bytes (sent self.new).bytes (report_of verified.now a) }
        ensures marks { reports.IsMarked result (failed self.new) };
}

/// A feed or a sink, with the number of its calls so far. A call that can't be counted fails.
#[derive(Drop)]
pub struct Counted<D: Drop> {
    pub device: D,
    pub calls: u64,
}

impl<D: Drop> Counted<D> {
    /// Wraps a device that was not called.
    pub fn new(device: D) -> Counted<D>
        ensures same { result.device ≡ device }
        ensures uncalled { result.calls ≡ 0 }
    {
        Counted { device, calls: 0 }
    }
}

impl<D: Feed + Drop> Reader for Counted<D> {
    ghost left = { λ c. D.left c.device };

    ghost reads = { λ c. c.calls };

    ghost failed = { λ c. D.failed c.device || nat_eq c.calls 18446744073709551615 };

    fn read(&mut self, buf: &mut [u8]) -> Result<usize, DeviceFault> {
        self.calls += 1;
        if self.calls == u64::MAX {
            return Err(DeviceFault);
        }
        self.device.read(buf)
    }
}

impl<D: Sink + Drop> Writer for Counted<D> {
    ghost sent = { λ c. record { bytes = D.taken c.device; writes = c.calls } };

    ghost failed = { λ c. D.failed c.device || nat_eq c.calls 18446744073709551615 };

    fn write(&mut self, bytes: &[u8]) -> Result<usize, DeviceFault> {
        let calls = self.calls + 1;
        if calls == u64::MAX {
            self.calls = calls;
            return Err(DeviceFault);
        }
        let Ok(count) = self.device.write(bytes) else {
            self.calls = calls;
            return Err(DeviceFault);
        };
        if count == bytes.len() {
            self.calls = calls;
        }
        Ok(count)
    }

    fn write_report(&mut self, alloc: Global, verified: &Verified) -> Result<(), ReportFault> {
        verified.report(alloc, self)
    }
}

impl<D: Sink + Drop> Sink for Counted<D> {
    ghost taken = { λ c. D.taken c.device };

    ghost failed = { λ c. D.failed c.device || nat_eq c.calls 18446744073709551615 };

    fn write(&mut self, bytes: &[u8]) -> Result<usize, DeviceFault> {
        Writer::write(self, bytes)
    }

    fn has_failed(&self) -> bool {
        self.device.has_failed() || self.calls == u64::MAX
    }
}
