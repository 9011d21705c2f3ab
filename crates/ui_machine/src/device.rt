//! The devices that bytes come from and go to.
//!
//! A [`Feed`] gives bytes and a [`Sink`] takes them. A call of either may fail, and the device remembers that it did. So its lender can
//! find out afterwards whether a run broke off because a device failed.

ghost use Rattle.std.specs.Prelude.{◌≡◌, ◌<◌, ℕ, Bool, true, false, List, Option, length, IfOk, MatchResult};
ghost use Rattle.std.specs.Io.{ReadsAtMost, WritesAtMost};
ghost use Rattle.std.specs.Io.KnownBytes.{ReadConsumes, WriteAppends};

use std::io::{Read, Write};

/// A read or a write that failed.
#[derive(Clone, Copy, Debug, PartialEq, Eq)]
pub struct DeviceFault;

/// A device that gives bytes in their order.
pub trait Feed {
    /// The bytes that reads will give from here on, where they are known.
    ghost left: { Self → Option (List ℕ) };

    /// Whether a read has failed.
    ghost failed: { Self → Bool };

    /// Reads some bytes into the front of `buf`, and returns how many. There are none only at the end, or if `buf` is empty.
    ///
    /// # Errors
    ///
    /// Returns `DeviceFault` if the read fails. It takes no bytes and marks the feed as failed. After it no more reads may be made.
    fn read(&mut self, buf: &mut [u8]) -> Result<usize, DeviceFault>
        requires works { failed self.old ≡ false }
        ensures bound { ReadsAtMost result buf.new }
        ensures bytes { ReadConsumes (left self.old) (left self.new) result buf.new }
        ensures marks { MatchResult result (λ _. failed self.new ≡ false) (λ _. failed self.new ≡ true) };

    /// Returns whether a read has failed.
    fn has_failed(&self) -> bool
        ensures { result ≡ failed self.now };
}

/// A device that takes bytes in their order.
pub trait Sink {
    /// The bytes that it has taken, where they are known.
    ghost taken: { Self → Option (List ℕ) };

    /// Whether a write has failed.
    ghost failed: { Self → Bool };

    /// Takes a front of `bytes`, and returns how long it is: at least 1, unless `bytes` is empty.
    ///
    /// # Errors
    ///
    /// Returns `DeviceFault` if the write fails. It takes no bytes and marks the sink as failed. After it no more writes may be made.
    fn write(&mut self, bytes: &[u8]) -> Result<usize, DeviceFault>
        requires works { failed self.old ≡ false }
        ensures bound { WritesAtMost result bytes.now }
        ensures some { IfOk result (λ n. 0 < length bytes.now → 0 < n) }
        ensures bytes { WriteAppends (taken self.old) (taken self.new) result bytes.now }
        ensures marks { MatchResult result (λ _. failed self.new ≡ false) (λ _. failed self.new ≡ true) };

    /// Returns whether a write has failed.
    fn has_failed(&self) -> bool
        ensures { result ≡ failed self.now };
}

/// A reader or a writer of std that remembers whether a call of it has failed.
#[derive(Drop)]
pub struct Device<T: Drop> {
    pub inner: T,
    pub failed: bool,
}

impl<T: Drop> Device<T> {
    /// Wraps a reader or a writer of which no call has failed.
    pub fn new(inner: T) -> Device<T>
        ensures same { result.inner ≡ inner }
        ensures works { result.failed ≡ false }
    {
        Device {
            inner,
            failed: false,
        }
    }
}

impl<T: Read + Drop> Feed for Device<T> {
    ghost left = { λ d. T.remaining d.inner };

    ghost failed = { λ d. d.failed };

    /// Takes any error of the reader as a failed call, which is not tried again.
    fn read(&mut self, buf: &mut [u8]) -> Result<usize, DeviceFault> {
        let Ok(count) = self.inner.read(buf) else {
            self.failed = true;
            return Err(DeviceFault);
        };
        Ok(count)
    }

    fn has_failed(&self) -> bool {
        self.failed
    }
}

impl<T: Write + Drop> Sink for Device<T> {
    ghost taken = { λ d. T.contents d.inner };

    ghost failed = { λ d. d.failed };

    /// Takes any error of the writer as a failed call, and also a write that takes none of some bytes.
    fn write(&mut self, bytes: &[u8]) -> Result<usize, DeviceFault> {
        let Ok(count) = self.inner.write(bytes) else {
            self.failed = true;
            return Err(DeviceFault);
        };
        if count == 0 && !bytes.is_empty() {
            self.failed = true;
            return Err(DeviceFault);
        }
        Ok(count)
    }

    fn has_failed(&self) -> bool {
        self.failed
    }
}
