//! Counts of the handlers that bytecode has connected.

ghost use Rattle.std.specs.Prelude.{◌≡◌, ◌+◌, ◌-◌, ◌<◌, ◌^◌, OnErr, OnOk, ℕ};
ghost use Rattle.signal_core.specs.Kept.{count_at, one_at};

use std::alloc::{AllocError, Global};
use std::collections::BTreeMap;

/// For each signal of each object, how many of the handlers connected to it were connected by bytecode.
#[derive(Debug, Drop)]
pub(crate) struct CodeCounts {
    counts: BTreeMap<(u64, u64), usize>,
}

impl CodeCounts {
    /// Creates counts that are all 0. Takes no memory.
    pub(crate) fn new(alloc: Global) -> Self
        ensures { (o s : ℕ) → count_at result o s ≡ 0 }
    {
        CodeCounts {
            counts: BTreeMap::new(alloc),
        }
    }

    /// Returns the count for a signal of an object.
    pub(crate) fn count(&self, object: u64, signal: u64) -> usize
        ensures { result ≡ count_at self.now object signal }
    {
        match self.counts.get(&(object, signal)) {
            Some(count) => *count,
            None => 0,
        }
    }

    /// Raises the count for a signal of an object by one.
    pub(crate) fn add(&mut self, object: u64, signal: u64) -> Result<(), AllocError>
        requires { count_at self.old object signal < 2 ^ 64 - 1 }
        ensures ok { OnOk result ((o s : ℕ) → count_at self.new o s ≡ count_at self.old o s + one_at object signal o s) }
        ensures err { OnErr result ((o s : ℕ) → count_at self.new o s ≡ count_at self.old o s) }
    {
        let count = self.count(object, signal) + 1;
        self.counts.insert((object, signal), count)?;
        Ok(())
    }

    /// Lowers the count for a signal of an object by one, unless it is 0.
    pub(crate) fn remove(&mut self, object: u64, signal: u64)
        ensures { (o s : ℕ) → count_at self.new o s ≡ count_at self.old o s - one_at object signal o s }
    {
        let key = (object, signal);
        if self.count(object, signal) <= 1 {
            self.counts.remove(&key);
            return;
        }
        if let Some(count) = self.counts.get_mut(&key) {
            *count -= 1;
        }
    }
}
