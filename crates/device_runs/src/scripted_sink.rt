//! A sink of which one write fails, given by its number.

ghost use Rattle.std.specs.Prelude.{false, ◌≡◌};

use std::alloc::Global;
use ui_machine::{DeviceFault, Sink};

/// A sink that takes at most `most` bytes a write, and keeps them. The write with number `fails_at` fails, if there is one, and so does a
/// write that takes none of some bytes.
#[derive(Drop)]
pub struct ScriptedSink {
    pub taken: Vec<u8>,
    most: usize,
    writes: u64,
    fails_at: Option<u64>,
    failed: bool,
}

impl ScriptedSink {
    /// Creates a sink that has taken nothing.
    pub fn new(alloc: Global, most: usize, fails_at: Option<u64>) -> ScriptedSink
        ensures { result.failed ≡ false }
    {
        ScriptedSink {
            taken: Vec::new(alloc),
            most,
            writes: 0,
            fails_at,
            failed: false,
        }
    }
}

impl Sink for ScriptedSink {
    ghost use Rattle.std.specs.Prelude.{None};

    ghost taken = { λ _. None };

    ghost failed = { λ sink. sink.failed };

    fn write(&mut self, bytes: &[u8]) -> Result<usize, DeviceFault> {
        let number = self.writes;
        self.writes = number.saturating_add(1);
        let count = bytes.len().min(self.most);
        if self.fails_at == Some(number) || (count == 0 && !bytes.is_empty()) {
            self.failed = true;
            return Err(DeviceFault);
        }
        let Ok(()) = self.taken.extend_from_slice(&bytes[..count]) else {
            self.failed = true;
            return Err(DeviceFault);
        };
        Ok(count)
    }

    fn has_failed(&self) -> bool {
        self.failed
    }
}
