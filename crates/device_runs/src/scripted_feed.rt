//! A feed of which one read fails, given by its number.

ghost use Rattle.std.specs.Prelude.{false, ◌≡◌};

use ui_machine::{DeviceFault, Feed};

/// The greatest number of bytes that one read gives, which is small so that a run has several reads.
const PIECE_SIZE: usize = 16;

/// A feed that gives bytes in small pieces. The read with number `fails_at` fails, if there is one.
#[derive(Drop)]
pub struct ScriptedFeed<'a> {
    left: &'a [u8],
    reads: u64,
    fails_at: Option<u64>,
    failed: bool,
}

impl<'a> ScriptedFeed<'a> {
    /// Creates a feed of these bytes, of which nothing was read.
    pub fn new(bytes: &'a [u8], fails_at: Option<u64>) -> ScriptedFeed<'a>
        ensures { result.failed ≡ false }
    {
        ScriptedFeed {
            left: bytes,
            reads: 0,
            fails_at,
            failed: false,
        }
    }
}

impl Feed for ScriptedFeed<'_> {
    ghost use Rattle.std.specs.Prelude.{None};

    ghost left = { λ _. None };

    ghost failed = { λ feed. feed.failed };

    fn read(&mut self, buf: &mut [u8]) -> Result<usize, DeviceFault> {
        let number = self.reads;
        self.reads = number.saturating_add(1);
        if self.fails_at == Some(number) {
            self.failed = true;
            return Err(DeviceFault);
        }
        let count = self.left.len().min(buf.len()).min(PIECE_SIZE);
        buf[..count].copy_from_slice(&self.left[..count]);
        self.left = &self.left[count..];
        Ok(count)
    }

    fn has_failed(&self) -> bool {
        self.failed
    }
}
