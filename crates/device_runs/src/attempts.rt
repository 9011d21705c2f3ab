//! Runs over scripted devices.

use crate::scripted_feed::ScriptedFeed;
use crate::scripted_sink::ScriptedSink;
use event_lines::{Counted, run};
use native_peers::PeerPool;
use std::alloc::{AllocError, Global};

/// The script of a run: what fails in it, and how much a write takes.
#[derive(Drop)]
pub struct Script {
    read: Option<u64>,
    write: Option<u64>,
    most: usize,
}

impl Script {
    /// Creates a script by which nothing fails and a write takes all.
    pub fn whole() -> Script {
        Script {
            read: None,
            write: None,
            most: usize::MAX,
        }
    }

    /// Creates a script by which the read with this number fails, counted from 0.
    pub fn failing_read(number: u64) -> Script {
        Script {
            read: Some(number),
            write: None,
            most: usize::MAX,
        }
    }

    /// Creates a script by which the write with this number fails, counted from 0.
    pub fn failing_write(number: u64) -> Script {
        Script {
            read: None,
            write: Some(number),
            most: usize::MAX,
        }
    }

    /// Creates a script by which a write takes at most so many bytes.
    pub fn taking(most: usize) -> Script {
        Script {
            read: None,
            write: None,
            most,
        }
    }
}

/// The bytes of a definition and of its events.
#[derive(Drop)]
pub struct Case<'a> {
    pub definition: &'a [u8],
    pub events: &'a [u8],
}

/// The status of a run, and what it did.
#[derive(Drop)]
pub struct Attempt {
    pub status: u8,
    pub written: Vec<u8>,
    pub reads: u64,
    pub writes: u64,
}

impl Case<'_> {
    /// Runs the definition without peers over its events, with the failures of the script.
    pub fn attempt(&self, alloc: Global, script: Script) -> Attempt {
        let mut reader = Counted::new(ScriptedFeed::new(self.events, script.read));
        let mut writer = Counted::new(ScriptedSink::new(alloc, script.most, script.write));
        let mut pool = PeerPool::new(alloc);
        let status = run(alloc, self.definition, &mut pool, &mut reader, &mut writer);
        Attempt {
            status,
            written: writer.device.taken,
            reads: reader.calls,
            writes: writer.calls,
        }
    }
}

impl Attempt {
    /// Returns a text that compares what was written with what is written where nothing fails.
    ///
    /// # Errors
    ///
    /// `AllocError` if memory is refused.
    pub fn beside(&self, alloc: Global, whole: &Attempt) -> Result<String, AllocError> {
        let bytes = self.written.len();
        if self.written.as_slice() == whole.written.as_slice() {
            return String::from_str(alloc, "all is written");
        }
        if whole
            .written
            .as_slice()
            .starts_with(self.written.as_slice())
        {
            return format!(in alloc; "the first {bytes} bytes are written");
        }
        format!(in alloc; "{bytes} other bytes are written")
    }
}
