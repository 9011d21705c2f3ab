//! Calls of the crate `notify_queue`.

use crate::call_faults::CallFault;
use crate::words::{seen, small_number};
use notify_queue::NotifyQueue;
use std::alloc::Global;

/// The queue of the notifications of an object.
#[derive(Drop)]
pub struct QueueCalls {
    queue: NotifyQueue,
}

impl QueueCalls {
    pub fn new(alloc: Global) -> Self {
        QueueCalls {
            queue: NotifyQueue::new(alloc),
        }
    }

    /// Answers a call: `freeze`, `thaw`, `is_frozen`, `add SLOT`.
    ///
    /// # Errors
    ///
    /// Returns `Line` if the words are not a call, or if the queue is thawed while it is not frozen or can't be frozen once more.
    pub fn answer(&mut self, alloc: Global, call: &str, words: &str) -> Result<String, CallFault> {
        match call {
            "freeze" if self.queue.can_freeze() => {
                self.queue.freeze();
                seen(alloc, &())
            }
            "thaw" if self.queue.is_frozen() => seen(alloc, &self.queue.thaw()),
            "is_frozen" => seen(alloc, &self.queue.is_frozen()),
            "add" => {
                self.queue.add(small_number(words)?)?;
                seen(alloc, &())
            }
            _ => Err(CallFault::Line),
        }
    }
}
