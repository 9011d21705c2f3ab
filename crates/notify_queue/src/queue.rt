//! A count of freezes and a queue of slots.

ghost use Rattle.std.specs.Prelude.{◌≡◌, ◌+◌, ◌-◌, ◌^◌, ◌<◌, ◌↔◌, [], IsTrue, IsSome, IfSome, IfNone, OnOk, OnErr, reverse};
ghost use Rattle.ui_machine.specs.Rules.NotifyQueue.{queued, thawed};

use std::alloc::{AllocError, Global};
use std::marker::Model;
use std::mem;
use ui_machine::Slot;

/// The freeze count of an object, and the slots whose notifications wait.
#[derive(Debug, Drop)]
pub struct NotifyQueue {
    freezes: u64,
    slots: Vec<Slot>,
}

impl Model for NotifyQueue {
    ghost use Rattle.notify_queue.specs.Waiting.{Waiting};

    ghost Value = { Waiting };

    ghost view = { λ q. record { freezes = q.freezes; queue = q.slots.items } };
}

impl NotifyQueue {
    /// Creates an empty queue that is not frozen. Takes no memory.
    pub fn new(alloc: Global) -> Self
        ensures { result ≡ record { freezes = 0; queue = [] } }
    {
        NotifyQueue {
            freezes: 0,
            slots: Vec::new(alloc),
        }
    }

    /// Returns whether notifications are to be queued, which is if the count is above zero.
    pub fn is_frozen(&self) -> bool
        ensures { IsTrue result ↔ (0 < self.now.freezes) }
    {
        self.freezes != 0
    }

    /// Returns whether one more freeze is possible, which is if the count is below `u64::MAX`.
    pub fn can_freeze(&self) -> bool
        ensures { IsTrue result ↔ (self.now.freezes < 2 ^ 64 - 1) }
    {
        self.freezes < u64::MAX
    }

    /// Increments the freeze count. The queue stays as it is.
    pub fn freeze(&mut self)
        requires { self.old.freezes < 2 ^ 64 - 1 }
        ensures { self.new ≡ record self.old { freezes = self.old.freezes + 1 } }
    {
        self.freezes += 1;
    }

    /// Decrements the freeze count. If it reaches zero, returns the whole queue and leaves an empty one, otherwise returns `None`. The
    /// slots are in the order in which they were first queued, and are to be notified from the last to the first.
    pub fn thaw(&mut self) -> Option<Vec<Slot>>
        requires { 0 < self.old.freezes }
        ensures count { self.new.freezes + 1 ≡ self.old.freezes }
        ensures last { IsSome result ↔ (self.new.freezes ≡ 0) }
        ensures taken { IfSome result (λ slots. slots.items ≡ self.old.queue) }
        ensures order { IfSome result (λ slots. reverse slots.items ≡ thawed self.old.queue) }
        ensures emptied { IfSome result (λ _. self.new.queue ≡ []) }
        ensures kept { IfNone result (self.new.queue ≡ self.old.queue) }
    {
        self.freezes -= 1;
        if self.freezes > 0 {
            return None;
        }
        let empty = Vec::new(*self.slots.allocator());
        Some(mem::replace(&mut self.slots, empty))
    }

    /// Queues the notification of a slot, unless it is queued already.
    ///
    /// # Errors
    ///
    /// `AllocError` if memory is refused. The queue is unchanged then.
    pub fn add(&mut self, slot: Slot) -> Result<(), AllocError>
        ensures ok { OnOk result (self.new ≡ record self.old { queue = queued self.old.queue slot }) }
        ensures err { OnErr result (self.new ≡ self.old) }
    {
        if !self.slots.contains(&slot) {
            self.slots.push(slot)?;
        }
        Ok(())
    }
}
