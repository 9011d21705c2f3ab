//! The transfers of a notification that are left.

ghost use Rattle.std.specs.Prelude.{◌≡◌, [], ◌∷◌, ◌++◌, reverse, MatchOption, OnOk};
ghost use Rattle.bindings.specs.Due.{from_ready};

use crate::list::Bindings;
use std::alloc::{AllocError, Global};
use std::marker::Model;
use ui_machine::Slot;

/// A transfer that is due, by the number of its binding and its direction.
#[derive(Clone, Copy, Debug, PartialEq, Eq)]
pub struct DueTransfer {
    pub number: u64,
    /// Whether the value goes from the target back to the source.
    pub back: bool,
}

/// The transfers that a notification has still to make, in document order. They are stored in reverse: the last is made first.
#[derive(Debug, Drop)]
pub struct DueTransfers {
    left: Vec<DueTransfer>,
    /// The slot of the property that was notified.
    slot: Slot,
}

impl Model for DueTransfers {
    ghost use Rattle.std.specs.Prelude.{List, reverse};
    ghost use Rattle.bindings.specs.declared.due.DueTransfer.{DueTransfer};

    ghost Value = { List DueTransfer };

    ghost view = { λ d. reverse d.left.items };
}

impl DueTransfers {
    /// Creates a list without transfers. Takes no memory.
    pub fn new(alloc: Global) -> Self
        ensures { result ≡ [] }
    {
        DueTransfers {
            left: Vec::new(alloc),
            slot: 0,
        }
    }

    /// Uses an empty list for the transfers of a property's notification.
    pub(crate) fn in_list(left: Vec<DueTransfer>, slot: Slot) -> Self
        requires { left.items ≡ [] }
        ensures { result ≡ [] }
    {
        DueTransfers { left, slot }
    }

    /// Returns whether there is an allocated list, even if no transfers are left in it.
    pub(crate) fn has_list(&self) -> bool {
        self.left.capacity() > 0
    }

    /// Returns the list and the slot of the property that was notified.
    pub(crate) fn into_list(self) -> (Vec<DueTransfer>, Slot) {
        (self.left, self.slot)
    }

    /// Removes all transfers. The list keeps its memory.
    pub fn clear(&mut self)
        ensures { self.new ≡ [] }
    {
        self.left.clear();
    }

    // Puts a transfer before the others.
    pub(crate) fn put_first(&mut self, transfer: DueTransfer) -> Result<(), AllocError>
        ensures { OnOk result (self.new ≡ transfer ∷ self.old) }
    {
        self.left.push(transfer)?;
        Ok(())
    }

    /// Takes the next transfer, and passes over those whose binding has ended or is setting. Returns `None` if none is left.
    pub fn take_next(&mut self, bindings: &Bindings) -> Option<DueTransfer>
        ensures { MatchOption result
            ((from_ready bindings.now.bindings self.old ≡ []) × (self.new ≡ []))
            (λ transfer. from_ready bindings.now.bindings self.old ≡ transfer ∷ self.new) }
    {
        while let Some(transfer) = self.left.pop() {
            if bindings.is_ready(transfer.number) {
                return Some(transfer);
            }
        }
        None
    }
}
