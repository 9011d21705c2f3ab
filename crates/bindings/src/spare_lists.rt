//! Lists of transfers that are kept and reused from notification to notification.

ghost use Rattle.std.specs.Prelude.{◌≡◌, [], OnOk};

use crate::binding::Binding;
use crate::due::DueTransfer;
use crate::flags::BindingFlags;
use bitflags::Flags;
use std::alloc::{AllocError, Global};
use std::collections::BTreeMap;
use std::marker::Model;
use std::mem;
use ui_machine::{ObjectId, Slot};

// The list of a property, which is empty while a notification has it, and the number of bindings made that listen at the property.
#[derive(Debug, Drop)]
struct SpareList {
    listeners: usize,
    transfers: Vec<DueTransfer>,
}

impl SpareList {
    // Reserves room for the transfer of one more binding.
    fn add_listener(&mut self) -> Result<(), AllocError> {
        self.listeners = self.listeners.saturating_add(1);
        if self.transfers.capacity() < self.listeners {
            self.transfers.clear();
            self.transfers.reserve(self.listeners)?;
        }
        Ok(())
    }
}

/// For each property at which bindings listen, a list with room for the transfers of all of them. A contract sees nothing of the lists.
///
/// A notification takes the list of its property and gives it back. While one notification has it, another one of the same property finds
/// none.
#[derive(Debug, Drop)]
pub(crate) struct SpareLists {
    by_property: BTreeMap<(u64, Slot), SpareList>,
}

impl Model for SpareLists {
    ghost use Rattle.std.specs.Prelude.{⊤};

    ghost Value = { ⊤ };

    ghost view = { λ s. tt };
}

impl SpareLists {
    /// Creates a collection without lists. Takes no memory.
    pub(crate) fn new(alloc: Global) -> Self {
        SpareLists {
            by_property: BTreeMap::new(alloc),
        }
    }

    /// Reserves room for the transfers of a binding at each property at which it is to listen.
    ///
    /// # Errors
    ///
    /// `AllocError` if memory is refused.
    pub(crate) fn add(&mut self, alloc: Global, binding: &Binding) -> Result<(), AllocError> {
        self.add_listener(alloc, binding.source, binding.source_slot)?;
        if binding.flags.contains(BindingFlags::BIDIRECTIONAL) {
            self.add_listener(alloc, binding.target, binding.target_slot)?;
        }
        Ok(())
    }

    // Reserves room for the transfer of one more binding at a property.
    fn add_listener(
        &mut self,
        alloc: Global,
        object: ObjectId,
        slot: Slot,
    ) -> Result<(), AllocError> {
        if let Some(list) = self.by_property.get_mut(&(object.0, slot)) {
            return list.add_listener();
        }
        let mut list = SpareList {
            listeners: 0,
            transfers: Vec::new(alloc),
        };
        list.add_listener()?;
        self.by_property.insert((object.0, slot), list)?;
        Ok(())
    }

    /// Takes the list of a property, which is empty. It has room for all transfers that may be due, unless a notification of the property
    /// has it already.
    pub(crate) fn take(&mut self, alloc: Global, object: ObjectId, slot: Slot) -> Vec<DueTransfer>
        ensures { result.items ≡ [] }
    {
        let Some(list) = self.by_property.get_mut(&(object.0, slot)) else {
            return Vec::new(alloc);
        };
        let mut transfers = mem::replace(&mut list.transfers, Vec::new(alloc));
        transfers.clear();
        transfers
    }

    /// Gives back the list of a property.
    pub(crate) fn give_back(&mut self, object: ObjectId, slot: Slot, transfers: Vec<DueTransfer>) {
        if let Some(list) = self.by_property.get_mut(&(object.0, slot)) {
            list.transfers = transfers;
        }
    }
}
