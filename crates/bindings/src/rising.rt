//! The bindings that were made under rising numbers.

ghost use Rattle.std.specs.Prelude.{◌≡◌, ◌+◌, ◌-◌, ◌^◌, ◌<◌, [], ◌∷◌, ◌++◌, All, false, map, not, nat_eq, OnOk, OnErr, option_map, count_by, length};
ghost use Rattle.std.specs.List.{filter, find};
ghost use Rattle.ui_machine.specs.State.Bindings.{binding_of, is_called, is_end, bindings_without, bindings_without_end, listens, transfers, with_busy};
ghost use Rattle.bindings.specs.Due.{due_of, entry_of};
ghost use Rattle.bindings.specs.Kept.{IsNextOf, IsPreviousOf, Numbered, is_numbered};
ghost use Rattle.bindings.specs.Made.{without_number};

use crate::binding::Binding;
use crate::bound::Bound;
use crate::due::{DueTransfer, DueTransfers};
use crate::listings::Listings;
use std::alloc::{AllocError, Global};
use std::collections::BTreeMap;
use std::marker::Model;
use ui_machine::{ObjectId, Slot};

/// Bindings with rising numbers.
///
/// Changing a binding, and finding those that listen at a property, end at an object or have a name, takes time logarithmic in the number
/// of bindings for each one found.
#[derive(Debug, Drop)]
pub(crate) struct Rising {
    bound: BTreeMap<u64, Bound>,
    listings: Listings,
}

impl Model for Rising {
    ghost use Rattle.std.specs.Prelude.{List};
    ghost use Rattle.std.specs.Map.{values_of};
    ghost use Rattle.ui_machine.specs.State.Bindings as config;

    ghost Value = { List config.Binding };

    ghost use Rattle.bindings.specs.Kept.{IsKept};

    ghost view = { λ b. values_of b.bound.entries };

    ghost invariant = { λ b. IsKept b.bound.entries b.listings };
}

impl Rising {
    ghost use Rattle.bindings.specs.Made as made;
    ghost use Rattle.bindings.specs.Made.{is_next};

    /// Creates a collection without bindings. Takes no memory.
    pub(crate) fn new(alloc: Global) -> Self
        ensures { result ≡ [] }
    {
        Rising {
            bound: BTreeMap::new(alloc),
            listings: Listings::new(alloc),
        }
    }

    /// Makes a binding under a number above all others.
    ///
    /// # Errors
    ///
    /// `AllocError` if memory is refused. Nothing has changed then.
    pub(crate) fn push(&mut self, number: u64, binding: Binding) -> Result<(), AllocError>
        requires above { All (λ b. b.number < number) self.old }
        requires few { number < 2 ^ 64 - 1 }
        ensures ok { OnOk result (self.new ≡ self.old ++ made.binding_of number false binding ∷ []) }
        ensures err { OnErr result (self.new ≡ self.old) }
    {
        let mut bound = Bound::new(number, binding);
        self.listings.add(&mut bound)?;
        let Err(refused) = self.bound.insert(number, bound) else {
            return Ok(());
        };
        let (_, bound) = refused.value;
        self.listings.remove(&bound);
        Err(AllocError)
    }

    /// Returns the binding with this number, unless it has ended.
    pub(crate) fn get(&self, number: u64) -> Option<&Bound>
        ensures { option_map (λ b. b.now) result ≡ binding_of number self.now }
    {
        self.bound.get(&number)
    }

    /// Marks the binding with this number as setting or not. Does nothing if it has ended.
    pub(crate) fn mark(&mut self, number: u64, setting: bool)
        ensures { self.new ≡ with_busy number setting self.old }
    {
        let Some(bound) = self.bound.get_mut(&number) else {
            return;
        };
        bound.mark(setting);
    }

    /// Ends the bindings that have the object as an end, and returns their number.
    pub(crate) fn end_of(&mut self, object: ObjectId) -> usize
        ensures count { result ≡ count_by (is_end object.0) self.old }
        ensures few { result < 2 ^ 63 }
        ensures left { self.new ≡ bindings_without_end object.0 self.old }
    {
        // For the proof: there are few bindings, and their numbers rise.
        let _ = self.len();
        let mut count = 0;
        let mut at = u64::MAX;
        'bindings: while let Some(number) = self.end_before(object, at) {
            count += self.end_numbered(number, object);
            at = number;
        }
        count
    }

    /// Ends the bindings with this name, and returns their number.
    pub(crate) fn unbind(&mut self, name: &str) -> usize
        ensures count { result ≡ count_by (is_called name.now) self.old }
        ensures few { result < 2 ^ 63 }
        ensures left { self.new ≡ bindings_without name.now self.old }
    {
        // For the proof: there are few bindings, and their numbers rise.
        let _ = self.len();
        let mut count = 0;
        let mut at = u64::MAX;
        'bindings: while let Some(number) = self.called_before(name, at) {
            count += self.unbind_numbered(number, name);
            at = number;
        }
        count
    }

    /// Puts the transfers that a notification is to make before those in `due`: the transfers of the bindings that listen at the property,
    /// in document order.
    ///
    /// # Errors
    ///
    /// `AllocError` if memory is refused.
    pub(crate) fn put_due(
        &self,
        due: &mut DueTransfers,
        object: ObjectId,
        slot: Slot,
    ) -> Result<(), AllocError>
        ensures { OnOk result (map entry_of due.new ≡ transfers object.0 slot self.now ++ map entry_of due.old) }
    {
        // For the proof: the numbers rise.
        let _ = self.len();
        let mut at = u64::MAX;
        'bindings: while let Some(number) = self.listener_before(object, slot, at) {
            if let Some(transfer) = self.due_numbered(number, object, slot) {
                due.put_first(transfer)?;
            }
            at = number;
        }
        Ok(())
    }

    /// Returns the first binding numbered `from` or above that listens at the property and is not setting.
    pub(crate) fn next_bound(&self, object: ObjectId, slot: Slot, from: u64) -> Option<&Bound>
        ensures { option_map (λ b. b.now) result ≡ find (is_next object.0 slot from) self.now }
    {
        // For the proof: the numbers rise.
        let _ = self.len();
        let mut at = from;
        'bindings: while let Some(number) = self.listener_from(object, slot, at) {
            if let Some(bound) = self.next_numbered(number, object, slot, from) {
                return Some(bound);
            }
            at = number.checked_add(1)?;
        }
        None
    }

    // Returns the number of bindings.
    fn len(&self) -> usize
        ensures count { result ≡ length self.now }
        ensures few { result < 2 ^ 63 }
        ensures rises { Numbered 0 self.now (2 ^ 64 - 1) }
    {
        self.bound.len()
    }

    // Returns the last number below `limit` that may be of a binding that listens at the property.
    fn listener_before(&self, object: ObjectId, slot: Slot, limit: u64) -> Option<u64>
        ensures { IsPreviousOf (listens object.0 slot) limit self.now result }
    {
        self.listings.listener(object, slot, limit)
    }

    // Returns the first number, from `from` on, that may be of a binding that listens at the property.
    fn listener_from(&self, object: ObjectId, slot: Slot, from: u64) -> Option<u64>
        ensures { IsNextOf (listens object.0 slot) from self.now result }
    {
        self.listings.next_listener(object, slot, from)
    }

    // Returns the last number below `limit` that may be of a binding that has the object as an end.
    fn end_before(&self, object: ObjectId, limit: u64) -> Option<u64>
        ensures { IsPreviousOf (is_end object.0) limit self.now result }
    {
        self.listings.end_at(object, limit)
    }

    // Returns the last number below `limit` that may be of a binding with this name.
    fn called_before(&self, name: &str, limit: u64) -> Option<u64>
        ensures { IsPreviousOf (is_called name.now) limit self.now result }
    {
        self.listings.called(name, limit)
    }

    // Returns the due transfer of the binding with this number, if it listens at the property.
    fn due_numbered(&self, number: u64, object: ObjectId, slot: Slot) -> Option<DueTransfer>
        ensures { result ≡ option_map (due_of object.0 slot) (find (is_numbered (listens object.0 slot) number) self.now) }
    {
        // For the proof: the numbers rise.
        let _ = self.len();
        let bound = self.get(number)?;
        if bound.listens(object, slot) {
            Some(bound.due(object, slot))
        } else {
            None
        }
    }

    // Returns the binding with this number if it is numbered `from` or above, listens at the property and is not setting.
    fn next_numbered(&self, number: u64, object: ObjectId, slot: Slot, from: u64) -> Option<&Bound>
        ensures { option_map (λ b. b.now) result
            ≡ find (is_numbered (is_next object.0 slot from) number) self.now }
    {
        // For the proof: the numbers rise.
        let _ = self.len();
        let bound = self.get(number)?;
        if bound.is_next(object, slot, from) {
            Some(bound)
        } else {
            None
        }
    }

    // Ends the binding with this number if it has the object as an end. Returns how many were ended, 0 or 1.
    fn end_numbered(&mut self, number: u64, object: ObjectId) -> usize
        ensures count { result ≡ count_by (is_numbered (is_end object.0) number) self.old }
        ensures left { self.new ≡ filter (λ b. not (is_numbered (is_end object.0) number b)) self.old }
    {
        // For the proof: the numbers rise.
        let _ = self.len();
        let Some(bound) = self.get(number) else {
            return 0;
        };
        if !bound.is_end(object) {
            return 0;
        }
        self.remove(number);
        1
    }

    // Ends the binding with this number if it has this name. Returns how many were ended, 0 or 1.
    fn unbind_numbered(&mut self, number: u64, name: &str) -> usize
        ensures count { result ≡ count_by (is_numbered (is_called name.now) number) self.old }
        ensures left { self.new ≡ filter (λ b. not (is_numbered (is_called name.now) number b)) self.old }
    {
        // For the proof: the numbers rise.
        let _ = self.len();
        let Some(bound) = self.get(number) else {
            return 0;
        };
        if !bound.is_called(name) {
            return 0;
        }
        self.remove(number);
        1
    }

    /// Ends the binding with this number, if there is one.
    pub(crate) fn remove(&mut self, number: u64)
        ensures { self.new ≡ without_number number self.old }
    {
        let Some(bound) = self.bound.remove(&number) else {
            return;
        };
        self.listings.remove(&bound);
    }
}
