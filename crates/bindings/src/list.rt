//! The bindings that have not ended.

ghost use Rattle.std.specs.Prelude.{◌≡◌, ◌+◌, ◌-◌, ◌^◌, ◌<◌, ◌↔◌, [], ◌∷◌, ◌++◌, All, false, map, OnOk, OnErr, IfOk, IfSome, is_some, option_map, count_by};
ghost use Rattle.std.specs.List.{find, list_any};
ghost use Rattle.ui_machine.specs.State.Bindings.{binding_of, is_called, is_end, bindings_without, bindings_without_end, transfers, with_busy};
ghost use Rattle.bindings.specs.Due.{entry_of, is_free};
ghost use Rattle.bindings.specs.Made as made;
ghost use Rattle.bindings.specs.Made.{transfer_of, is_next, without_number};

use crate::binding::{Binding, Transfer};
use crate::bound::Bound;
use crate::due::DueTransfers;
use crate::fault::BindError;
use crate::rising::Rising;
use crate::spare_lists::SpareLists;
use std::alloc::{AllocError, Global};
use std::marker::Model;
use ui_machine::{ObjectId, Slot};

/// Bindings in document order, with numbers from 0 that are never reused.
///
/// A call takes time logarithmic in the number of bindings, for each binding that it concerns. A binding made under a number below an
/// earlier one, and each binding made after it, is searched one by one. With `bind` alone there is no such binding.
#[derive(Debug, Drop)]
pub struct Bindings {
    rising: Rising,
    /// The bindings made since a number did not rise. They come after the rising ones.
    others: Vec<Bound>,
    next: u64,
    lists: SpareLists,
}

impl Model for Bindings {
    ghost use Rattle.bindings.specs.Made.{Made, AreNumbered};
    ghost use Rattle.std.specs.Prelude.{◌++◌};

    ghost Value = { Made };

    ghost view = { λ b. record { bindings = b.rising ++ b.others.items; next = b.next } };

    ghost invariant = { λ b. AreNumbered (b.rising ++ b.others.items) b.next };
}

impl Bindings {
    ghost use Rattle.bindings.specs.Made.{transfer_by, with_binding, with_binding_as};

    /// Creates a list without bindings. Takes no memory.
    pub fn new(alloc: Global) -> Self
        ensures { result ≡ record { bindings = []; next = 0 } }
    {
        Bindings {
            rising: Rising::new(alloc),
            others: Vec::new(alloc),
            next: 0,
            lists: SpareLists::new(alloc),
        }
    }

    /// Makes a binding, and returns its number.
    ///
    /// # Errors
    ///
    /// Returns `BindingLimit` if 2^64 - 1 numbers are used up, otherwise `OutOfMemory` if memory is refused. Nothing has changed then.
    pub fn bind(&mut self, binding: Binding) -> Result<u64, BindError>
        ensures ok { OnOk result (self.new ≡ with_binding self.old binding) }
        ensures number { IfOk result (λ number. number ≡ self.old.next) }
        ensures limit { (result ≡ Err BindError.BindingLimit) ↔ (self.old.next ≡ 2 ^ 64 - 1) }
        ensures err { OnErr result (self.new ≡ self.old) }
    {
        let number = self.next;
        self.bind_as(number, binding)?;
        Ok(number)
    }

    /// Makes a binding under its number in the document. Unused numbers below it are used up.
    ///
    /// # Errors
    ///
    /// Returns `BindingLimit` if the number is 2^64 - 1, otherwise `OutOfMemory` if memory is refused. Nothing has changed then.
    pub fn bind_as(&mut self, number: u64, binding: Binding) -> Result<(), BindError>
        ensures ok { OnOk result (self.new ≡ with_binding_as number self.old binding) }
        ensures limit { (result ≡ Err BindError.BindingLimit) ↔ (number ≡ 2 ^ 64 - 1) }
        ensures err { OnErr result (self.new ≡ self.old) }
    {
        let Some(next) = number.checked_add(1) else {
            return Err(BindError::BindingLimit);
        };
        self.lists.add(*self.others.allocator(), &binding)?;
        put(
            &mut self.rising,
            &mut self.others,
            self.next,
            number,
            binding,
        )?;
        self.next = self.next.max(next);
        Ok(())
    }

    /// Uses up the number of a binding that is not made, so that numbers remain positions in the document.
    ///
    /// # Errors
    ///
    /// Returns `BindingLimit` if 2^64 - 1 numbers are used up. Nothing has changed then.
    pub fn skip(&mut self) -> Result<(), BindError>
        ensures ok { OnOk result (self.new ≡ record self.old { next = self.old.next + 1 }) }
        ensures limit { OnErr result ((self.old.next ≡ 2 ^ 64 - 1) × (self.new ≡ self.old)) }
        ensures named { OnErr result (result ≡ Err BindError.BindingLimit) }
    {
        self.next = self.next.checked_add(1).ok_or(BindError::BindingLimit)?;
        Ok(())
    }

    /// Ends the bindings with this name, and returns whether there was one.
    pub fn unbind(&mut self, name: &str) -> bool
        ensures found { result ≡ list_any (is_called name.now) self.old.bindings }
        ensures left { self.new
            ≡ record self.old { bindings = bindings_without name.now self.old.bindings } }
    {
        let count = self.rising.unbind(name);
        let found = has_called(&self.others, name);
        end_called(&mut self.others, name);
        count > 0 || found
    }

    /// Ends the binding with this number, and returns whether there was one.
    pub fn unbind_numbered(&mut self, number: u64) -> bool
        ensures found { result ≡ is_some (binding_of number self.old.bindings) }
        ensures left { self.new
            ≡ record self.old { bindings = without_number number self.old.bindings } }
    {
        let found = self.bound(number).is_some();
        self.rising.remove(number);
        end_numbered(&mut self.others, number);
        found
    }

    /// Ends the bindings that have the object as an end, and returns their number.
    pub fn end_of(&mut self, object: ObjectId) -> usize
        ensures count { result ≡ count_by (is_end object.0) self.old.bindings }
        ensures left { self.new
            ≡ record self.old { bindings = bindings_without_end object.0 self.old.bindings } }
    {
        let count = self.rising.end_of(object);
        let others = count_at(&self.others, object);
        end_at(&mut self.others, object);
        count + others
    }

    /// Returns the next transfer for a notification. It is made by the first binding numbered `from` or above that listens at the property
    /// and is not setting. A bidirectional binding listens at both ends.
    pub fn on_notify(&self, object: ObjectId, slot: Slot, from: u64) -> Option<Transfer>
        ensures next { result
            ≡ option_map (transfer_of object.0 slot) (find (is_next object.0 slot from) self.now.bindings) }

        // The search for the next transfer begins one above this number.
        ensures goes_on { IfSome result (λ transfer. transfer.number + 1 < 2 ^ 64) }
    {
        let bound = self.next_bound(object, slot, from)?;
        Some(bound.transfer(object, slot))
    }

    // Returns the first binding numbered `from` or above that listens at the property and is not setting.
    fn next_bound(&self, object: ObjectId, slot: Slot, from: u64) -> Option<&Bound>
        ensures next { option_map (λ b. b.now) result ≡ find (is_next object.0 slot from) self.now.bindings }
        ensures few { IfSome result (λ b. b.now.number + 1 < 2 ^ 64) }
    {
        match self.rising.next_bound(object, slot, from) {
            Some(bound) => Some(bound),
            None => next_of(&self.others, object, slot, from),
        }
    }

    /// Collects the transfers that a notification is to make: one for each binding that listens at the property, in document order. The
    /// list was reserved with room for all of them as the bindings were made, unless another notification of the property has taken it.
    ///
    /// # Errors
    ///
    /// `AllocError` if another notification has the list and memory for the transfers is refused.
    pub fn due(
        &mut self,
        alloc: Global,
        object: ObjectId,
        slot: Slot,
    ) -> Result<DueTransfers, AllocError>
        ensures due { IfOk result (λ due. map entry_of due ≡ transfers object.0 slot self.old.bindings) }
        ensures same { self.new ≡ self.old }
    {
        let list = self.lists.take(alloc, object, slot);
        let mut due = DueTransfers::in_list(list, slot);
        put_due(&self.others, &mut due, object, slot)?;
        self.rising.put_due(&mut due, object, slot)?;
        Ok(due)
    }

    /// Gives back the list of transfers that a notification of a property of the object took. Transfers that are left in it are not made.
    pub fn give_back(&mut self, object: ObjectId, due: DueTransfers)
        ensures { self.new ≡ self.old }
    {
        if due.has_list() {
            let (list, slot) = due.into_list();
            self.lists.give_back(object, slot, list);
        }
    }

    // Returns the binding with this number, unless it has ended.
    fn bound(&self, number: u64) -> Option<&Bound>
        ensures { option_map (λ b. b.now) result ≡ binding_of number self.now.bindings }
    {
        match self.rising.get(number) {
            Some(bound) => Some(bound),
            None => numbered(&self.others, number),
        }
    }

    /// Returns whether the binding with this number makes a transfer that is due, which is if it has not ended and is not setting.
    pub fn is_ready(&self, number: u64) -> bool
        ensures { result ≡ is_free (binding_of number self.now.bindings) }
    {
        match self.bound(number) {
            Some(bound) => !bound.is_setting(),
            None => false,
        }
    }

    /// Returns the transfer of the binding with this number from its source to its target, or back. Returns `None` if the binding has
    /// ended.
    pub fn transfer(&self, number: u64, back: bool) -> Option<Transfer>
        ensures { result ≡ option_map (transfer_by back) (binding_of number self.now.bindings) }
    {
        let bound = self.bound(number)?;
        Some(bound.transfer_by(back))
    }

    /// Marks the binding with this number as setting or not. Does nothing if it has ended.
    pub fn setting(&mut self, number: u64, setting: bool)
        ensures { self.new
            ≡ record self.old { bindings = with_busy number setting self.old.bindings } }
    {
        self.rising.mark(number, setting);
        mark(&mut self.others, number, setting);
    }
}

// Makes a binding. It joins the rising ones if `others` is empty and its number is not below `next`, which is above all their numbers.
fn put(
    rising: &mut Rising,
    others: &mut Vec<Bound>,
    next: u64,
    number: u64,
    binding: Binding,
) -> Result<(), BindError>
    requires below { All (λ b. b.number < next) rising.old }
    requires few { number < 2 ^ 64 - 1 }
    ensures ok { OnOk result (rising.new ++ others.new.items
        ≡ (rising.old ++ others.old.items) ++ made.binding_of number false binding ∷ []) }
    ensures err { OnErr result ((rising.new ≡ rising.old) × (others.new.items ≡ others.old.items)) }
    ensures named { OnErr result (result ≡ Err BindError.OutOfMemory) }
{
    if others.is_empty() && number >= next {
        rising.push(number, binding)?;
        return Ok(());
    }
    others.push(Bound::new(number, binding))?;
    Ok(())
}

// Returns the first of the bindings that has the number.
fn numbered(bound: &[Bound], number: u64) -> Option<&Bound>
    ensures { option_map (λ b. b.now) result ≡ binding_of number bound.now }
{
    bound.iter().find(|bound| bound.has_number(number))
}

// Returns whether one of the bindings has the name.
fn has_called(bound: &[Bound], name: &str) -> bool
    ensures { result ≡ list_any (is_called name.now) bound.now }
{
    bound.iter().any(|bound| bound.is_called(name))
}

// Returns the first of the bindings numbered `from` or above that listens at the property and is not setting.
fn next_of(bound: &[Bound], object: ObjectId, slot: Slot, from: u64) -> Option<&Bound>
    ensures { option_map (λ b. b.now) result ≡ find (is_next object.0 slot from) bound.now }
{
    bound.iter().find(|bound| bound.is_next(object, slot, from))
}

// Adds the transfers of those bindings that listen at the property.
fn put_due(
    bound: &[Bound],
    due: &mut DueTransfers,
    object: ObjectId,
    slot: Slot,
) -> Result<(), AllocError>
    requires { due.old ≡ [] }
    ensures { OnOk result (map entry_of due.new ≡ transfers object.0 slot bound.now) }
{
    let mut left = bound.len();
    'bindings: while left > 0 {
        left -= 1;
        let bound = &bound[left];
        if bound.listens(object, slot) {
            due.put_first(bound.due(object, slot))?;
        }
    }
    Ok(())
}

// Returns how many of the bindings have the object as an end.
fn count_at(bound: &[Bound], object: ObjectId) -> usize
    ensures count { result ≡ count_by (is_end object.0) bound.now }
    ensures few { result < 2 ^ 63 }
{
    bound.iter().filter(|bound| bound.is_end(object)).count()
}

// Removes the bindings with this name.
fn end_called(bound: &mut Vec<Bound>, name: &str)
    ensures { bound.new.items ≡ bindings_without name.now bound.old.items }
{
    bound.retain(|bound| !bound.is_called(name));
}

// Removes the bindings with this number.
fn end_numbered(bound: &mut Vec<Bound>, number: u64)
    ensures { bound.new.items ≡ without_number number bound.old.items }
{
    bound.retain(|bound| !bound.has_number(number));
}

// Removes the bindings that have the object as an end.
fn end_at(bound: &mut Vec<Bound>, object: ObjectId)
    ensures { bound.new.items ≡ bindings_without_end object.0 bound.old.items }
{
    bound.retain(|bound| !bound.is_end(object));
}

// Marks the binding with this number as setting or not.
fn mark(bound: &mut [Bound], number: u64, setting: bool)
    ensures { bound.new ≡ with_busy number setting bound.old }
{
    for one in bound.iter_mut() {
        if one.has_number(number) {
            one.mark(setting);
        }
    }
}
