//! Indexes by which bindings are looked up.

ghost use Rattle.std.specs.Prelude.{◌≡◌, OnOk};
ghost use Rattle.ui_machine.specs.State.Bindings as config;
ghost use Rattle.ui_machine.specs.State.Bindings.{listens, is_called, is_end};
ghost use Rattle.bindings.specs.Kept.{IsListed, IsNextAmong, IsPreviousAmong};

use crate::bound::Bound;
use crate::listing::Listing;
use crate::names::Names;
use std::alloc::{AllocError, Global};
use ui_machine::{ObjectId, Slot};

/// The numbers of bindings, listed by name, property and object.
#[derive(Debug, Drop)]
pub(crate) struct Listings {
    names: Names,
    /// Lists bindings by the object and slot of each property at which they listen.
    by_property: Listing,
    /// Lists bindings by each object that they have as an end. The second key is 0.
    by_end: Listing,
    /// Lists bindings by the number of their name. The second key is 0.
    by_name: Listing,
}

impl Listings {
    /// Creates empty indexes. Takes no memory.
    pub(crate) fn new(alloc: Global) -> Self {
        Listings {
            names: Names::new(alloc),
            by_property: Listing::new(alloc),
            by_end: Listing::new(alloc),
            by_name: Listing::new(alloc),
        }
    }

    /// Returns the first number, from `from` on, that is listed for bindings that listen at the property.
    pub(crate) fn next_listener(&self, object: ObjectId, slot: Slot, from: u64) -> Option<u64>
        ensures { IsNextAmong self.now (listens object.0 slot) from result }
    {
        self.by_property.from(object.0, u64::from(slot), from)
    }

    /// Returns the last number below `end` that is listed for bindings that listen at the property.
    pub(crate) fn listener(&self, object: ObjectId, slot: Slot, end: u64) -> Option<u64>
        ensures { IsPreviousAmong self.now (listens object.0 slot) end result }
    {
        self.by_property.before(object.0, u64::from(slot), end)
    }

    /// Returns the last number below `end` that is listed for bindings that have the object as an end.
    pub(crate) fn end_at(&self, object: ObjectId, end: u64) -> Option<u64>
        ensures { IsPreviousAmong self.now (is_end object.0) end result }
    {
        self.by_end.before(object.0, 0, end)
    }

    /// Returns the last number below `end` that is listed for bindings with this name.
    pub(crate) fn called(&self, name: &str, end: u64) -> Option<u64>
        ensures { IsPreviousAmong self.now (is_called name.now) end result }
    {
        let name = self.names.number(name)?;
        self.by_name.before(name, 0, end)
    }

    /// Lists a binding in all indexes, and stores in it the number under which its name is listed. Lists nothing on an error.
    pub(crate) fn add(&mut self, bound: &mut Bound) -> Result<(), AllocError>
        ensures same { bound.new ≡ bound.old }
        ensures listed { OnOk result (IsListed self.new bound.old) }
        ensures stays { (b : config.Binding) → (b.number ≡ bound.old.number → ⊥) → IsListed self.old b → IsListed self.new b }
    {
        let added = self.add_all(bound);
        if added.is_err() {
            self.remove(bound);
        }
        added
    }

    // Lists a binding in all indexes. If memory is refused, it remains listed in some of them.
    fn add_all(&mut self, bound: &mut Bound) -> Result<(), AllocError>
        ensures same { bound.new ≡ bound.old }
        ensures listed { OnOk result (IsListed self.new bound.old) }
        ensures stays { (b : config.Binding) → IsListed self.old b → IsListed self.new b }
    {
        let number = bound.number();
        let (source, source_slot) = bound.source();
        let (target, target_slot) = bound.target();
        self.by_end.add(source, 0, number)?;
        self.by_end.add(target, 0, number)?;
        self.by_property.add(source, source_slot, number)?;
        if bound.is_bidirectional() {
            self.by_property.add(target, target_slot, number)?;
        }
        if let Some(name) = bound.name() {
            let name = self.names.add(name)?;
            bound.list_name(name);
            self.by_name.add(name, 0, number)?;
        }
        Ok(())
    }

    /// Removes a binding from all indexes.
    pub(crate) fn remove(&mut self, bound: &Bound)
        ensures { (b : config.Binding) → (b.number ≡ bound.now.number → ⊥) → IsListed self.old b → IsListed self.new b }
    {
        let number = bound.number();
        let (source, source_slot) = bound.source();
        let (target, target_slot) = bound.target();
        self.by_end.remove(source, 0, number);
        self.by_end.remove(target, 0, number);
        self.by_property.remove(source, source_slot, number);
        self.by_property.remove(target, target_slot, number);
        if let Some(name) = bound.name_number() {
            self.by_name.remove(name, 0, number);
        }
    }
}
