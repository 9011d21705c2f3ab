//! Instances in a slab, with an index from identities to keys.
//!
//! A slab reuses the key of an entry that was removed. So each entry stores its identity, and an identity has a key exactly if the entry
//! under that key stores that identity: a look-up never finds the instance of another identity.

ghost use Rattle.std.specs.Prelude.{◌≡◌, ℕ, ◌<◌, ◌^◌, [], true, None, Some, is_some, length, option_copied, OnOk, OnErr};
ghost use Rattle.std.specs.Option.{option_copied_mut, option_map};
ghost use Rattle.std.specs.Ordering.{nat_cmp};
ghost use Rattle.std.specs.Borrow.{sem};
ghost use Rattle.std.specs.BTreeMap.{get as in_map, IsOrdered};
ghost use Rattle.std.specs.BTreeMap.Range.{entries_between};
ghost use Rattle.std.specs.List.Sorted.{IsStrictlySortedBy};
ghost use Rattle.std.specs.Map.{keys_of};
ghost use Rattle.std.specs.declared.ops.Bound.TheVariants.{Included, Unbounded};
ghost use Rattle.slab.specs.Slab.{get as in_slab};
ghost use Rattle.instance_tables.specs.Index.{IsIndex};
ghost use Rattle.instance_tables.specs.Lent.{LendsInstance};
ghost use Rattle.instance_tables.specs.Names.{forgotten_in};
ghost use Rattle.instance_tables.specs.Store.{id_of};
ghost use Rattle.instance_tables.specs.View.{first_identity, first_unheld, instances_at, Replaces};

use crate::instance::Instance;
use crate::weak::WeakSlots;
use slab::Slab;
use std::alloc::{AllocError, Global};
use std::collections::BTreeMap;
use std::marker::Model;
use ui_machine::ObjectId;

// An instance with its identity.
#[derive(Drop)]
struct Entry {
    id: ObjectId,
    instance: Instance,
}

impl Entry {
    // Sets the weak values of the instance that name the object to null. Returns true, so that the entry is retained.
    fn forget(&mut self, weak: &WeakSlots, id: ObjectId) -> bool
        ensures stays { result ≡ true }
        ensures changed { self.new ≡ record self.old { instance = forgotten_in weak.now id.0 self.old.instance } }
    {
        self.instance.object.forget(weak, id);
        true
    }
}

// Returns the key of an identity, or `None` if it has no instance. Tries the key one below the identity before the index: as long as no key
// was reused, the instance is there.
fn key_of(entries: &Slab<Entry>, keys: &BTreeMap<u64, usize>, id: ObjectId) -> Option<usize>
    requires ordered { IsOrdered nat_cmp keys.now }
    requires index { IsIndex (in_slab entries.now) (in_map nat_cmp keys.now) }
    ensures { result ≡ in_map nat_cmp keys.now id.0 }
{
    let first = id.0.saturating_sub(1) as usize;
    if let Some(entry) = entries.get(first) {
        if entry.id == id {
            return Some(first);
        }
    }
    let key = keys.get(&id.0)?;
    Some(*key)
}

/// Instances by their identities. A contract sees them in the order of the identities. A look-up takes time logarithmic in the number of
/// instances, or constant time as long as none was removed.
#[derive(Drop)]
pub(crate) struct Instances {
    entries: Slab<Entry>,
    keys: BTreeMap<u64, usize>,
}

impl Model for Instances {
    ghost use Rattle.std.specs.Prelude.{List, ℕ};
    ghost use Rattle.instance_tables.specs.declared.instance.Instance.{Instance};

    ghost Value = { List (ℕ × Instance) };

    ghost use Rattle.std.specs.Ordering.{nat_cmp};
    ghost use Rattle.std.specs.BTreeMap as tree;
    ghost use Rattle.slab.specs.Slab as slab;
    ghost use Rattle.instance_tables.specs.Index.{in_order, IsIndex};

    ghost view = { λ a. in_order (slab.get a.entries) a.keys.entries };

    ghost invariant = { λ a. tree.IsOrdered nat_cmp a.keys × IsIndex (slab.get a.entries) (tree.get nat_cmp a.keys) };
}

impl Instances {
    /// Creates a collection without instances. Takes no memory.
    pub(crate) fn new(alloc: Global) -> Self
        ensures { result ≡ [] }
    {
        Instances {
            entries: Slab::new(alloc),
            keys: BTreeMap::new(alloc),
        }
    }

    /// Returns the number of instances.
    pub(crate) fn len(&self) -> usize
        ensures len { result ≡ length self.now }
        ensures small { result < 2 ^ 63 }
        ensures ordered { IsStrictlySortedBy nat_cmp (keys_of self.now) }
    {
        self.keys.len()
    }

    /// Returns whether an identity has an instance.
    pub(crate) fn contains(&self, id: ObjectId) -> bool
        ensures { result ≡ is_some (instances_at self.now id.0) }
    {
        key_of(&self.entries, &self.keys, id).is_some()
    }

    /// Returns the instance of an identity, or `None` if it has none.
    pub(crate) fn get(&self, id: ObjectId) -> Option<&Instance>
        ensures value { option_copied result ≡ instances_at self.now id.0 }
    {
        let key = key_of(&self.entries, &self.keys, id)?;
        Some(&self.entries[key].instance)
    }

    /// Returns the instance of an identity for writing, or `None` if it has none.
    pub(crate) fn get_mut(&mut self, id: ObjectId) -> Option<&mut Instance>
        ensures* writes_back { sem 𝓛 (LendsInstance self.entry id.0 result) }
        ensures value { option_copied_mut result ≡ instances_at self.old id.0 }
    {
        let key = key_of(&self.entries, &self.keys, id)?;
        Some(&mut self.entries[key].instance)
    }

    /// Adds an instance under an identity that has none.
    ///
    /// # Errors
    ///
    /// `AllocError` if memory is refused. Nothing has changed then.
    pub(crate) fn insert(&mut self, id: ObjectId, instance: Instance) -> Result<(), AllocError>
        requires absent { instances_at self.old id.0 ≡ None }
        ensures ok { OnOk result (Replaces (instances_at self.old) (instances_at self.new) id.0 (Some instance)) }
        ensures err { OnErr result (self.new ≡ self.old) }
    {
        self.entries.reserve(1)?;
        let key = self.entries.vacant_key();
        let Ok(_old) = self.keys.insert(id.0, key) else {
            return Err(AllocError);
        };
        self.entries.insert_reserved(Entry { id, instance });
        Ok(())
    }

    /// Removes the instance of an identity and returns it, or returns `None` if there is none.
    pub(crate) fn remove(&mut self, id: ObjectId) -> Option<Instance>
        ensures value { result ≡ instances_at self.old id.0 }
        ensures gone { Replaces (instances_at self.old) (instances_at self.new) id.0 None }
    {
        let key = self.keys.remove(&id.0)?;
        let Entry { id: _, instance } = self.entries.remove(key);
        Some(instance)
    }

    /// Returns the lowest identity, from this one on, whose instance nothing holds.
    pub(crate) fn first_unheld(&self, from: ObjectId) -> Option<ObjectId>
        ensures first { id_of result ≡ first_unheld (entries_between nat_cmp (Included from.0) Unbounded self.now) }
        ensures ordered { IsStrictlySortedBy nat_cmp (keys_of self.now) }
    {
        for (id, key) in self.keys.range(from.0..) {
            let Some(entry) = self.entries.get(*key) else {
                continue;
            };
            if entry.instance.mentions == 0 {
                return Some(ObjectId(*id));
            }
        }
        None
    }

    /// Returns the lowest identity, from this one on, that has an instance.
    pub(crate) fn first_from(&self, from: ObjectId) -> Option<ObjectId>
        ensures first { id_of result ≡ first_identity (entries_between nat_cmp (Included from.0) Unbounded self.now) }
        ensures ordered { IsStrictlySortedBy nat_cmp (keys_of self.now) }
    {
        for (id, key) in self.keys.range(from.0..) {
            if self.entries.get(*key).is_some() {
                return Some(ObjectId(*id));
            }
        }
        None
    }

    /// Sets each weak value that names the object to null. Looks at all instances.
    pub(crate) fn forget(&mut self, weak: &WeakSlots, id: ObjectId)
        ensures { (q : ℕ) → instances_at self.new q ≡ option_map (forgotten_in weak.now id.0) (instances_at self.old q) }
    {
        self.entries.retain(|_key, entry| entry.forget(weak, id));
    }
}
