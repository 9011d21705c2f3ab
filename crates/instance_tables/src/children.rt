//! The children of an object.

ghost use Rattle.std.specs.Prelude.{◌≡◌, ◌+◌, ◌<◌, ◌^◌, ◌++◌, ◌∷◌, [], IfSome, Some, None, length, slice_get, OnOk, OnErr};
ghost use Rattle.std.specs.BTreeMap.{get as in_map};
ghost use Rattle.std.specs.Ordering.{nat_cmp};
ghost use Rattle.ui_machine.specs.State.Config.{without};
ghost use Rattle.ui_machine.specs.declared.ids.ObjectId.{ObjectId};
ghost use Rattle.instance_tables.specs.Children.{IsOnce};
ghost use Rattle.instance_tables.specs.Store.{ids_of};

use crate::ids::remove_id;
use std::alloc::{AllocError, Global};
use std::collections::BTreeMap;
use std::marker::Model;
use ui_machine::ObjectId;

// How often an object is a child.
#[derive(Clone, Copy)]
enum Occurrence {
    // Once, added under this stamp.
    Once(u64),
    // Added again while it was a child.
    Repeated,
}

impl Occurrence {
    // Returns the occurrence of a child after it is added once more, under this stamp.
    fn of_added(occurrences: &BTreeMap<u64, Occurrence>, child: ObjectId, stamp: u64) -> Self
        ensures { IsOnce result → in_map nat_cmp occurrences.now child.0 ≡ None }
    {
        if occurrences.contains_key(&child.0) {
            Occurrence::Repeated
        } else {
            Occurrence::Once(stamp)
        }
    }

    // Returns the index of the child whose occurrence this is, if it is a child once and its stamp is still at it.
    fn index_in(self, ids: &[ObjectId], stamps: &[u64], child: ObjectId) -> Option<usize>
        ensures once { IfSome result (λ i. IsOnce self) }
        ensures found { IfSome result (λ i. slice_get ids.now i ≡ Some child) }
        ensures bounds { IfSome result (λ i. (i < length ids.now) × (i < length stamps.now)) }
    {
        let Occurrence::Once(stamp) = self else {
            return None;
        };
        let Ok(index) = stamps.binary_search(&stamp) else {
            return None;
        };
        let id = *ids.get(index)?;
        if id == child { Some(index) } else { None }
    }
}

/// The children of an object in the order in which they were added. Adding and removing one takes time logarithmic in their number, apart
/// from moving the later ones up. A contract sees the numbers of their identities.
#[derive(Drop)]
pub(crate) struct Children {
    ids: Vec<ObjectId>,
    // A stamp beside each child. They rise, so that the index of a stamp is found by halves. A stamp only says where to look.
    stamps: Vec<u64>,
    // How often each identity is a child. One that is not a child has no entry.
    occurrences: BTreeMap<u64, Occurrence>,
}

impl Model for Children {
    ghost use Rattle.std.specs.Prelude.{List, ℕ};

    ghost Value = { List ℕ };

    ghost use Rattle.std.specs.BTreeMap as tree;
    ghost use Rattle.std.specs.Ordering.{nat_cmp};
    ghost use Rattle.instance_tables.specs.Store.{ids_of};
    ghost use Rattle.instance_tables.specs.Children.{AreCounted};

    ghost view = { λ c. ids_of c.ids.items };

    ghost invariant = { λ c. AreCounted (tree.get nat_cmp c.occurrences) (ids_of c.ids.items) };
}

impl Children {
    /// Creates a list without children. Takes no memory.
    pub(crate) fn new(alloc: Global) -> Self
        ensures { result ≡ [] }
    {
        Children {
            ids: Vec::new(alloc),
            stamps: Vec::new(alloc),
            occurrences: BTreeMap::new(alloc),
        }
    }

    /// Returns the number of children.
    pub(crate) fn len(&self) -> usize
        ensures len { result ≡ length self.now }
        ensures small { result < 2 ^ 63 }
    {
        self.ids.len()
    }

    /// Returns the children in their order.
    pub(crate) fn as_slice(&self) -> &[ObjectId]
        ensures { ids_of result.now ≡ self.now }
    {
        self.ids.as_slice()
    }

    /// Returns the children in their order, as a list.
    pub(crate) fn into_ids(self) -> Vec<ObjectId>
        ensures { ids_of result.items ≡ self }
    {
        self.ids
    }

    /// Adds a child at the end.
    ///
    /// # Errors
    ///
    /// `AllocError` if memory is refused. The children are unchanged then.
    pub(crate) fn add(&mut self, child: ObjectId) -> Result<(), AllocError>
        ensures ok { OnOk result (self.new ≡ self.old ++ child.0 ∷ []) }
        ensures few { OnOk result (length self.new < 2 ^ 63) }
        ensures err { OnErr result (self.new ≡ self.old) }
    {
        self.ids.reserve(1)?;
        self.stamps.reserve(1)?;
        let stamp = next_stamp(&self.stamps);
        let occurrence = Occurrence::of_added(&self.occurrences, child, stamp);
        let Ok(_old) = self.occurrences.insert(child.0, occurrence) else {
            return Err(AllocError);
        };
        self.ids.push_reserved(child);
        self.stamps.push_reserved(stamp);
        Ok(())
    }

    /// Removes a child, and returns how often it was one. Looks at all of them only if some child was ever added twice.
    pub(crate) fn remove(&mut self, child: ObjectId) -> usize
        ensures rest { self.new ≡ without child.0 self.old }
        ensures count { result + length self.new ≡ length self.old }
    {
        let Some(occurrence) = self.occurrences.remove(&child.0) else {
            return 0;
        };
        let Some(index) = occurrence.index_in(&self.ids, &self.stamps, child) else {
            // The stamps may be beside other children from now on, which costs time but does no harm.
            let count = remove_id(&mut self.ids, child);
            self.stamps.truncate(self.ids.len());
            return count;
        };
        self.ids.remove(index);
        self.stamps.remove(index);
        1
    }
}

// Returns a stamp that is above the others, unless they have reached the greatest number.
fn next_stamp(stamps: &[u64]) -> u64 {
    let Some(last) = stamps.last() else {
        return 0;
    };
    last.saturating_add(1)
}
