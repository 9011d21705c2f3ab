//! An index of which objects name which.
//!
//! With it, weak values that name an object are cleared without looking at other objects. An index that finds no memory is given up, and
//! from then on all objects are looked at: no change is refused because of it.

ghost use Rattle.std.specs.Prelude.{◌≡◌, ℕ, true, Some};
ghost use Rattle.instance_tables.specs.Store.{id_of, ids_of};
ghost use Rattle.instance_tables.specs.Names.{names_any, IsNext, MayName, Stays, StaysBeside};
ghost use Rattle.instance_tables.specs.Release.{emptied};

use crate::instance::Instance;
use crate::object::Object;
use crate::weak::WeakSlots;
use std::alloc::Global;
use std::collections::BTreeSet;
use ui_machine::ObjectId;

/// For each object, those with a value, strong or weak, that names it. There may be others, which cost time but do no harm. Each operation
/// takes time logarithmic in the number of pairs.
#[derive(Drop)]
pub(crate) struct Namers {
    // Pairs of the object that is named and the object that names it.
    pairs: BTreeSet<(u64, u64)>,
    // Whether the index is given up, so that any object may name any other.
    is_given_up: bool,
}

impl Namers {
    /// Creates an index without pairs. Takes no memory.
    pub(crate) fn new(alloc: Global) -> Self {
        Namers {
            pairs: BTreeSet::new(alloc),
            is_given_up: false,
        }
    }

    /// Returns whether the index is given up.
    pub(crate) fn is_given_up(&self) -> bool
        ensures { result ≡ self.now.is_given_up }
    {
        self.is_given_up
    }

    /// Gives the index up: from now on any object may name any other.
    pub(crate) fn give_up(&mut self)
        ensures { self.new.is_given_up ≡ true }
    {
        self.pairs.clear();
        self.is_given_up = true;
    }

    /// Adds that `holder` names `target`. Gives the index up if memory is refused.
    pub(crate) fn add(&mut self, target: ObjectId, holder: ObjectId)
        ensures added { MayName self.new target.0 holder.0 }
        ensures stays { Stays self.old self.new }
    {
        if self.is_given_up {
            return;
        }
        let Ok(_is_new) = self.pairs.insert((target.0, holder.0)) else {
            self.give_up();
            return;
        };
    }

    /// Adds that `holder` names `target`, if there is a target.
    pub(crate) fn add_any(&mut self, target: Option<ObjectId>, holder: ObjectId)
        ensures added { (t : ℕ) → id_of target ≡ Some t → MayName self.new t holder.0 }
        ensures stays { Stays self.old self.new }
    {
        let Some(target) = target else {
            return;
        };
        self.add(target, holder);
    }

    /// Removes the pair of `target` and `holder`.
    pub(crate) fn remove(&mut self, target: ObjectId, holder: ObjectId)
        ensures others { (t h : ℕ) → (t ≡ target.0 → h ≡ holder.0 → ⊥) → MayName self.old t h → MayName self.new t h }
        ensures kept { self.new.is_given_up ≡ self.old.is_given_up }
    {
        self.pairs.remove(&(target.0, holder.0));
    }

    /// Removes the pair of `target` and `holder`, if there is a target.
    pub(crate) fn remove_any(&mut self, target: Option<ObjectId>, holder: ObjectId)
        ensures { StaysBeside holder.0 self.old self.new }
    {
        let Some(target) = target else {
            return;
        };
        self.remove(target, holder);
    }

    /// Removes the pair of `target` and `holder`, unless a value of the object, which is the holder, names the target.
    pub(crate) fn remove_unnamed(&mut self, object: &Object, target: ObjectId, holder: ObjectId)
        ensures stays { (t h : ℕ) → (h ≡ holder.0 → names_any t object.now.values ≡ true) → MayName self.old t h → MayName self.new t h }
        ensures kept { self.new.is_given_up ≡ self.old.is_given_up }
    {
        if self.is_given_up || object.names(target) {
            return;
        }
        self.remove(target, holder);
    }

    /// Returns the next identity after `given` of an object that may name the target. Has no meaning once the index is given up.
    pub(crate) fn next(&self, target: ObjectId, given: u64) -> Option<u64>
        ensures { IsNext self.now target.0 given result }
    {
        let from = given.checked_add(1)?;
        let range = (target.0, from)..=(target.0, u64::MAX);
        let (_, holder) = self.pairs.range(range).next()?;
        Some(*holder)
    }

    /// Adds a pair for each object that a value of this object, which is the holder, names.
    pub(crate) fn add_names(&mut self, object: &Object, holder: ObjectId)
        ensures added { (t : ℕ) → names_any t object.now.values ≡ true → MayName self.new t holder.0 }
        ensures stays { Stays self.old self.new }
    {
        if self.is_given_up {
            return;
        }
        'slots: for slot in 0..object.slot_count() {
            self.add_any(object.named_at(slot), holder);
        }
    }

    /// Removes the pairs for the objects that this object's values name, except for values in slots marked weak.
    pub(crate) fn remove_names(&mut self, object: &Object, weak: &[bool], holder: ObjectId)
        ensures { StaysBeside holder.0 self.old self.new }
    {
        if self.is_given_up {
            return;
        }
        'slots: for slot in 0..object.slot_count() {
            if slot >= weak.len() || !weak[slot] {
                self.remove_any(object.named_at(slot), holder);
            }
        }
    }

    /// Removes the pairs for all values of an object that was removed from the table, if there was one.
    pub(crate) fn remove_gone(&mut self, gone: Option<Instance>, holder: ObjectId)
        ensures { StaysBeside holder.0 self.old self.new }
    {
        let Some(instance) = gone else {
            return;
        };
        self.remove_names(&instance.object, &[], holder);
    }

    /// Disposes an object, and removes the pairs of those that only its strong values named. Returns its former children. Takes memory only
    /// if a weak value names an object that a strong one named too.
    pub(crate) fn dispose(
        &mut self,
        object: &mut Object,
        alloc: Global,
        weak: &WeakSlots,
        id: ObjectId,
    ) -> Vec<ObjectId>
        ensures object { object.new ≡ emptied weak.now object.old }
        ensures children { ids_of result.items ≡ object.old.children }
        ensures names { (t : ℕ) → names_any t object.new.values ≡ true → MayName self.new t id.0 }
        ensures others { StaysBeside id.0 self.old self.new }
    {
        self.remove_names(object, weak.of(object.class()), id);
        let children = object.dispose(alloc, weak);
        // The pairs of weak values are there still, unless a strong value named the same object.
        self.add_names(object, id);
        children
    }
}
