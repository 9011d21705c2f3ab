//! The objects that nothing holds.
//!
//! The lowest identity of them is noted, and the others are kept in order: so the next lowest is found without a search when that object is
//! held again or removed. If memory ran out for the others, objects are searched from it on, since those below it are held.

ghost use Rattle.std.specs.Prelude.{◌≡◌, ◌≢◌, ℕ, Bool, true, false, Some, None, Option, cond, max, nat_eq};
ghost use Rattle.std.specs.BTreeSet.{contains};
ghost use Rattle.std.specs.Ordering.{nat_cmp};
ghost use Rattle.instance_tables.specs.Store.{id_of};
ghost use Rattle.instance_tables.specs.Unheld.{Adds, KnowsUnheld, IsLetGo, LeavesNext};
ghost use Rattle.instance_tables.specs.View.{held_in, instances_at, IsHeldOrGone};

use crate::instances::Instances;
use std::alloc::Global;
use std::collections::BTreeSet;
use ui_machine::ObjectId;

/// The identities of the objects that nothing holds.
#[derive(Drop)]
pub(crate) struct Unheld {
    pub(crate) lowest: Option<ObjectId>,
    pub(crate) others: BTreeSet<u64>,
    // Whether `others` has all others.
    pub(crate) is_whole: bool,
}

impl Unheld {
    /// Creates a collection without identities. Takes no memory.
    pub(crate) fn new(alloc: Global) -> Self
        ensures { KnowsUnheld (λ _. None) result }
    {
        Unheld {
            lowest: None,
            others: BTreeSet::new(alloc),
            is_whole: true,
        }
    }

    /// Notes how often an object is held that was made or let go.
    pub(crate) fn let_go(&mut self, id: ObjectId, mentions: u128)
        ensures { (held new : ℕ → Option ℕ) → KnowsUnheld held self.old → IsLetGo held new id.0 mentions → KnowsUnheld new self.new }
    {
        if mentions == 0 {
            self.add(id);
        }
    }

    // Adds the identity of an object that nothing holds now.
    fn add(&mut self, id: ObjectId)
        ensures { (held new : ℕ → Option ℕ) → KnowsUnheld held self.old → IsLetGo held new id.0 0 → KnowsUnheld new self.new }
    {
        let Some(lowest) = self.lowest else {
            self.lowest = Some(id);
            return;
        };
        if lowest == id {
            return;
        }
        self.lowest = Some(ObjectId(lowest.0.min(id.0)));
        self.add_other(lowest.0.max(id.0));
    }

    // Adds an identity beside the lowest one, unless memory ran out.
    fn add_other(&mut self, id: u64)
        ensures lowest { self.new.lowest ≡ self.old.lowest }
        ensures others { self.new.is_whole ≡ true → Adds self.old self.new id }
    {
        if !self.is_whole {
            return;
        }
        let Ok(_is_new) = self.others.insert(id) else {
            self.is_whole = false;
            return;
        };
    }

    /// Notes that an object is held now or gone.
    pub(crate) fn remove(&mut self, instances: &Instances, id: ObjectId)
        ensures { (held : ℕ → Option ℕ) → KnowsUnheld held self.old → IsHeldOrGone held (held_in (instances_at instances.now)) id.0
            → KnowsUnheld (held_in (instances_at instances.now)) self.new }
    {
        if self.lowest == Some(id) {
            self.lowest = self.take_next(instances, id);
        } else {
            self.others.remove(&id.0);
        }
    }

    // Takes the lowest one behind this one, which is held now or gone.
    fn take_next(&mut self, instances: &Instances, id: ObjectId) -> Option<ObjectId>
        ensures { LeavesNext instances.now id.0 self.old self.new (id_of result) }
    {
        if !self.is_whole {
            return instances.first_unheld(id);
        }
        let next = self.others.pop_first()?;
        Some(ObjectId(next))
    }
}
