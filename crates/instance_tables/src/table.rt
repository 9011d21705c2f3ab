//! The table of objects by their identities.

ghost use Rattle.std.specs.Prelude.{◌≡◌, ℕ, suc, length, ◌+◌, ◌-◌, ◌<◌, ◌^◌, ◌↔◌, [], IfOk, IfSome, IsOk, IsSome, IsTrue, is_some, None, Ok, option_copied, reverse, OnErr};
ghost use Rattle.ui_machine.specs.State.Objects.{asked, changed, living, most_identities, value_at, with_value};
ghost use Rattle.ui_machine.specs.State.References.{next_unheld};
ghost use Rattle.ui_machine.specs.Rules.NotifyQueue.{raised, frozen_more, frozen_less};
ghost use Rattle.ui_machine.specs.Rules.Sets.{is_disposed};
ghost use Rattle.ui_machine.specs.Rules.Disposal.{peer_of};
ghost use Rattle.g_values.specs.View.{value_view};
ghost use Rattle.instance_tables.specs.Store.{IsNextLiving, count_of, freezes_in, id_of, with_count, with_object, with_objects, has_room, may_hold, so_often, Creates};

use crate::error::CreateError;
use crate::instance::Instance;
use crate::instances::Instances;
use crate::namers::Namers;
use crate::object::Object;
use crate::object_values::named;
use crate::unheld::Unheld;
use g_values::Value;
use std::alloc::{AllocError, Global};
use std::marker::Model;
use type_tree::TypeId;
use ui_machine::{ObjectId, Place, Slot};

/// The objects that live, and how often each is held.
#[derive(Drop)]
pub struct Table {
    pub(crate) instances: Instances,
    pub(crate) made: u64,
    limit: u32,
    pub(crate) floating: Vec<ObjectId>,
    pub(crate) unheld: Unheld,
    // The index of which objects name which.
    pub(crate) namers: Namers,
    pub(crate) alloc: Global,
}

impl Model for Table {
    ghost use Rattle.instance_tables.specs.Store.{Store};

    ghost Value = { Store };

    ghost use Rattle.instance_tables.specs.Unheld.{KnowsUnheld};
    ghost use Rattle.instance_tables.specs.View.{instances_at, store_of, held_in, InRange, KinInRange};
    ghost use Rattle.instance_tables.specs.Names.{NamersKnow};
    ghost use Rattle.instance_tables.specs.Bounds.{AllHoldFew};

    ghost view = { λ t. store_of (instances_at t.instances) t.made t.limit t.floating.items };

    ghost invariant = { λ t. InRange (instances_at t.instances) t.made
        × KnowsUnheld (held_in (instances_at t.instances)) t.unheld
        × KinInRange (instances_at t.instances) t.made
        × NamersKnow t.namers (instances_at t.instances)
        × AllHoldFew (instances_at t.instances) };
}

impl Table {
    /// Creates a table without objects, with a limit on how many may live. Takes no memory.
    pub fn new(alloc: Global, limit: u32) -> Self
        ensures { result ≡ record { objects = []; counts = []; limit = limit; floating = [] } }
    {
        Table {
            instances: Instances::new(alloc),
            made: 0,
            limit,
            floating: Vec::new(alloc),
            unheld: Unheld::new(alloc),
            namers: Namers::new(alloc),
            alloc,
        }
    }

    /// Returns whether there is room for one more object besides `to_come` others, both in the number of living objects and in identities.
    pub fn has_room(&self, to_come: u32) -> bool
        ensures { result ≡ has_room to_come self.now }
    {
        self.has_room_below(self.limit, to_come)
    }

    /// Like `has_room`, with `most` as the limit of living objects.
    pub fn has_room_below(&self, most: u32, to_come: u32) -> bool
        ensures { result ≡ has_room to_come (record self.now { limit = most }) }
    {
        let Some(limit) = most.checked_sub(to_come) else {
            return false;
        };
        if self.instances.len() >= limit as usize {
            return false;
        }
        u64::from(to_come) < u64::MAX - self.made
    }

    /// Adds an object under the next identity. It has neither children nor a parent, and nothing holds it yet.
    ///
    /// # Errors
    ///
    /// Returns `ObjectLimit` if there is no room, and then `OutOfMemory` if memory is refused. The table is unchanged then.
    pub fn create(&mut self, object: Object) -> Result<ObjectId, CreateError>
        requires childless { object.children ≡ [] }
        requires parentless { object.parent ≡ None }
        ensures { Creates result object self.old self.new }
    {
        if !self.has_room(0) {
            return Err(CreateError::ObjectLimit);
        }
        let Ok(id) = self.make(object) else {
            return Err(CreateError::OutOfMemory);
        };
        Ok(id)
    }

    /// Adds an object as `create` does, but without testing the table's own limit, which is left to the caller. An identity has to be left.
    ///
    /// # Errors
    ///
    /// `AllocError` if memory is refused. The table is unchanged then.
    pub fn make(&mut self, object: Object) -> Result<ObjectId, AllocError>
        requires childless { object.children ≡ [] }
        requires parentless { object.parent ≡ None }
        requires identity { length self.old.objects < most_identities }
        ensures made { IfOk result (λ id. (id.0 ≡ suc (length self.old.objects)) × (self.new ≡ with_object object self.old)) }
        ensures err { OnErr result (self.new ≡ self.old) }
    {
        // For the proof: the number of objects made.
        let _lives = self.instances.len();
        let id = self.made + 1;
        // For the proof: the number of values of the object.
        object.holds_few();
        self.namers.add_names(&object, ObjectId(id));
        let instance = Instance {
            object,
            mentions: 0,
        };
        self.instances.insert(ObjectId(id), instance)?;
        self.made = id;
        self.unheld.let_go(ObjectId(id), 0);
        Ok(ObjectId(id))
    }

    /// Returns whether an object lives. One that does not live is not held.
    pub fn is_live(&self, id: ObjectId) -> bool
        ensures dead { (o : ℕ) → living self.now.objects o ≡ None → count_of self.now.counts o ≡ 0 }
        ensures live { result ≡ is_some (living self.now.objects id.0) }
    {
        self.instances.contains(id)
    }

    /// Returns an object that lives, or `None` if none of this identity does.
    pub fn object(&self, id: ObjectId) -> Option<&Object>
        ensures { option_copied result ≡ living self.now.objects id.0 }
    {
        let Some(instance) = self.instances.get(id) else {
            return None;
        };
        Some(&instance.object)
    }

    /// Returns the lowest identity of an object that lives, from this identity on.
    pub fn next_live(&self, from: ObjectId) -> Option<ObjectId>
        ensures { IsNextLiving self.now.objects from.0 (id_of result) }
    {
        self.instances.first_from(from)
    }

    /// Returns the class of an object that lives.
    pub fn class_of(&self, id: ObjectId) -> TypeId
        requires live { IsSome (living self.now.objects id.0) }
        ensures { asked self.now.objects id.0 (λ o. Ok o.class) ≡ Ok result }
    {
        let Some(instance) = self.instances.get(id) else {
            unreachable!()
        };
        instance.object.class()
    }

    /// Returns the place of an object that lives.
    pub fn place_of(&self, id: ObjectId) -> Place
        requires live { IsSome (living self.now.objects id.0) }
        ensures { asked self.now.objects id.0 (λ o. Ok o.place) ≡ Ok result.0 }
    {
        let Some(instance) = self.instances.get(id) else {
            unreachable!()
        };
        instance.object.place()
    }

    /// Returns whether an object lives and was disposed.
    pub fn is_disposed(&self, id: ObjectId) -> bool
        ensures { result ≡ is_disposed (living self.now.objects id.0) }
    {
        let Some(instance) = self.instances.get(id) else {
            return false;
        };
        instance.object.is_disposed()
    }

    /// Returns the number of an object's peer, or `None` if it has none or does not live.
    pub fn peer_of(&self, id: ObjectId) -> Option<usize>
        ensures { result ≡ peer_of (living self.now.objects id.0) }
    {
        let Some(instance) = self.instances.get(id) else {
            return None;
        };
        instance.object.peer()
    }

    /// Returns the value of a property of an object that lives, in a slot that it has.
    pub fn read(&self, id: ObjectId, slot: Slot) -> &Value
        requires slot { IsOk (asked self.now.objects id.0 (value_at slot)) }
        ensures { asked self.now.objects id.0 (value_at slot) ≡ Ok (value_view result.now) }
    {
        let Some(instance) = self.instances.get(id) else {
            unreachable!()
        };
        instance.object.read(slot)
    }

    // Writes a property and returns the old value. The caller updates the hold counts.
    pub(crate) fn replace(&mut self, id: ObjectId, slot: Slot, value: Value) -> Value
        requires slot { IsOk (asked self.old.objects id.0 (value_at slot)) }
        ensures changes { changed self.old.objects id.0 (with_value slot (value_view value)) ≡ Ok (record { state = self.new.objects; answer = value_view result }) }
        ensures beside { self.new ≡ with_objects self.old self.new.objects }
    {
        self.namers.add_any(named(&value), id);
        let Some(instance) = self.instances.get_mut(id) else {
            unreachable!()
        };
        instance.object.write(slot, value)
    }

    /// Returns whether an object lives and its notifications are frozen.
    pub fn is_frozen(&self, id: ObjectId) -> bool
        ensures { IsTrue result ↔ (0 < freezes_in (living self.now.objects id.0)) }
    {
        let Some(instance) = self.instances.get(id) else {
            return false;
        };
        instance.object.is_frozen()
    }

    /// Adds one freeze to an object that lives and may be frozen once more.
    pub fn freeze(&mut self, id: ObjectId)
        requires able { IsOk (changed self.old.objects id.0 frozen_more) }
        ensures changes { changed self.old.objects id.0 frozen_more ≡ Ok (record { state = self.new.objects; answer = tt }) }
        ensures beside { self.new ≡ with_objects self.old self.new.objects }
    {
        let Some(instance) = self.instances.get_mut(id) else {
            unreachable!()
        };
        instance.object.freeze();
    }

    /// Removes one freeze from an object that is frozen. Returns the notifications that are due then, to be made from the last to the
    /// first.
    pub fn thaw(&mut self, id: ObjectId) -> Vec<Slot>
        requires able { IsOk (changed self.old.objects id.0 frozen_less) }
        ensures changes { changed self.old.objects id.0 frozen_less ≡ Ok (record { state = self.new.objects; answer = reverse result.items }) }
        ensures beside { self.new ≡ with_objects self.old self.new.objects }
    {
        let alloc = self.alloc;
        let Some(instance) = self.instances.get_mut(id) else {
            unreachable!()
        };
        instance.object.thaw(alloc)
    }

    /// Queues a notification if the object, which lives, is frozen. Returns true if it is not, so that the notification is to be made at
    /// once.
    ///
    /// # Errors
    ///
    /// `AllocError` if memory is refused. Nothing has changed then.
    pub fn add(&mut self, id: ObjectId, slot: Slot) -> Result<bool, AllocError>
        requires live { IsSome (living self.old.objects id.0) }
        ensures changes { IfOk result (λ now. changed self.old.objects id.0 (raised slot) ≡ Ok (record { state = self.new.objects; answer = now })) }
        ensures beside { self.new ≡ with_objects self.old self.new.objects }
        ensures refused { OnErr result (self.new ≡ self.old) }
    {
        let Some(instance) = self.instances.get_mut(id) else {
            unreachable!()
        };
        instance.object.add(slot)
    }

    /// Returns whether an object lives and may be held once more.
    pub fn can_hold(&self, id: ObjectId) -> bool
        ensures { result ≡ may_hold self.now id.0 }
    {
        let Some(instance) = self.instances.get(id) else {
            return false;
        };
        instance.mentions < u128::MAX
    }

    // Lowers the hold count of an object by `times`, to zero at the lowest.
    pub(crate) fn release(&mut self, id: ObjectId, times: u128)
        ensures counts { (o : ℕ) → count_of self.new.counts o ≡ count_of self.old.counts o - so_often times id.0 o }
        ensures beside { self.new ≡ record self.old { counts = self.new.counts } }
    {
        let Some(instance) = self.instances.get_mut(id) else {
            return;
        };
        instance.mentions = instance.mentions.saturating_sub(times);
        self.unheld.let_go(id, instance.mentions);
    }

    /// Raises the hold count of an object by one.
    pub fn hold(&mut self, id: ObjectId)
        requires live { IsSome (living self.old.objects id.0) }
        requires room { count_of self.old.counts id.0 < 2 ^ 128 - 1 }
        ensures { self.new ≡ with_count self.old id.0 (count_of self.old.counts id.0 + 1) }
    {
        let Some(instance) = self.instances.get_mut(id) else {
            return;
        };
        instance.mentions += 1;
        self.unheld.remove(&self.instances, id);
    }

    /// Lowers the hold count of an object by one.
    pub fn let_go(&mut self, id: ObjectId)
        requires held { 0 < count_of self.old.counts id.0 }
        ensures { self.new ≡ with_count self.old id.0 (count_of self.old.counts id.0 - 1) }
    {
        let Some(instance) = self.instances.get_mut(id) else {
            return;
        };
        instance.mentions -= 1;
        self.unheld.let_go(id, instance.mentions);
    }

    /// Returns the lowest identity of an object that nothing holds. Looks at no object, since the table keeps track of it as objects are
    /// made, held, let go and removed. An object that does not live is not held.
    pub fn next_unheld(&self) -> Option<ObjectId>
        ensures found { id_of result ≡ next_unheld (count_of self.now.counts) self.now.objects }
        ensures dead { (o : ℕ) → living self.now.objects o ≡ None → count_of self.now.counts o ≡ 0 }
        ensures live { IfSome result (λ id. IsSome (living self.now.objects id.0)) }
        ensures unheld { IfSome result (λ id. count_of self.now.counts id.0 ≡ 0) }
    {
        self.unheld.lowest
    }
}
