//! A single object.

ghost use Rattle.std.specs.Prelude.{◌≡◌, ◌+◌, ◌-◌, ◌<◌, ◌^◌, ◌↔◌, IsTrue, IfOk, Ok, map, reverse, length, nat_le, slice_get, OnOk, OnErr};
ghost use Rattle.std.specs.Option.{option_map};
ghost use Rattle.ui_machine.specs.State.Objects.{value_at, with_value};
ghost use Rattle.ui_machine.specs.Rules.NotifyQueue.{raised, frozen_more, frozen_less};
ghost use Rattle.ui_machine.specs.Rules.Children.{most_children, with_child, with_parent, without_child};
ghost use Rattle.ui_machine.specs.declared.ids.ObjectId.{ObjectId};
ghost use Rattle.g_values.specs.View.{value_view};
ghost use Rattle.instance_tables.specs.Weak.{forgetting};
ghost use Rattle.instance_tables.specs.Bounds.{HoldsFew};
ghost use Rattle.instance_tables.specs.Family.{KeepsKin};
ghost use Rattle.instance_tables.specs.Names.{names_any};
ghost use Rattle.instance_tables.specs.Release.{emptied, name_in};
ghost use Rattle.instance_tables.specs.Store.{id_of, ids_of, made_object};

use crate::children::Children;
use crate::object_values::{drop_values, forget_values, is_named, named};
use crate::weak::WeakSlots;
use g_values::Value;
use notify_queue::NotifyQueue;
use std::alloc::{AllocError, Global};
use std::marker::Model;
use std::mem;
use type_tree::TypeId;
use ui_machine::{ObjectId, Place, Slot};

// The most children of an object.
const MOST_CHILDREN: usize = 1024;

/// An object: its class and place, the values of its properties by slot, its queue of notifications, its parent and children, whether it
/// was disposed, and the number of its peer. A contract sees it as an object of the machine.
#[derive(Drop)]
pub struct Object {
    class: TypeId,
    place: Place,
    values: Vec<Value>,
    queue: NotifyQueue,
    children: Children,
    parent: Option<ObjectId>,
    disposed: bool,
    peer: Option<usize>,
}

impl Model for Object {
    ghost use Rattle.std.specs.Prelude.{map};
    ghost use Rattle.std.specs.Option.{option_map};
    ghost use Rattle.ui_machine.specs.State.Objects as config;
    ghost use Rattle.g_values.specs.View.{value_view};
    ghost use Rattle.ui_machine.specs.declared.ids.ObjectId.{ObjectId};

    ghost Value = { config.Object };

    ghost view = { λ o. record {
      class = o.class;
      place = o.place.0;
      values = map value_view o.values.items;
      freezes = o.queue.freezes;
      queue = o.queue.queue;
      children = o.children;
      parent = option_map (λ (i : ObjectId). i.0) o.parent;
      disposed = o.disposed;
      peer = o.peer;
    } };
}

impl Object {
    /// Creates an object with these values, whose notifications are frozen once. Takes no memory.
    pub fn new(
        alloc: Global,
        class: TypeId,
        place: Place,
        values: Vec<Value>,
        peer: Option<usize>,
    ) -> Self
        ensures { result ≡ made_object class place.0 (map value_view values.items) peer }
    {
        let mut queue = NotifyQueue::new(alloc);
        queue.freeze();
        Object {
            class,
            place,
            values,
            queue,
            children: Children::new(alloc),
            parent: None,
            disposed: false,
            peer,
        }
    }

    /// Returns the class.
    pub fn class(&self) -> TypeId
        ensures { result ≡ self.now.class }
    {
        self.class
    }

    /// Returns the place.
    pub fn place(&self) -> Place
        ensures { result.0 ≡ self.now.place }
    {
        self.place
    }

    /// Returns the parent, if there is one.
    pub fn parent(&self) -> Option<ObjectId>
        ensures { id_of result ≡ self.now.parent }
    {
        self.parent
    }

    /// Returns the number of the peer, if there is one.
    pub fn peer(&self) -> Option<usize>
        ensures { result ≡ self.now.peer }
    {
        self.peer
    }

    /// Returns whether the object was disposed.
    pub fn is_disposed(&self) -> bool
        ensures { result ≡ self.now.disposed }
    {
        self.disposed
    }

    /// Returns whether the object has as many children as it may.
    pub fn is_full(&self) -> bool
        ensures { result ≡ nat_le most_children (length self.now.children) }
    {
        self.children.len() >= MOST_CHILDREN
    }

    /// Returns the children in their order.
    pub fn children(&self) -> &[ObjectId]
        ensures { ids_of result.now ≡ self.now.children }
    {
        self.children.as_slice()
    }

    /// Returns the value in a slot, or `None` if the object has no such slot.
    pub fn value(&self, slot: Slot) -> Option<&Value>
        ensures { option_map (λ v. value_view v.now) result ≡ slice_get self.now.values slot }
    {
        self.values.get(usize::from(slot))
    }

    // States that the object's lists are never longer than memory.
    pub(crate) fn holds_few(&self)
        ensures { HoldsFew self.now }
    {
        // For the proof: how long the lists are.
        let _values = self.values.len();
        let _children = self.children.len();
    }

    // Sets or clears the parent.
    pub(crate) fn give_parent(&mut self, parent: Option<ObjectId>)
        ensures { self.new ≡ with_parent (id_of parent) self.old }
    {
        self.parent = parent;
    }

    // Adds a child at the end.
    pub(crate) fn add_child(&mut self, child: ObjectId) -> Result<(), AllocError>
        ensures ok { OnOk result (self.new ≡ with_child child.0 self.old) }
        ensures few { OnOk result (HoldsFew self.new) }
        ensures err { OnErr result (self.new ≡ self.old) }
    {
        self.children.add(child)
    }

    // Removes a child, and returns how often it was one.
    pub(crate) fn remove_child(&mut self, child: ObjectId) -> usize
        ensures object { self.new ≡ without_child child.0 self.old }
        ensures count { result + length self.new.children ≡ length self.old.children }
    {
        self.children.remove(child)
    }

    // Sets the weak values that name the other object to null.
    pub(crate) fn forget(&mut self, weak: &WeakSlots, id: ObjectId)
        ensures { self.new ≡ forgetting weak.now id.0 self.old }
    {
        let slots = weak.of(self.class);
        forget_values(&mut self.values, slots, id);
    }

    // Returns the object that the value in a slot names.
    pub(crate) fn named_at(&self, slot: usize) -> Option<ObjectId>
        ensures { id_of result ≡ name_in (slice_get self.now.values slot) }
    {
        named(self.values.get(slot)?)
    }

    // Returns the number of values.
    pub(crate) fn slot_count(&self) -> usize
        ensures { result ≡ length self.now.values }
    {
        self.values.len()
    }

    // Returns whether some value names the other object.
    pub(crate) fn names(&self, id: ObjectId) -> bool
        ensures { result ≡ names_any id.0 self.now.values }
    {
        is_named(&self.values, id)
    }

    // Disposes the object: sets its strong values of an object kind to null, and removes its children. Returns the former children.
    pub(crate) fn dispose(&mut self, alloc: Global, weak: &WeakSlots) -> Vec<ObjectId>
        ensures object { self.new ≡ emptied weak.now self.old }
        ensures children { ids_of result.items ≡ self.old.children }
    {
        drop_values(&mut self.values, weak.of(self.class));
        self.disposed = true;
        mem::replace(&mut self.children, Children::new(alloc)).into_ids()
    }

    /// Returns the value in a slot that the object has.
    pub fn read(&self, slot: Slot) -> &Value
        requires slot { slot < length self.now.values }
        ensures { value_at slot self.now ≡ Ok (value_view result.now) }
    {
        &self.values[usize::from(slot)]
    }

    /// Writes the value in a slot that the object has, and returns the old one.
    pub fn write(&mut self, slot: Slot, value: Value) -> Value
        requires slot { slot < length self.old.values }
        ensures changes { with_value slot (value_view value) self.old ≡ Ok (record { state = self.new; answer = value_view result }) }
        ensures kin { KeepsKin self.old self.new }
    {
        mem::replace(&mut self.values[usize::from(slot)], value)
    }

    /// Returns whether the notifications are frozen.
    pub fn is_frozen(&self) -> bool
        ensures { IsTrue result ↔ (0 < self.now.freezes) }
    {
        self.queue.is_frozen()
    }

    /// Adds one freeze. The freeze count has to be below its maximum.
    pub fn freeze(&mut self)
        requires { self.old.freezes < 2 ^ 64 - 1 }
        ensures changes { frozen_more self.old ≡ Ok (record { state = self.new; answer = tt }) }
        ensures kin { KeepsKin self.old self.new }
    {
        self.queue.freeze();
    }

    /// Removes one freeze, of which there has to be one. Returns the notifications that are due then, to be made from the last to the
    /// first.
    pub fn thaw(&mut self, alloc: Global) -> Vec<Slot>
        requires { 0 < self.old.freezes }
        ensures changes { frozen_less self.old ≡ Ok (record { state = self.new; answer = reverse result.items }) }
        ensures kin { KeepsKin self.old self.new }
    {
        let Some(slots) = self.queue.thaw() else {
            return Vec::new(alloc);
        };
        slots
    }

    /// Queues a notification if the object is frozen. Returns true if it is not, so that the notification is to be made at once.
    ///
    /// # Errors
    ///
    /// `AllocError` if memory is refused. Nothing has changed then.
    pub fn add(&mut self, slot: Slot) -> Result<bool, AllocError>
        ensures changes { IfOk result (λ now. raised slot self.old ≡ Ok (record { state = self.new; answer = now })) }
        ensures kin { KeepsKin self.old self.new }
        ensures refused { OnErr result (self.new ≡ self.old) }
    {
        if !self.queue.is_frozen() {
            return Ok(true);
        }
        self.queue.add(slot)?;
        Ok(false)
    }
}
