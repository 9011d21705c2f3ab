//! Changes of single objects of a heap.

ghost use Rattle.std.specs.Prelude.{◌≡◌, ◌<◌, ◌^◌, ◌+◌, ◌-◌, IfOk, IsSome, OnErr, reverse};
ghost use Rattle.ui_machine.specs.Rules.NotifyQueue.{frozen_less, frozen_more, raised};
ghost use Rattle.ui_machine.specs.State.Objects.{living};
ghost use Rattle.g_values.specs.View.{value_view};
ghost use Rattle.instance_tables.specs.Store.{count_of, freezes_in, with_count};
ghost use Rattle.instances.specs.Calls.{Changes, HasSlot, Writes};
ghost use Rattle.instances.specs.Heaps.{ChangesObjects, marks_of, objects_of};

use crate::heaps::Heap;
use g_values::Value;
use std::alloc::AllocError;
use ui_machine::{ObjectId, Slot};

impl Heap<'_> {
    /// Writes a property of an object that lives, in a slot of its class, and returns the old value. If the property is strong, the old
    /// value's object is let go, and the new value's object is held, if it lives and may be held once more.
    pub fn write(&mut self, id: ObjectId, slot: Slot, value: Value) -> Value
        requires { HasSlot (objects_of self.now) id.0 slot }
        ensures writes { Writes (marks_of self.old) id.0 slot (value_view result) (value_view value) (objects_of self.old) (objects_of self.new) }
        ensures beside { ChangesObjects self.old self.new }
    {
        self.table.write(self.classes.weak, id, slot, value)
    }

    /// Raises the hold count of an object by one.
    pub fn hold(&mut self, id: ObjectId)
        requires live { IsSome (living (objects_of self.now).objects id.0) }
        requires room { count_of (objects_of self.now).counts id.0 < 2 ^ 128 - 1 }
        ensures holds { objects_of self.new ≡ with_count (objects_of self.old) id.0 (count_of (objects_of self.old).counts id.0 + 1) }
        ensures held { 0 < count_of (objects_of self.new).counts id.0 }
        ensures beside { ChangesObjects self.old self.new }
    {
        self.table.hold(id);
    }

    /// Lowers the hold count of an object that is held by one.
    pub fn let_go(&mut self, id: ObjectId)
        requires { 0 < count_of (objects_of self.now).counts id.0 }
        ensures lets_go { objects_of self.new ≡ with_count (objects_of self.old) id.0 (count_of (objects_of self.old).counts id.0 - 1) }
        ensures beside { ChangesObjects self.old self.new }
    {
        self.table.let_go(id);
    }

    /// Adds one freeze to an object's notifications.
    pub fn freeze(&mut self, id: ObjectId)
        requires live { IsSome (living (objects_of self.now).objects id.0) }
        requires room { freezes_in (living (objects_of self.now).objects id.0) < 2 ^ 64 - 1 }
        ensures freezes { Changes id.0 frozen_more tt (objects_of self.old) (objects_of self.new) }
        ensures beside { ChangesObjects self.old self.new }
    {
        self.table.freeze(id);
    }

    /// Removes one freeze from an object that is frozen. Returns the notifications that are due then, to be made from the last to the
    /// first.
    pub fn thaw(&mut self, id: ObjectId) -> Vec<Slot>
        requires { 0 < freezes_in (living (objects_of self.now).objects id.0) }
        ensures thaws { Changes id.0 frozen_less (reverse result.items) (objects_of self.old) (objects_of self.new) }
        ensures beside { ChangesObjects self.old self.new }
    {
        self.table.thaw(id)
    }

    /// Queues a notification if the object is frozen. Returns true if it is not, so that the notification is to be made at once.
    ///
    /// # Errors
    ///
    /// `AllocError` if memory is refused. Nothing has changed then.
    pub fn add(&mut self, id: ObjectId, slot: Slot) -> Result<bool, AllocError>
        requires { IsSome (living (objects_of self.now).objects id.0) }
        ensures raises { IfOk result (λ now. Changes id.0 (raised slot) now (objects_of self.old) (objects_of self.new)) }
        ensures err { OnErr result (objects_of self.new ≡ objects_of self.old) }
        ensures beside { ChangesObjects self.old self.new }
    {
        self.table.add(id, slot)
    }
}
