//! Parents, children and floating objects of a heap.

ghost use Rattle.std.specs.Prelude.{◌≡◌, ◌<◌, ◌^◌, ◌-◌, ℕ, IsSome, None, Some, is_some};
ghost use Rattle.std.specs.Result.{IsErrOf};
ghost use Rattle.ui_machine.specs.State.Objects.{living};
ghost use Rattle.instance_tables.specs.Store.{count_of};
ghost use Rattle.instance_tables.specs.Family.{Adopts, Leaves, Sinks, parent_in};
ghost use Rattle.instances.specs.Heaps.{ChangesObjects, objects_of};

use crate::heaps::Heap;
use instance_tables::AdoptError;
use ui_machine::ObjectId;

impl Heap<'_> {
    /// Makes an object another's child: the parent holds it, and it no longer floats.
    ///
    /// # Errors
    ///
    /// Returns `HasParent` if the child has a parent or is the parent itself, then `ChildLimit` if the parent has as many children as it
    /// may, then `OutOfMemory` if memory is refused. Nothing has changed then.
    pub fn adopt(&mut self, parent: ObjectId, child: ObjectId) -> Result<(), AdoptError>
        requires parent { IsSome (living (objects_of self.now).objects parent.0) }
        requires child { IsSome (living (objects_of self.now).objects child.0) }
        requires room { count_of (objects_of self.now).counts child.0 < 2 ^ 128 - 1 }
        ensures adopts { Adopts result parent.0 child.0 (objects_of self.old) (objects_of self.new) }
        ensures live { IsErrOf result AdoptError.NotLiving → ⊥ }
        ensures beside { ChangesObjects self.old self.new }
    {
        self.table.adopt(parent, child)
    }

    /// Removes an object from its parent's children, so that the parent no longer holds it. Returns whether the object had a parent.
    pub fn orphan(&mut self, child: ObjectId) -> bool
        ensures had { result ≡ is_some (parent_in (living (objects_of self.old).objects child.0)) }
        ensures alone { parent_in (living (objects_of self.old).objects child.0) ≡ None → objects_of self.new ≡ objects_of self.old }
        ensures leaves { (parent : ℕ) → parent_in (living (objects_of self.old).objects child.0) ≡ Some parent
            → Leaves parent child.0 (objects_of self.old) (objects_of self.new) }
        ensures beside { ChangesObjects self.old self.new }
    {
        self.table.orphan(child)
    }

    /// Removes an object from the floating ones, so that floating no longer holds it.
    pub fn sink(&mut self, id: ObjectId)
        ensures sinks { Sinks id.0 (objects_of self.old) (objects_of self.new) }
        ensures beside { ChangesObjects self.old self.new }
    {
        self.table.sink(id);
    }
}
