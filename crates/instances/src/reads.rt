//! Queries on the objects of a heap.

ghost use Rattle.std.specs.Prelude.{◌≡◌, ◌<◌, ◌↔◌, ℕ, IfSome, IsSome, IsTrue, Ok, Some, is_some, length, nat_eq, option_map};
ghost use Rattle.std.specs.List.{list_any};
ghost use Rattle.ui_machine.specs.Rules.Sets.{is_disposed};
ghost use Rattle.ui_machine.specs.State.Objects.{asked, class_in, living, value_at};
ghost use Rattle.ui_machine.specs.State.Objects as machine;
ghost use Rattle.ui_machine.specs.State.References.{next_unheld};
ghost use Rattle.param_specs.specs.Table.{specs_of};
ghost use Rattle.g_values.specs.View.{value_view};
ghost use Rattle.instance_tables.specs.Store.{count_of, freezes_in, id_of, may_hold};
ghost use Rattle.instances.specs.Calls.{HasSlot};
ghost use Rattle.instances.specs.Heaps.{classes_of, objects_of};

use crate::heaps::Heap;
use g_values::Value;
use type_tree::TypeId;
use ui_machine::{ObjectId, Place, Slot};

impl Heap<'_> {
    /// Returns whether an object lives.
    pub fn is_live(&self, id: ObjectId) -> bool
        ensures { result ≡ is_some (living (objects_of self.now).objects id.0) }
    {
        self.table.is_live(id)
    }

    /// Returns whether an object lives and may be held once more.
    pub fn can_hold(&self, id: ObjectId) -> bool
        ensures { result ≡ may_hold (objects_of self.now) id.0 }
    {
        self.table.can_hold(id)
    }

    /// Returns the lowest identity of an object that nothing holds.
    pub fn next_unheld(&self) -> Option<ObjectId>
        ensures found { id_of result ≡ next_unheld (count_of (objects_of self.now).counts) (objects_of self.now).objects }
        ensures live { IfSome result (λ id. IsSome (living (objects_of self.now).objects id.0)) }
        ensures unheld { IfSome result (λ id. count_of (objects_of self.now).counts id.0 ≡ 0) }
    {
        self.table.next_unheld()
    }

    /// Returns the class of an object that lives. The object has the slots of its class.
    pub fn type_of(&self, id: ObjectId) -> TypeId
        requires { IsSome (living (objects_of self.now).objects id.0) }
        ensures class { class_in (objects_of self.now).objects id.0 ≡ Some result }
        ensures slots { (slot : ℕ) → slot < length (specs_of (classes_of self.now).types.now (classes_of self.now).specs.now result)
            → HasSlot (objects_of self.now) id.0 slot }
    {
        self.table.class_of(id)
    }

    /// Returns the place of an object that lives.
    pub fn place_of(&self, id: ObjectId) -> Place
        requires { IsSome (living (objects_of self.now).objects id.0) }
        ensures { option_map (λ (o : machine.Object). o.place) (living (objects_of self.now).objects id.0) ≡ Some result.0 }
    {
        self.table.place_of(id)
    }

    /// Returns whether an object lives and was disposed.
    pub fn is_disposed(&self, id: ObjectId) -> bool
        ensures { result ≡ is_disposed (living (objects_of self.now).objects id.0) }
    {
        self.table.is_disposed(id)
    }

    /// Returns whether an object lives and its notifications are frozen.
    pub fn is_frozen(&self, id: ObjectId) -> bool
        ensures { IsTrue result ↔ (0 < freezes_in (living (objects_of self.now).objects id.0)) }
    {
        self.table.is_frozen(id)
    }

    /// Returns whether an object floats.
    pub fn is_floating(&self, id: ObjectId) -> bool
        ensures { result ≡ list_any (λ i. nat_eq i id.0) (objects_of self.now).floating }
    {
        self.table.is_floating(id)
    }

    /// Returns the value of a property of an object that lives, in a slot of its class.
    pub fn read(&self, id: ObjectId, slot: Slot) -> &Value
        requires { HasSlot (objects_of self.now) id.0 slot }
        ensures { asked (objects_of self.now).objects id.0 (value_at slot) ≡ Ok (value_view result.now) }
    {
        self.table.read(id, slot)
    }
}
