//! Parents, children and floating objects.

ghost use Rattle.std.specs.Prelude.{◌≡◌, ℕ, suc, is_some, ◌+◌, ◌-◌, ◌^◌, ◌<◌, ◌≤◌, ◌++◌, ◌∷◌, [], IfOk, IsSome, Some, None, length, nat_eq, slice_get, OnOk, OnErr};
ghost use Rattle.std.specs.List.{list_any};
ghost use Rattle.ui_machine.specs.Seq.{total};
ghost use Rattle.ui_machine.specs.State.Config.{without};
ghost use Rattle.ui_machine.specs.State.Objects.{living, most_identities};
ghost use Rattle.ui_machine.specs.State.References.{same};
ghost use Rattle.ui_machine.specs.Rules.Children.{updated, with_child, with_parent, without_child};
ghost use Rattle.ui_machine.specs.Rules.Disposal.{children_of};
ghost use Rattle.instance_tables.specs.Store.{CreatesFloating, id_of, ids_of, count_of, with_count, with_floating, with_object, with_objects};
ghost use Rattle.instance_tables.specs.Family.{refusal_in, parent_in, Adopts, Leaves, Sinks};

use crate::error::{AdoptError, CreateError};
use crate::ids::{is_among, remove_id};
use crate::object::Object;
use crate::table::Table;
use std::alloc::AllocError;
use std::mem;
use ui_machine::ObjectId;

impl Table {
    /// Makes an object another's child: the parent holds it, and it no longer floats. Nothing changes on an error.
    ///
    /// # Errors
    ///
    /// Returns `NotLiving` if one of the objects does not live, `HasParent` if the child has a parent or is the parent itself, `ChildLimit`
    /// if the parent has as many children as it may, and then `OutOfMemory` if memory is refused. The table is unchanged then.
    pub fn adopt(&mut self, parent: ObjectId, child: ObjectId) -> Result<(), AdoptError>
        requires room { count_of self.old.counts child.0 < 2 ^ 128 - 1 }
        ensures { Adopts result parent.0 child.0 self.old self.new }
    {
        if let Some(refusal) = self.refusal(parent, child) {
            return Err(refusal);
        }
        let Ok(()) = self.hold_child(parent, child) else {
            return Err(AdoptError::OutOfMemory);
        };
        self.give_parent(child, Some(parent));
        self.sink(child);
        Ok(())
    }

    /// Returns why an object may not become another's child, or `None` if it may.
    pub fn refusal(&self, parent: ObjectId, child: ObjectId) -> Option<AdoptError>
        ensures { result ≡ refusal_in self.now parent.0 child.0 }
    {
        let Some(above) = self.instances.get(parent) else {
            return Some(AdoptError::NotLiving);
        };
        let Some(below) = self.instances.get(child) else {
            return Some(AdoptError::NotLiving);
        };
        if below.object.parent().is_some() {
            return Some(AdoptError::HasParent);
        }
        if parent.0 == child.0 {
            return Some(AdoptError::HasParent);
        }
        if above.object.is_full() {
            return Some(AdoptError::ChildLimit);
        }
        None
    }

    /// Returns the parent of an object, or `None` if it has none or does not live.
    pub fn parent_of(&self, id: ObjectId) -> Option<ObjectId>
        ensures parent { id_of result ≡ parent_in (living self.now.objects id.0) }
        ensures given { (parent : ℕ) → parent_in (living self.now.objects id.0) ≡ Some parent → parent ≤ length self.now.objects }
    {
        let Some(instance) = self.instances.get(id) else {
            return None;
        };
        instance.object.parent()
    }

    /// Removes an object from its parent's children, so that the parent no longer holds it. Returns whether the object had a parent.
    pub fn orphan(&mut self, child: ObjectId) -> bool
        ensures had { result ≡ is_some (parent_in (living self.old.objects child.0)) }
        ensures alone { parent_in (living self.old.objects child.0) ≡ None → self.new ≡ self.old }
        ensures leaves { (parent : ℕ) → parent_in (living self.old.objects child.0) ≡ Some parent → Leaves parent child.0 self.old self.new }
    {
        let Some(parent) = self.parent_of(child) else {
            return false;
        };
        let gone = self.remove_child(parent, child);
        self.give_parent(child, None);
        self.release(child, gone as u128);
        true
    }

    // Adds a child to an object, which then holds it.
    fn hold_child(&mut self, parent: ObjectId, child: ObjectId) -> Result<(), AllocError>
        requires parent { IsSome (living self.old.objects parent.0) }
        requires live { IsSome (living self.old.objects child.0) }
        requires room { count_of self.old.counts child.0 < 2 ^ 128 - 1 }
        ensures ok { OnOk result (self.new ≡ with_count (with_objects self.old (updated (with_child child.0) parent.0 self.old.objects)) child.0 (count_of self.old.counts child.0 + 1)) }
        ensures err { OnErr result (self.new ≡ self.old) }
    {
        self.add_child(parent, child)?;
        self.hold(child);
        Ok(())
    }

    // Adds a child to an object that lives. The child's hold count is not changed.
    fn add_child(&mut self, parent: ObjectId, child: ObjectId) -> Result<(), AllocError>
        requires live { IsSome (living self.old.objects parent.0) }
        requires given { child.0 ≤ length self.old.objects }
        ensures ok { OnOk result (self.new ≡ with_objects self.old (updated (with_child child.0) parent.0 self.old.objects)) }
        ensures err { OnErr result (self.new ≡ self.old) }
    {
        let Some(instance) = self.instances.get_mut(parent) else {
            unreachable!()
        };
        instance.object.add_child(child)?;
        Ok(())
    }

    // Removes a child from an object's children, and returns how often it was among them. The child's hold count is not changed.
    fn remove_child(&mut self, parent: ObjectId, child: ObjectId) -> usize
        requires given { parent.0 ≤ length self.old.objects }
        ensures objects { self.new.objects ≡ updated (without_child child.0) parent.0 self.old.objects }
        ensures count { result ≡ total (same child.0) (children_of (living self.old.objects parent.0)) }
        ensures beside { self.new ≡ with_objects self.old self.new.objects }
    {
        let Some(instance) = self.instances.get_mut(parent) else {
            return 0;
        };
        instance.object.remove_child(child)
    }

    // Sets or clears the parent of an object.
    pub(crate) fn give_parent(&mut self, id: ObjectId, parent: Option<ObjectId>)
        requires given { id.0 ≤ length self.old.objects }
        requires kin { (p : ℕ) → id_of parent ≡ Some p → p ≤ length self.old.objects }
        ensures objects { self.new.objects ≡ updated (with_parent (id_of parent)) id.0 self.old.objects }
        ensures beside { self.new ≡ with_objects self.old self.new.objects }
    {
        let Some(instance) = self.instances.get_mut(id) else {
            return;
        };
        instance.object.give_parent(parent);
    }

    /// Removes an object from the floating ones, so that floating no longer holds it.
    pub fn sink(&mut self, id: ObjectId)
        ensures { Sinks id.0 self.old self.new }
    {
        let gone = self.remove_floating(id);
        self.release(id, gone as u128);
    }

    // Removes an object from the list of floating objects, and returns how often it was there.
    fn remove_floating(&mut self, id: ObjectId) -> usize
        ensures floating { self.new ≡ record self.old { floating = without id.0 self.old.floating } }
        ensures count { result ≡ total (same id.0) self.old.floating }
    {
        remove_id(&mut self.floating, id)
    }

    /// Returns whether an object floats.
    pub fn is_floating(&self, id: ObjectId) -> bool
        ensures { result ≡ list_any (λ i. nat_eq i id.0) self.now.floating }
    {
        is_among(&self.floating, id)
    }

    /// Returns the object that has floated longest, or `None` if nothing floats.
    pub fn first_floating(&self) -> Option<ObjectId>
        ensures { id_of result ≡ slice_get self.now.floating 0 }
    {
        self.floating.first().copied()
    }

    /// Adds an object as `create` does, which floats from the beginning and so is held once.
    ///
    /// # Errors
    ///
    /// Returns `ObjectLimit` if there is no room, and then `OutOfMemory` if memory is refused. The table is unchanged then.
    pub fn create_floating(&mut self, object: Object) -> Result<ObjectId, CreateError>
        requires childless { object.children ≡ [] }
        requires parentless { object.parent ≡ None }
        ensures { CreatesFloating result object self.old self.new }
    {
        if !self.has_room(0) {
            return Err(CreateError::ObjectLimit);
        }
        let Ok(id) = self.make_floating(object) else {
            return Err(CreateError::OutOfMemory);
        };
        Ok(id)
    }

    /// Adds a floating object as `create_floating` does, but without testing for room, as `make` does. An identity has to be left.
    ///
    /// # Errors
    ///
    /// `AllocError` if memory is refused. The table is unchanged then.
    pub fn make_floating(&mut self, object: Object) -> Result<ObjectId, AllocError>
        requires childless { object.children ≡ [] }
        requires parentless { object.parent ≡ None }
        requires identity { length self.old.objects < most_identities }
        ensures made { IfOk result (λ id. (id.0 ≡ suc (length self.old.objects)) × (self.new ≡ with_floating id.0 (with_object object self.old))) }
        ensures err { OnErr result (self.new ≡ self.old) }
    {
        let mut floating = mem::replace(&mut self.floating, Vec::new(self.alloc));
        let made = self.make_listed(object, &mut floating);
        self.floating = floating;
        made
    }

    // Adds an object as `make` does, and puts it on a list that holds it once.
    fn make_listed(
        &mut self,
        object: Object,
        list: &mut Vec<ObjectId>,
    ) -> Result<ObjectId, AllocError>
        requires childless { object.children ≡ [] }
        requires parentless { object.parent ≡ None }
        requires identity { length self.old.objects < most_identities }
        ensures made { IfOk result (λ id. (id.0 ≡ suc (length self.old.objects)) × (self.new ≡ with_count (with_object object self.old) id.0 (count_of (with_object object self.old).counts id.0 + 1))) }
        ensures err { OnErr result (self.new ≡ self.old) }
        ensures listed { IfOk result (λ id. ids_of list.new.items ≡ ids_of list.old.items ++ id.0 ∷ []) }
        ensures unlisted { OnErr result (list.new.items ≡ list.old.items) }
    {
        list.reserve(1)?;
        // For the proof: an object that does not live is not held.
        let _unheld = self.next_unheld();
        let id = self.make(object)?;
        // The room is reserved above.
        let Ok(()) = list.push(id) else {
            unreachable!()
        };
        self.hold(id);
        Ok(id)
    }
}
