//! Disposing and finalising objects, and clearing the weak properties that name them.

ghost use Rattle.std.specs.Prelude.{◌≡◌, ℕ, ◌-◌, ◌<◌, ◌≤◌, None, cond, length, IsSome};
ghost use Rattle.ui_machine.specs.Definition as machine;
ghost use Rattle.ui_machine.specs.Seq.{total};
ghost use Rattle.ui_machine.specs.State.Objects.{living, put};
ghost use Rattle.ui_machine.specs.State.References.{in_option, same};
ghost use Rattle.ui_machine.specs.Rules.Children.{updated};
ghost use Rattle.ui_machine.specs.Rules.Disposal.{all_forget, children_of, orphans};
ghost use Rattle.instance_tables.specs.Store.{count_of, id_of, ids_of, with_objects};
ghost use Rattle.instance_tables.specs.Weak.{Knows};
ghost use Rattle.instance_tables.specs.Release.{emptied, in_strong, marks_in, name_at, values_in, Disposes, Finalises};

use crate::forgetting::forget_everywhere;
use crate::table::Table;
use crate::weak::WeakSlots;
use ui_machine::ObjectId;

impl Table {
    /// Sets each weak property that names the object to null. Looks at no object if no property is weak, and otherwise only at those that
    /// name the object, unless memory ran out for the index of namers.
    pub fn forget(&mut self, weak: &WeakSlots, id: ObjectId)
        ensures { (d : machine.Definition) → Knows d weak.now → self.new ≡ with_objects self.old (all_forget d id.0 self.old.objects) }
    {
        if !weak.has_weak() {
            return;
        }
        let last = self.made;
        forget_everywhere(&mut self.instances, &mut self.namers, weak, id, last);
    }

    /// Disposes an object, whether it was disposed before or not. The weak properties that name it and its own strong properties of an
    /// object kind become null. Its children are removed, and they have no parent any more. What it held is released. Never fails for want
    /// of memory, and the object still lives.
    pub fn dispose(&mut self, weak: &WeakSlots, id: ObjectId)
        requires live { IsSome (living self.old.objects id.0) }
        ensures disposes { (d : machine.Definition) → Knows d weak.now → Disposes d id.0 self.old self.new }
        ensures made { length self.new.objects ≡ length self.old.objects }
    {
        self.forget(weak, id);
        self.release_values(weak, id);
        let children = self.empty(weak, id);
        self.orphan_all(&children);
    }

    // Releases the objects that the object's strong values name.
    fn release_values(&mut self, weak: &WeakSlots, id: ObjectId)
        ensures counts { let o = living self.old.objects id.0 in (i : ℕ) → count_of self.new.counts i
            ≡ count_of self.old.counts i - in_strong i (marks_in weak.now o) (values_in o) }
        ensures beside { self.new ≡ record self.old { counts = self.new.counts } }
    {
        let Some(instance) = self.instances.get(id) else {
            return;
        };
        let slots = weak.of(instance.object.class());
        for (slot, is_weak) in slots.iter().enumerate() {
            self.release_slot(id, slot, *is_weak);
        }
    }

    // Releases the object that the value in a slot names, unless the slot is weak.
    fn release_slot(&mut self, id: ObjectId, slot: usize, is_weak: bool)
        ensures counts { (i : ℕ) → count_of self.new.counts i
            ≡ count_of self.old.counts i - cond is_weak 0 (in_option i (name_at slot (living self.old.objects id.0))) }
        ensures beside { self.new ≡ record self.old { counts = self.new.counts } }
    {
        if is_weak {
            return;
        }
        let named = self.named_at(id, slot);
        self.release_any(named);
    }

    // Returns the object that the value in a slot names.
    fn named_at(&self, id: ObjectId, slot: usize) -> Option<ObjectId>
        ensures { id_of result ≡ name_at slot (living self.now.objects id.0) }
    {
        let Some(instance) = self.instances.get(id) else {
            return None;
        };
        instance.object.named_at(slot)
    }

    // Sets the object's strong values of an object kind to null, removes its children and marks it as disposed. Returns its former
    // children.
    fn empty(&mut self, weak: &WeakSlots, id: ObjectId) -> Vec<ObjectId>
        requires live { IsSome (living self.old.objects id.0) }
        ensures objects { self.new.objects ≡ updated (emptied weak.now) id.0 self.old.objects }
        ensures beside { self.new ≡ with_objects self.old self.new.objects }
        ensures children { ids_of result.items ≡ children_of (living self.old.objects id.0) }
        ensures given { (child : ℕ) → 0 < total (same child) (ids_of result.items) → child ≤ length self.new.objects }
        ensures made { length self.new.objects ≡ length self.old.objects }
    {
        let alloc = self.alloc;
        let Some(instance) = self.instances.get_mut(id) else {
            return Vec::new(alloc);
        };
        self.namers.dispose(&mut instance.object, alloc, weak, id)
    }

    // Clears the parents of these objects, and lowers the hold count of each by one.
    fn orphan_all(&mut self, children: &[ObjectId])
        requires given { (child : ℕ) → 0 < total (same child) (ids_of children.now) → child ≤ length self.old.objects }
        ensures objects { self.new.objects ≡ orphans (ids_of children.now) self.old.objects }
        ensures counts { (i : ℕ) → count_of self.new.counts i ≡ count_of self.old.counts i - total (same i) (ids_of children.now) }
        ensures beside { self.new ≡ record self.old { objects = self.new.objects; counts = self.new.counts } }
        ensures made { length self.new.objects ≡ length self.old.objects }
    {
        for child in children {
            self.give_parent(*child, None);
            self.release(*child, 1);
        }
    }

    /// Finalises an object that nothing holds: disposes it, whether it was disposed before or not, and removes it. Its identity is not used
    /// again. Never fails for want of memory.
    pub fn finalise(&mut self, weak: &WeakSlots, id: ObjectId)
        requires live { IsSome (living self.old.objects id.0) }
        requires unheld { count_of self.old.counts id.0 ≡ 0 }
        ensures finalises { (d : machine.Definition) → Knows d weak.now → Finalises d id.0 self.old self.new }
        ensures made { length self.new.objects ≡ length self.old.objects }
    {
        self.dispose(weak, id);
        self.take_out(id);
    }

    // Removes an object that nothing holds.
    fn take_out(&mut self, id: ObjectId)
        requires live { IsSome (living self.old.objects id.0) }
        requires unheld { count_of self.old.counts id.0 ≡ 0 }
        ensures { self.new ≡ with_objects self.old (put self.old.objects id.0 None) }
    {
        let gone = self.instances.remove(id);
        self.unheld.remove(&self.instances, id);
        self.namers.remove_gone(gone, id);
    }
}
