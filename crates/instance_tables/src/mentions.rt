//! Writing of properties, with the hold counts that change with it.

ghost use Rattle.std.specs.Prelude.{◌≡◌, ℕ, ◌+◌, ◌-◌, cond, true, false, IsOk, Ok};
ghost use Rattle.ui_machine.specs.State.Objects.{asked, changed, living, value_at, with_value};
ghost use Rattle.ui_machine.specs.State.References.{in_option, in_value};
ghost use Rattle.g_values.specs.View.{value_view};
ghost use Rattle.instance_tables.specs.Store.{id_of, count_of, may_hold_any, named_by};
ghost use Rattle.instance_tables.specs.Weak.{strong_in};

use crate::object_values::named;
use crate::table::Table;
use crate::weak::WeakSlots;
use g_values::Value;
use ui_machine::{ObjectId, Slot};

impl Table {
    /// Writes a property of an object that lives, in a slot that it has, and returns the old value. If the property is strong, the old
    /// value's object is let go, and the new value's object is held, if it lives and may be held once more.
    pub fn write(&mut self, weak: &WeakSlots, id: ObjectId, slot: Slot, value: Value) -> Value
        requires slot { IsOk (asked self.old.objects id.0 (value_at slot)) }
        ensures changes { changed self.old.objects id.0 (with_value slot (value_view value)) ≡ Ok (record { state = self.new.objects; answer = value_view result }) }
        ensures beside { self.new ≡ record self.old { objects = self.new.objects; counts = self.new.counts } }
        ensures moves { may_hold_any self.old (named_by (value_view value)) ≡ true
            → let strong = strong_in weak.now slot (living self.old.objects id.0) in
            (o : ℕ) → count_of self.new.counts o
            ≡ count_of self.old.counts o + cond strong (in_value o (value_view value)) 0 - cond strong (in_value o (value_view result)) 0 }
        ensures lets_go { may_hold_any self.old (named_by (value_view value)) ≡ false
            → let strong = strong_in weak.now slot (living self.old.objects id.0) in
            (o : ℕ) → count_of self.new.counts o ≡ count_of self.old.counts o - cond strong (in_value o (value_view result)) 0 }
    {
        let was = named(self.read(id, slot));
        let is_strong = self.is_strong(weak, id, slot);
        let to = named(&value);
        self.limit_namers(weak, to);
        self.move_mention(is_strong, was, to);
        let old = self.replace(id, slot, value);
        self.remove_namer(id, was);
        old
    }

    // Gives up the index of namers if no property is weak and a value is to name an object: nothing is ever forgotten then, so the index is
    // not needed.
    fn limit_namers(&mut self, weak: &WeakSlots, to: Option<ObjectId>)
        ensures { self.new ≡ self.old }
    {
        if weak.has_weak() || to.is_none() {
            return;
        }
        self.namers.give_up();
    }

    // Removes an object from those that name `was`, if none of its values names it any more.
    fn remove_namer(&mut self, id: ObjectId, was: Option<ObjectId>)
        ensures { self.new ≡ self.old }
    {
        let Some(was) = was else {
            return;
        };
        let Some(instance) = self.instances.get(id) else {
            return;
        };
        self.namers.remove_unnamed(&instance.object, was, id);
    }

    // Returns whether a slot of an object is strong.
    fn is_strong(&self, weak: &WeakSlots, id: ObjectId, slot: Slot) -> bool
        ensures { result ≡ strong_in weak.now slot (living self.now.objects id.0) }
    {
        let Some(instance) = self.instances.get(id) else {
            return false;
        };
        weak.is_strong(instance.object.class(), slot)
    }

    // Moves one mention from one object to another, if `counts` is true.
    fn move_mention(&mut self, counts: bool, from: Option<ObjectId>, to: Option<ObjectId>)
        ensures moves { may_hold_any self.old (id_of to) ≡ true → (o : ℕ) → count_of self.new.counts o
            ≡ count_of self.old.counts o + cond counts (in_option o (id_of to)) 0 - cond counts (in_option o (id_of from)) 0 }
        ensures lets_go { may_hold_any self.old (id_of to) ≡ false → (o : ℕ) → count_of self.new.counts o
            ≡ count_of self.old.counts o - cond counts (in_option o (id_of from)) 0 }
        ensures beside { self.new ≡ record self.old { counts = self.new.counts } }
    {
        if !counts {
            return;
        }
        self.hold_any(to);
        self.release_any(from);
    }

    // Holds an object, if one is given, once more, unless its hold count is at its maximum.
    fn hold_any(&mut self, id: Option<ObjectId>)
        ensures counts { may_hold_any self.old (id_of id) ≡ true
            → (o : ℕ) → count_of self.new.counts o ≡ count_of self.old.counts o + in_option o (id_of id) }
        ensures unheld { may_hold_any self.old (id_of id) ≡ false → self.new ≡ self.old }
        ensures beside { self.new ≡ record self.old { counts = self.new.counts } }
    {
        let Some(id) = id else {
            return;
        };
        if !self.can_hold(id) {
            return;
        }
        self.hold(id);
    }

    // Lowers the hold count of an object, if one is given, by one.
    pub(crate) fn release_any(&mut self, id: Option<ObjectId>)
        ensures counts { (o : ℕ) → count_of self.new.counts o ≡ count_of self.old.counts o - in_option o (id_of id) }
        ensures beside { self.new ≡ record self.old { counts = self.new.counts } }
    {
        let Some(id) = id else {
            return;
        };
        self.release(id, 1);
    }
}
