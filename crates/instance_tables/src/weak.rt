//! The marks of weak properties.

ghost use Rattle.std.specs.Prelude.{◌≡◌, ◌++◌, ◌∷◌, [], OnOk, OnErr};
ghost use Rattle.std.specs.List.{list_any};
ghost use Rattle.ui_machine.specs.Seq.{read};
ghost use Rattle.instance_tables.specs.Weak.{has_weak, is_strong};

use std::alloc::{AllocError, Global};
use std::marker::Model;
use type_tree::TypeId;
use ui_machine::Slot;

/// For each class, the slots whose properties are weak. A weak property does not hold its object.
#[derive(Drop)]
pub struct WeakSlots {
    classes: Vec<Vec<bool>>,
    has_weak: bool,
}

impl Model for WeakSlots {
    ghost use Rattle.std.specs.Prelude.{map};
    ghost use Rattle.instance_tables.specs.Weak.{Marks, SaysWeak};

    ghost Value = { Marks };

    ghost view = { λ w. map (λ v. v.items) w.classes.items };

    ghost invariant = { λ w. SaysWeak w.has_weak (map (λ v. v.items) w.classes.items) };
}

impl WeakSlots {
    /// Creates marks without classes.
    pub fn new(alloc: Global) -> Self
        ensures { result ≡ [] }
    {
        WeakSlots {
            classes: Vec::new(alloc),
            has_weak: false,
        }
    }

    /// Adds the slots of the next class.
    ///
    /// # Errors
    ///
    /// `AllocError` if memory is refused. Nothing has changed then.
    pub fn add(&mut self, slots: Vec<bool>) -> Result<(), AllocError>
        ensures ok { OnOk result (self.new ≡ self.old ++ slots.items ∷ []) }
        ensures err { OnErr result (self.new ≡ self.old) }
    {
        let is_weak = is_any_weak(&slots);
        self.classes.push(slots)?;
        self.has_weak = self.has_weak | is_weak;
        Ok(())
    }

    /// Returns whether any slot of any class is weak.
    pub fn has_weak(&self) -> bool
        ensures { result ≡ has_weak self.now }
    {
        self.has_weak
    }

    /// Returns whether a class has the slot and it is not weak.
    pub fn is_strong(&self, class: TypeId, slot: Slot) -> bool
        ensures { result ≡ is_strong self.now class slot }
    {
        let slots = self.of(class);
        let slot = usize::from(slot);
        if slot >= slots.len() {
            return false;
        }
        !slots[slot]
    }

    /// Returns the slots of a class. Empty if the class was not added.
    pub fn of(&self, class: TypeId) -> &[bool]
        ensures { result.now ≡ read [] self.now class }
    {
        let class = class.index();
        if class < self.classes.len() {
            self.classes[class].as_slice()
        } else {
            &[]
        }
    }
}

// Returns whether one of these slots is weak.
fn is_any_weak(slots: &[bool]) -> bool
    ensures { result ≡ list_any (λ is_weak. is_weak) slots.now }
{
    slots.iter().any(|is_weak| *is_weak)
}
