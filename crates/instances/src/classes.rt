//! The information on classes that a heap reads.

ghost use Rattle.std.specs.Prelude.{◌≡◌, IfOk, map};
ghost use Rattle.g_values.specs.View.{value_view};
ghost use Rattle.instances.specs.Making.{defaults_of, floats_at_first};

use g_values::Value;
use instance_tables::WeakSlots;
use param_specs::SpecTable;
use std::alloc::{AllocError, Global};
use type_tree::{TypeId, TypeTree};
use ui_machine::Slot;

// The number of `GInitiallyUnowned`, below which objects float from the beginning.
const INITIALLY_UNOWNED: u16 = 1;

/// The type tree, the properties of each class, and the marks of weak properties.
#[derive(Clone, Copy)]
pub struct Classes<'a> {
    pub types: &'a TypeTree,
    pub specs: &'a SpecTable,
    pub weak: &'a WeakSlots,
}

impl Classes<'_> {
    // Collects the defaults of a class's properties, by slot.
    pub(crate) fn defaults(&self, alloc: Global, class: TypeId) -> Result<Vec<Value>, AllocError>
        ensures { IfOk result (λ values. map value_view values.items ≡ defaults_of self.now.types.now self.now.specs.now class) }
    {
        let mut values = Vec::new(alloc);
        for slot in 0..self.specs.slots_of(self.types, class) {
            let spec = self.specs.spec(self.types, class, slot as Slot);
            values.push(spec.default.copied()?)?;
        }
        Ok(values)
    }

    // Returns whether an object of a class floats from the beginning.
    pub(crate) fn floats_at_first(&self, class: TypeId) -> bool
        ensures { result ≡ floats_at_first self.now.types.now class }
    {
        self.types.is_a(class, TypeId::new(INITIALLY_UNOWNED))
    }
}
