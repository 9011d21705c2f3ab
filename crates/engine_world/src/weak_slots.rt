//! The weak properties of a definition.

ghost use Rattle.std.specs.Prelude.{◌≡◌, ◌<◌, length, map, IfOk};
ghost use Rattle.ui_machine.specs.Seq.{read};
ghost use Rattle.ui_machine.specs.Definition.Lookups.{specs_of};
ghost use Rattle.engine_world.specs.WeakView.{weak_of};
ghost use Rattle.instance_tables.specs.Weak.{Knows};

use definitions::Definition;
use instance_tables::WeakSlots;
use std::alloc::{AllocError, Global};
use type_tree::TypeId;
use ui_machine::Slot;

// Returns for each slot of a class whether its property is weak.
fn weak_of(alloc: Global, definition: &Definition, class: TypeId) -> Result<Vec<bool>, AllocError>
    ensures { IfOk result (λ marks. marks.items ≡ weak_of (specs_of definition.now class)) }
{
    let mut marks = Vec::new(alloc);
    // For the proof: how many properties a class has at most.
    let _slots = definition.slots(class);
    let mut slot: Slot = 0;
    loop {
        let Some(spec) = definition.spec(class, slot) else {
            return Ok(marks);
        };
        marks.push(spec.weak)?;
        slot += 1;
    }
}

/// Returns the weak properties of each type.
///
/// # Errors
///
/// `AllocError` if memory is refused.
pub fn weak_slots(alloc: Global, definition: &Definition) -> Result<WeakSlots, AllocError>
    ensures { IfOk result (λ weak. Knows definition.now weak) }
{
    let types = definition.types();
    // For the proof: this call says how many types there are at most.
    let _root = types.parent(TypeId::new(0));
    let mut weak = WeakSlots::new(alloc);
    let count = types.len();
    'types: for class in 0..count {
        weak.add(weak_of(alloc, definition, TypeId::new(class as u16))?)?;
    }
    Ok(weak)
}
