//! The names of the properties of classes, with the slots that each has in them.

ghost use Rattle.std.specs.Prelude.{◌≡◌, IfOk, OnOk};
ghost use Rattle.name_tables.specs.Names.{number_of};
ghost use Rattle.engine_links.specs.Linked.{AreSlots};
ghost use Rattle.name_tables.specs.Steps.{AddsAll};
ghost use Rattle.engine_links.specs.Steps.{slot_called};

use definitions::Definition;
use name_tables::NameTable;
use std::alloc::{AllocError, Global};
use type_tree::TypeId;
use ui_machine::Slot;

// Adds the names of a class's properties.
fn add_slots(
    names: &mut NameTable,
    definition: &Definition,
    class: TypeId,
) -> Result<(), AllocError>
    ensures { OnOk result (AddsAll (number_of names.old) (number_of names.new) class (slot_called definition.now class)) }
{
    // For the proof: the number of properties of a class is limited.
    let _slots = definition.slots(class);
    let mut slot: Slot = 0;
    loop {
        let Some(spec) = definition.spec(class, slot) else {
            return Ok(());
        };
        names.add(class, spec.name.as_str(), slot)?;
        slot += 1;
    }
}

/// Collects the names of a definition's properties, with their slots.
///
/// # Errors
///
/// `AllocError` if memory is refused.
pub(crate) fn slot_names(alloc: Global, definition: &Definition) -> Result<NameTable, AllocError>
    ensures { IfOk result (AreSlots definition.now) }
{
    let mut names = NameTable::new(alloc);
    let count = definition.class_count();
    'classes: for class in 0..count {
        add_slots(&mut names, definition, TypeId::new(class as u16))?;
    }
    Ok(names)
}
