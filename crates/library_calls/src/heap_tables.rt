//! The classes of the objects with which heaps are tested.

use crate::call_faults::CallFault;
use g_values::{Kind, Value};
use instances::{Classes, WeakSlots};
use param_specs::{PropertyFlags, Spec, SpecError, SpecTable};
use std::alloc::Global;
use std::rc::RcStr;
use type_tree::{TypeError, TypeFlags, TypeId, TypeTree};

// The flags of a property that is readable and writable.
const PLAIN: PropertyFlags = PropertyFlags(3);

/// The tables of two classes. `Box` has a number, which is 7 at first. `Widget` begins floating and has no property.
#[derive(Drop)]
pub struct HeapTables {
    types: TypeTree,
    specs: SpecTable,
    weak: WeakSlots,
    pub box_class: TypeId,
    pub widget_class: TypeId,
}

// Adds a class under another one.
fn add_class(types: &mut TypeTree, name: &str, parent: &str) -> Result<TypeId, CallFault> {
    match types.add_class(name, parent, TypeFlags::NONE, &[]) {
        Ok(class) => Ok(class),
        Err(TypeError::Refused(_)) => Err(CallFault::Line),
        Err(TypeError::OutOfMemory) => Err(CallFault::OutOfMemory),
    }
}

// Adds a number to the properties of a class.
fn add_number(
    alloc: Global,
    types: &TypeTree,
    specs: &mut SpecTable,
    class: TypeId,
) -> Result<(), CallFault> {
    let spec = Spec {
        name: RcStr::from_str(alloc, "size")?,
        kind: Kind::Int,
        flags: PLAIN,
        default: Value::Int(7),
        min: 0,
        max: 9,
        weak: false,
    };
    match specs.install(types, class, spec) {
        Ok(_slot) => Ok(()),
        Err(SpecError::Refused(_)) => Err(CallFault::Line),
        Err(SpecError::OutOfMemory) => Err(CallFault::OutOfMemory),
    }
}

impl HeapTables {
    /// Creates the tables with the two classes.
    ///
    /// # Errors
    ///
    /// Returns `OutOfMemory` if memory is refused, and `Line` if a class or the property is refused.
    pub fn new(alloc: Global) -> Result<Self, CallFault> {
        let mut types = TypeTree::new(alloc)?;
        let box_class = add_class(&mut types, "Box", "GObject")?;
        let widget_class = add_class(&mut types, "Widget", "GInitiallyUnowned")?;
        let mut specs = SpecTable::new(alloc);
        add_number(alloc, &types, &mut specs, box_class)?;
        let mut weak = WeakSlots::new(alloc);
        weak.add(Vec::new(alloc))?;
        weak.add(Vec::new(alloc))?;
        weak.add(vec![in alloc; false]?)?;
        weak.add(Vec::new(alloc))?;
        Ok(HeapTables {
            types,
            specs,
            weak,
            box_class,
            widget_class,
        })
    }

    /// Returns what a heap reads of these tables.
    pub fn classes(&self) -> Classes<'_> {
        Classes {
            types: &self.types,
            specs: &self.specs,
            weak: &self.weak,
        }
    }
}
