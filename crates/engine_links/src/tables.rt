//! The tables of the names that programs may use.

ghost use Rattle.std.specs.Prelude.{IfOk};
ghost use Rattle.engine_links.specs.Steps.{AreTables};

use crate::binding_rows::BindingRows;
use crate::class_names::slot_names;
use crate::method_rows::MethodRows;
use definitions::Definition;
use name_tables::NameTable;
use std::alloc::{AllocError, Global};

/// The names of a definition's properties, signals, methods and bindings, with their meanings.
#[derive(Drop)]
pub(crate) struct Tables {
    pub(crate) slots: NameTable,
    pub(crate) signals: NameTable,
    pub(crate) methods: MethodRows,
    pub(crate) bindings: BindingRows,
}

impl Tables {
    /// Builds the tables of a definition.
    ///
    /// # Errors
    ///
    /// `AllocError` if memory is refused.
    pub(crate) fn new(alloc: Global, definition: &Definition) -> Result<Tables, AllocError>
        ensures { IfOk result (AreTables definition.now) }
    {
        Ok(Tables {
            slots: slot_names(alloc, definition)?,
            signals: definition.signal_names(alloc)?,
            methods: MethodRows::new(alloc, definition)?,
            bindings: BindingRows::new(alloc, definition)?,
        })
    }
}
