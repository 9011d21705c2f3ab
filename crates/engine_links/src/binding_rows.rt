//! The bindings of a definition by their names.

ghost use Rattle.std.specs.Prelude.{◌≡◌, [], IfOk, OnOk, Some};
ghost use Rattle.name_tables.specs.Names.{place_of};
ghost use Rattle.engine_links.specs.Linked.{numbers_by};
ghost use Rattle.engine_links.specs.Steps.{AddsBinding, AreBindings};

use crate::named_rows::intern_row;
use definitions::Definition;
use name_tables::{NameId, NameTable};
use std::alloc::{AllocError, Global};
use std::marker::Model;

/// The names of bindings, with the numbers of the bindings that have each name.
#[derive(Drop)]
pub(crate) struct BindingRows {
    names: NameTable,
    /// For each name, the numbers of its bindings in document order.
    rows: Vec<Vec<u64>>,
}

impl Model for BindingRows {
    ghost use Rattle.std.specs.Prelude.{ℕ, List, map};
    ghost use Rattle.engine_links.specs.Rows.{AreLevel, NamedRows};

    ghost Value = { NamedRows (List ℕ) };

    ghost view = { λ b. record { names = b.names; rows = map (λ row. row.items) b.rows.items } };

    ghost invariant = { λ b. AreLevel b.names b.rows.items };
}

impl BindingRows {
    // Creates a table without bindings. Takes no memory.
    fn empty(alloc: Global) -> BindingRows
        ensures names { result.names ≡ [] }
        ensures rows { result.rows ≡ [] }
    {
        BindingRows {
            names: NameTable::new(alloc),
            rows: Vec::new(alloc),
        }
    }

    /// Collects the bindings of a definition.
    ///
    /// # Errors
    ///
    /// `AllocError` if memory is refused.
    pub(crate) fn new(alloc: Global, definition: &Definition) -> Result<BindingRows, AllocError>
        ensures { IfOk result (AreBindings definition.now) }
    {
        let mut bindings = BindingRows::empty(alloc);
        // For the proof: the number of bindings is limited.
        let _count = definition.binding_count();
        let mut number = 0;
        loop {
            let Some(binding) = definition.binding(number) else {
                return Ok(bindings);
            };
            if let Some(name) = &binding.name {
                bindings.add(name.as_str(), number as u64)?;
            }
            number += 1;
        }
    }

    // Adds the number of a binding under its name.
    fn add(&mut self, name: &str, number: u64) -> Result<(), AllocError>
        ensures { OnOk result (AddsBinding self.old self.new name.now number) }
    {
        let empty = Vec::new(*self.rows.allocator());
        let at = intern_row(&mut self.names, &mut self.rows, name, empty)?;
        self.rows[at].push(number)?;
        Ok(())
    }

    /// Returns the index of a name, or `None` if no binding has it.
    pub(crate) fn find(&self, name: &str) -> Option<NameId>
        ensures { result ≡ place_of self.now.names name.now }
    {
        self.names.find(name)
    }

    /// Returns the numbers of the bindings with a name.
    pub(crate) fn numbers(&self, name: NameId) -> &[u64]
        ensures { result.now ≡ numbers_by self.now.rows (Some name) }
    {
        match self.rows.get(name) {
            Some(numbers) => numbers.as_slice(),
            None => &[],
        }
    }
}
