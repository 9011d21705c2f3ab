//! The methods of shapes by their names.

ghost use Rattle.std.specs.Prelude.{◌≡◌, ℕ, [], IfOk, OnOk, Some, nat_eq};
ghost use Rattle.ui_machine.specs.Definition.Names.{place_named};
ghost use Rattle.name_tables.specs.Names.{number_in, place_of, with_number};
ghost use Rattle.engine_links.specs.Linked.{method_by};
ghost use Rattle.engine_links.specs.Rows.{method_of};
ghost use Rattle.name_tables.specs.Steps.{AddsAll};
ghost use Rattle.engine_links.specs.Steps.{AddsMethod, AreMethods};

use crate::named_rows::intern_row;
use definitions::Definition;
use name_tables::{NameId, NameTable};
use peer_shapes::Shape;
use std::alloc::{AllocError, Global};
use std::collections::BTreeMap;
use std::marker::Model;

/// The names of methods, with the number of the method that has each name, for each shape with such a method.
#[derive(Drop)]
pub(crate) struct MethodRows {
    names: NameTable,
    /// For each name, the number of the method by the number of the shape.
    rows: Vec<BTreeMap<usize, usize>>,
}

impl Model for MethodRows {
    ghost use Rattle.std.specs.Prelude.{ℕ, List, map};
    ghost use Rattle.engine_links.specs.Rows.{AreLevel, NamedRows};

    ghost Value = { NamedRows (List (ℕ × ℕ)) };

    ghost view = { λ m. record { names = m.names; rows = map (λ row. row.entries) m.rows.items } };

    ghost invariant = { λ m. AreLevel m.names m.rows.items };
}

impl MethodRows {
    // Creates a table without methods. Takes no memory.
    fn empty(alloc: Global) -> MethodRows
        ensures names { result.names ≡ [] }
        ensures rows { result.rows ≡ [] }
    {
        MethodRows {
            names: NameTable::new(alloc),
            rows: Vec::new(alloc),
        }
    }

    /// Collects the methods of a definition's shapes.
    ///
    /// # Errors
    ///
    /// `AllocError` if memory is refused.
    pub(crate) fn new(alloc: Global, definition: &Definition) -> Result<MethodRows, AllocError>
        ensures { IfOk result (AreMethods definition.now) }
    {
        let mut methods = MethodRows::empty(alloc);
        'shapes: for number in 0..definition.shape_count() {
            let Some(shape) = definition.shape(number) else {
                return Ok(methods);
            };
            methods.add_shape(number, shape)?;
        }
        Ok(methods)
    }

    // Adds the methods of a shape.
    fn add_shape(&mut self, number: usize, shape: &Shape) -> Result<(), AllocError>
        ensures { OnOk result (AddsAll (method_of self.old) (method_of self.new) number (place_named (λ m. m.name) shape.now)) }
    {
        // For the proof: the number of methods of a shape is limited.
        let _count = shape.len();
        let mut at = 0;
        loop {
            let Some(method) = shape.method(at) else {
                return Ok(());
            };
            self.add(number, method.name, at)?;
            at += 1;
        }
    }

    // Adds the number of a shape's method under its name, unless the shape has a method of that name already.
    fn add(&mut self, shape: usize, name: &str, number: usize) -> Result<(), AllocError>
        ensures { OnOk result (AddsMethod self.old self.new shape name.now number) }
    {
        let empty = BTreeMap::new(*self.rows.allocator());
        let at = intern_row(&mut self.names, &mut self.rows, name, empty)?;
        give_number(&mut self.rows[at], shape, number)
    }

    /// Returns the index of a name, or `None` if no method has it.
    pub(crate) fn find(&self, name: &str) -> Option<NameId>
        ensures { result ≡ place_of self.now.names name.now }
    {
        self.names.find(name)
    }

    /// Returns the number of a shape's method with this name.
    pub(crate) fn number(&self, shape: usize, name: NameId) -> Option<usize>
        ensures { result ≡ method_by self.now.rows shape (Some name) }
    {
        let row = self.rows.get(name)?;
        row.get(&shape).copied()
    }
}

// Sets the number of a shape, unless it has one.
fn give_number(
    row: &mut BTreeMap<usize, usize>,
    shape: usize,
    number: usize,
) -> Result<(), AllocError>
    ensures { OnOk result ((s : ℕ) → number_in row.new.entries s ≡ with_number (nat_eq s shape) number (number_in row.old.entries s)) }
{
    if !row.contains_key(&shape) {
        row.insert(shape, number)?;
    }
    Ok(())
}
