//! A table of the properties behind the slots of all types.

ghost use Rattle.std.specs.Prelude.{◌≡◌, ◌<◌, ◌++◌, ◌≤◌, ◌+◌, ◌*◌, [], Some, IfOk, OnOk, length, map, slice_get};
ghost use Rattle.ui_machine.specs.Seq.{listed, read};
ghost use Rattle.type_tree.specs.Tree.{IsTree};
ghost use Rattle.param_specs.specs.SlotRows.{AreFew, HasRow, HasRows, HasSlots, inherited, own_place};
ghost use Rattle.param_specs.specs.Table.{own_of};

use crate::table::SpecTable;
use std::alloc::{AllocError, Global};
use std::marker::Model;
use type_tree::{TypeId, TypeTree};

/// The property behind a slot: the type that it was installed for, and its index among that type's own properties.
#[derive(Clone, Copy, Debug, PartialEq, Eq)]
pub struct SlotPlace {
    pub owner: TypeId,
    pub at: u16,
}

/// For each slot of each type, inherited ones included, the property behind it. A contract sees the lists of the types' slots.
///
/// The table is built once, when all properties are installed, so that a look-up costs the same however many ancestors a type has.
#[derive(Drop)]
pub struct SlotTable {
    rows: Vec<Vec<SlotPlace>>,
}

impl Model for SlotTable {
    ghost use Rattle.std.specs.Prelude.{List, map};
    ghost use Rattle.param_specs.specs.declared.slots.SlotPlace.{SlotPlace};

    ghost Value = { List (List SlotPlace) };

    ghost use Rattle.param_specs.specs.SlotRows.{AreFew};

    ghost view = { λ t. map (λ row. row.items) t.rows.items };

    ghost invariant = { λ t. AreFew (map (λ row. row.items) t.rows.items) };
}

impl SlotTable {
    /// Builds the table for all types of a tree.
    ///
    /// # Errors
    ///
    /// `AllocError` if memory is refused.
    pub fn new(alloc: Global, tree: &TypeTree, specs: &SpecTable) -> Result<SlotTable, AllocError>
        ensures { IfOk result (HasSlots tree.now specs.now) }
    {
        // For the proof: a tree has few types.
        let _root = tree.parent(TypeId::new(0));
        let mut rows = Vec::with_capacity(alloc, tree.len())?;
        'types: for t in 0..tree.len() {
            let row = row_of(alloc, tree, specs, &rows, TypeId::new(t as u16))?;
            rows.push(row)?;
        }
        Ok(SlotTable { rows })
    }

    // Returns the slots of a type.
    fn row(&self, t: TypeId) -> &[SlotPlace]
        ensures row { result.now ≡ read [] self.now t }
        ensures few { length result.now ≤ 16448 }
    {
        let at = t.index();
        if at < self.rows.len() {
            self.rows[at].as_slice()
        } else {
            &[]
        }
    }

    /// Returns the number of slots of a type.
    pub fn count(&self, t: TypeId) -> usize
        ensures count { result ≡ length (read [] self.now t) }
        ensures few { result ≤ 16448 }
    {
        self.row(t).len()
    }

    /// Returns the property behind a slot of a type, or `None` if the type has no such slot.
    pub fn place(&self, t: TypeId, slot: usize) -> Option<SlotPlace>
        ensures { result ≡ slice_get (read [] self.now t) slot }
    {
        self.row(t).get(slot).copied()
    }
}

// Copies the slots that a type inherits from its parent. Empty for a type without a parent.
fn inherited(
    alloc: Global,
    tree: &TypeTree,
    rows: &[Vec<SlotPlace>],
    t: TypeId,
) -> Result<Vec<SlotPlace>, AllocError>
    requires { t ≤ length rows.now }
    ensures { IfOk result (λ row. row.items ≡ inherited tree.now (map (λ r. r.items) rows.now) t) }
{
    let mut row = Vec::new(alloc);
    let Some(parent) = tree.parent(t) else {
        return Ok(row);
    };
    row.extend_from_slice(&rows[parent.index()])?;
    Ok(row)
}

// Builds the slots of a type: first the inherited ones, then one for each property of its own.
fn row_of(
    alloc: Global,
    tree: &TypeTree,
    specs: &SpecTable,
    rows: &[Vec<SlotPlace>],
    t: TypeId,
) -> Result<Vec<SlotPlace>, AllocError>
    requires before { t ≤ length rows.now }
    requires rows { HasRows tree.now specs.now (map (λ r. r.items) rows.now) }
    requires few { AreFew (map (λ r. r.items) rows.now) }
    ensures row { IfOk result (λ row. HasRow tree.now specs.now t row.items) }
    ensures few { IfOk result (λ row. length row.items ≤ 64 * (t + 1)) }
{
    // For the proof: parents come before their children.
    let _parent = tree.parent(t);
    let mut row = inherited(alloc, tree, rows, t)?;
    add_own(&mut row, t, specs.own_count(t))?;
    Ok(row)
}

// Appends the slots of a type's own properties.
fn add_own(row: &mut Vec<SlotPlace>, t: TypeId, count: usize) -> Result<(), AllocError>
    requires few { count ≤ 64 }
    ensures { OnOk result (row.new.items ≡ row.old.items ++ listed (own_place t) count) }
{
    for at in 0..count {
        row.push(SlotPlace {
            owner: t,
            at: at as u16,
        })?;
    }
    Ok(())
}
