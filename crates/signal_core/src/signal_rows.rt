//! A table of the declarations behind the signals of all types.

ghost use Rattle.std.specs.Prelude.{◌≡◌, ◌<◌, ◌≤◌, ◌++◌, [], IfOk, OnOk, length, map, slice_get};
ghost use Rattle.ui_machine.specs.Seq.{listed, read};
ghost use Rattle.signal_core.specs.SignalRows.{HasSignals, own_place};

use crate::table::SignalTable;
use std::alloc::{AllocError, Global};
use std::marker::Model;
use type_tree::{TypeId, TypeTree};

/// The declaration of a signal: the type for which it was declared, and its index among that type's own signals.
#[derive(Clone, Copy, Debug, PartialEq, Eq)]
pub struct SignalPlace {
    pub owner: TypeId,
    pub at: u16,
}

/// For each type, the declarations of its signals, by number. `notify` is not among them. A contract sees the lists of the types' signals.
///
/// The table is built once, when all signals are declared, so that a look-up costs the same however many types contribute signals.
#[derive(Drop)]
pub struct SignalRows {
    rows: Vec<Vec<SignalPlace>>,
}

impl Model for SignalRows {
    ghost use Rattle.std.specs.Prelude.{List, map};
    ghost use Rattle.signal_core.specs.declared.signal_rows.SignalPlace.{SignalPlace};
    ghost use Rattle.signal_core.specs.SignalRows.{AreFew};

    ghost Value = { List (List SignalPlace) };

    ghost view = { λ s. map (λ row. row.items) s.rows.items };

    ghost invariant = { λ s. AreFew (map (λ row. row.items) s.rows.items) };
}

impl SignalRows {
    /// Builds the table for all types of a tree.
    ///
    /// # Errors
    ///
    /// `AllocError` if memory is refused.
    pub fn new(
        alloc: Global,
        tree: &TypeTree,
        signals: &SignalTable,
    ) -> Result<SignalRows, AllocError>
        ensures { IfOk result (HasSignals tree.now signals.now.signals) }
    {
        // For the proof: a tree has few types.
        let _root = tree.parent(TypeId::new(0));
        let mut rows = Vec::with_capacity(alloc, tree.len())?;
        'types: for t in 0..tree.len() {
            let row = signals.places(alloc, tree, TypeId::new(t as u16))?;
            rows.push(row)?;
        }
        Ok(SignalRows { rows })
    }

    // Returns the declarations of a type's signals.
    fn row(&self, t: TypeId) -> &[SignalPlace]
        ensures row { result.now ≡ read [] self.now t }
        ensures few { length result.now ≤ 16384 }
    {
        let at = t.index();
        if at < self.rows.len() {
            self.rows[at].as_slice()
        } else {
            &[]
        }
    }

    /// Returns the number of declared signals of a type, without `notify`.
    pub fn count(&self, t: TypeId) -> usize
        ensures count { result ≡ length (read [] self.now t) }
        ensures few { result ≤ 16384 }
    {
        self.row(t).len()
    }

    /// Returns the declaration of a type's signal by its index among the declared ones, or `None` if there are not so many.
    pub fn place(&self, t: TypeId, at: usize) -> Option<SignalPlace>
        ensures { result ≡ slice_get (read [] self.now t) at }
    {
        self.row(t).get(at).copied()
    }
}

/// Appends the declarations of a type's own signals.
pub(crate) fn add_places(
    places: &mut Vec<SignalPlace>,
    t: TypeId,
    count: usize,
) -> Result<(), AllocError>
    requires few { count ≤ 64 }
    ensures { OnOk result (places.new.items ≡ places.old.items ++ listed (own_place t) count) }
{
    for at in 0..count {
        places.push(SignalPlace {
            owner: t,
            at: at as u16,
        })?;
    }
    Ok(())
}
