//! The programs that classes run for signals, by the names of the signals.

ghost use Rattle.std.specs.Prelude.{◌≡◌, ◌≤◌, [], ℕ, IfOk, OnOk, length};
ghost use Rattle.ui_machine.specs.Rules.EmissionPlan.{handler_in};
ghost use Rattle.signal_core.specs.Table.{named_of};
ghost use Rattle.name_tables.specs.Names.{number_of};
ghost use Rattle.name_tables.specs.Steps.{AddsAll};
ghost use Rattle.definitions.specs.ClassNames.{AreHandlerNames};

use name_tables::NameTable;
use signal_core::SignalTable;
use std::alloc::{AllocError, Global};
use type_tree::{TypeId, TypeTree};

// Adds the programs that a class itself names for signals, under the names of the signals.
fn add_handlers(
    names: &mut NameTable,
    signals: &SignalTable,
    class: TypeId,
) -> Result<(), AllocError>
    ensures { OnOk result (AddsAll (number_of names.old) (number_of names.new) class (handler_in (named_of signals.now.handlers class))) }
{
    let handlers = signals.own_handlers(class);
    for at in 0..handlers.len() {
        let handler = &handlers[at];
        names.add(class, handler.signal(), handler.program())?;
    }
    Ok(())
}

/// Collects the programs that classes run for signals, under the names of the signals. The class itself names each, or else its nearest
/// ancestor that names one.
///
/// # Errors
///
/// `AllocError` if memory is refused.
pub(crate) fn handler_names(
    alloc: Global,
    types: &TypeTree,
    signals: &SignalTable,
) -> Result<NameTable, AllocError>
    requires { (t : ℕ) → length types.now ≤ t → named_of signals.now.handlers t ≡ [] }
    ensures { IfOk result (AreHandlerNames types.now signals.now.handlers) }
{
    let mut names = NameTable::new(alloc);
    // For the proof: a tree has few types.
    let _root = types.parent(TypeId::new(0));
    'classes: for class in 0..types.len() {
        add_handlers(&mut names, signals, TypeId::new(class as u16))?;
    }
    names.inherit(types)?;
    Ok(names)
}
