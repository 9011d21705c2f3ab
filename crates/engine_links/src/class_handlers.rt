//! The programs that classes run for signals, by the numbers of the signals.

ghost use Rattle.std.specs.Prelude.{IfOk, map};
ghost use Rattle.ui_machine.specs.Definition.Lookups.{class_of};
ghost use Rattle.engine_links.specs.Linked.{AreHandlers};
ghost use Rattle.engine_links.specs.Steps.{ArePairwise, IsHandler};

use definitions::Definition;
use std::alloc::{AllocError, Global};
use type_tree::TypeId;
use ui_machine::{ProgramId, SignalId};

// Collects the programs that a class runs for its signals, by the numbers of the signals.
fn handlers_of(
    alloc: Global,
    definition: &Definition,
    class: TypeId,
) -> Result<Vec<Option<ProgramId>>, AllocError>
    ensures { IfOk result (λ row. ArePairwise (IsHandler definition.now class) (class_of definition.now class).signals row.items) }
{
    let count = definition.signal_count(class);
    let mut row = Vec::with_capacity(alloc, count)?;
    for number in 0..count {
        row.push(definition.class_handler(class, number as SignalId))?;
    }
    Ok(row)
}

/// Collects the programs that classes run for signals, by class and number. The class itself names each, or else its nearest ancestor that
/// names one.
///
/// # Errors
///
/// `AllocError` if memory is refused.
pub(crate) fn class_handlers(
    alloc: Global,
    definition: &Definition,
) -> Result<Vec<Vec<Option<ProgramId>>>, AllocError>
    ensures { IfOk result (λ rows. AreHandlers definition.now (map (λ row. row.items) rows.items)) }
{
    let count = definition.class_count();
    let mut rows = Vec::with_capacity(alloc, count)?;
    'classes: for class in 0..count {
        let row = handlers_of(alloc, definition, TypeId::new(class as u16))?;
        rows.push(row)?;
    }
    Ok(rows)
}
