//! The class handlers of a class while they are read. The names of their signals are also kept in a set, so that a further name is found
//! without a search of the handlers.

ghost use Rattle.std.specs.Prelude.{◌≡◌, List, ℕ, is_some, string_bytes, IfOk, OnOk};
ghost use Rattle.std.specs.BTreeSet.{contains_text};
ghost use Rattle.ui_machine.specs.Definition.Names.{canonical};
ghost use Rattle.ui_machine.specs.Rules.EmissionPlan.{handler_in};
ghost use Rattle.definition_format.specs.Denoted.ClassHandlers.{handler_for};
ghost use Rattle.read_types.specs.HandlerDrafts.{parts_seen, with_handler};

use signal_core::{ClassHandler, SignalTable};
use std::alloc::{AllocError, Global};
use std::collections::BTreeSet;
use type_tree::TypeId;
use ui_machine::ProgramId;

/// A class handler that is not added yet, with the name of its signal as it is spelled and in canonical spelling.
#[derive(Drop)]
pub(crate) struct NewHandler<'a> {
    pub(crate) signal: &'a str,
    pub(crate) name: String,
    pub(crate) program: ProgramId,
}

/// The class handlers of all classes, and the canonical names of the signals for which the class that is being read has handlers.
#[derive(Drop)]
pub(crate) struct HandlerDraft {
    pub(crate) signals: SignalTable,
    pub(crate) named: BTreeSet<String>,
}

/// Returns the names of the signals for which there are these class handlers.
pub(crate) fn names_of(
    alloc: Global,
    handlers: &[ClassHandler],
) -> Result<BTreeSet<String>, AllocError>
    ensures { (name : List ℕ) → IfOk result (λ named. contains_text named name ≡ is_some (handler_in handlers.now name)) }
{
    let mut named = BTreeSet::new(alloc);
    for handler in handlers {
        let name = String::from_str(alloc, handler.signal())?;
        named.insert(name)?;
    }
    Ok(named)
}

impl HandlerDraft {
    /// Adds a class handler to a class.
    ///
    /// # Errors
    ///
    /// `AllocError` if memory is refused. The draft may then have more class handlers than names, and is of no further use.
    pub(crate) fn add(&mut self, t: TypeId, handler: NewHandler<'_>) -> Result<(), AllocError>
        requires { string_bytes handler.name ≡ canonical handler.signal.now }
        ensures handlers { OnOk result (parts_seen self.new ≡ with_handler (parts_seen self.old) t (handler_for handler.entry.signal.now handler.entry.program)) }
        ensures signals { self.new.signals.signals ≡ self.old.signals.signals }
    {
        self.signals
            .add_class_handler(t, handler.signal, handler.program)?;
        self.named.insert(handler.name)?;
        Ok(())
    }
}
