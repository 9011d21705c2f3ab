//! The programs that classes run for signals.

ghost use Rattle.std.specs.Prelude.{◌≡◌, ◌<◌, OnErr, OnOk, length, option_and_then, option_map, slice_get};
ghost use Rattle.std.specs.List.{find, list_any};
ghost use Rattle.ui_machine.specs.Definition.Names.{canonical, same_name};
ghost use Rattle.ui_machine.specs.Rules.EmissionPlan.{handler_in};
ghost use Rattle.ui_machine.specs.Seq.{read};
ghost use Rattle.ui_machine.specs.Words.{notify};
ghost use Rattle.signal_core.specs.Sources.{signals_of};
ghost use Rattle.signal_core.specs.Table.{AddsHandler, Names, SameHandlers, class_handler_named, is_handled, named_of};

use crate::class_handler::ClassHandler;
use crate::spelling::canonical_text;
use crate::table::SignalTable;
use std::alloc::AllocError;
use type_tree::{TypeId, TypeTree};
use ui_machine::{ProgramId, SignalId};

impl SignalTable {
    /// Sets the program that a class runs for the signal with this number, in place of the one that it named before (GObject manual,
    /// Signals: `g_signal_override_class_handler`).
    ///
    /// # Errors
    ///
    /// `AllocError` if memory is refused. Nothing has changed then.
    pub fn set_class_handler(
        &mut self,
        tree: &TypeTree,
        t: TypeId,
        number: SignalId,
        program: ProgramId,
    ) -> Result<(), AllocError>
        requires { number < length (signals_of tree.now self.old.signals t) }
        ensures ok { let signal = read notify (signals_of tree.now self.old.signals t) number in
            OnOk result (Names self.old.handlers self.new.handlers t signal.name program) }
        ensures err { OnErr result (SameHandlers self.old.handlers self.new.handlers) }
        ensures signals { self.new.signals ≡ self.old.signals }
    {
        let Some(signal) = self.signal(tree, t, number) else {
            unreachable!()
        };
        let name = String::from_str(self.allocator(), signal.name)?;
        if self.own_handler(t, name.as_str()).is_some() {
            self.replace_program(t, name.as_str(), program);
            return Ok(());
        }
        self.add_handler(t, ClassHandler::new(name, program))
    }

    /// Appends a class handler to those that a class names itself. The signal is given by any spelling of its name, and need not be one of
    /// the class's.
    ///
    /// # Errors
    ///
    /// `AllocError` if memory is refused. Nothing has changed then.
    pub fn add_class_handler(
        &mut self,
        t: TypeId,
        signal: &str,
        program: ProgramId,
    ) -> Result<(), AllocError>
        ensures ok { OnOk result (AddsHandler self.old.handlers self.new.handlers t (record { signal = canonical signal.now; program = program })) }
        ensures err { OnErr result (SameHandlers self.old.handlers self.new.handlers) }
        ensures signals { self.new.signals ≡ self.old.signals }
    {
        let name = canonical_text(self.allocator(), signal)?;
        self.add_handler(t, ClassHandler::new(name, program))
    }

    /// Returns whether a class itself names a program for the signal with this name, in any spelling.
    pub fn has_class_handler(&self, t: TypeId, signal: &str) -> bool
        ensures { result ≡ is_handled (named_of self.now.handlers t) signal.now }
    {
        any_for(self.own_handlers(t), signal)
    }

    /// Returns the program that a class runs for the signal with this number. The class itself names it, or else its nearest ancestor that
    /// names one.
    pub fn class_handler(&self, tree: &TypeTree, t: TypeId, number: SignalId) -> Option<ProgramId>
        ensures { result ≡ option_and_then (λ s. class_handler_named tree.now self.now.handlers t s.name)
            (slice_get (signals_of tree.now self.now.signals t) number) }
    {
        match self.signal(tree, t, number) {
            Some(signal) => self.handler_named(tree, t, signal.name),
            None => None,
        }
    }

    /// Returns the program that a class runs for the signal with this canonical name. The class itself names it, or else its nearest
    /// ancestor that names one.
    pub(crate) fn handler_named(&self, tree: &TypeTree, t: TypeId, name: &str) -> Option<ProgramId>
        ensures { result ≡ class_handler_named tree.now self.now.handlers t name.now }
    {
        let mut class = t;
        'line: loop {
            if let Some(program) = self.own_handler(class, name) {
                return Some(program);
            }
            let Some(parent) = tree.parent(class) else {
                return None;
            };
            class = parent;
        }
    }

    // Returns the program that a class itself names for the signal with this canonical name.
    fn own_handler(&self, t: TypeId, name: &str) -> Option<ProgramId>
        ensures { result ≡ handler_in (named_of self.now.handlers t) name.now }
    {
        let handler = first_for(self.own_handlers(t), name)?;
        Some(handler.program())
    }
}

// Returns the first class handler for the signal with this canonical name.
fn first_for<'a>(handlers: &'a [ClassHandler], name: &str) -> Option<&'a ClassHandler>
    ensures { option_map (λ h. h.now) result ≡ find (λ h. same_name h.signal name.now) handlers.now }
{
    handlers.iter().find(|handler| handler.is_for(name))
}

// Returns whether one of the class handlers is for the signal with this name, in any spelling.
fn any_for(handlers: &[ClassHandler], signal: &str) -> bool
    ensures { result ≡ list_any (λ h. same_name h.signal (canonical signal.now)) handlers.now }
{
    handlers.iter().any(|handler| handler.is_spelled(signal))
}
