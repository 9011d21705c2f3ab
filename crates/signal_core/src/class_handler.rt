//! The program that a class names for a signal.

ghost use Rattle.std.specs.Prelude.{◌≡◌, string_bytes};
ghost use Rattle.ui_machine.specs.Definition.Names.{canonical, same_name};

use std::marker::Model;
use type_tree::is_spelling;
use ui_machine::ProgramId;

/// The program that a class names for a signal, by the signal's canonical name. A contract sees a class handler of the machine.
#[derive(Drop)]
pub struct ClassHandler {
    signal: String,
    program: ProgramId,
}

impl Model for ClassHandler {
    ghost use Rattle.std.specs.Prelude.{string_bytes};
    ghost use Rattle.ui_machine.specs.Definition.Signals as machine;

    ghost Value = { machine.ClassHandler };

    ghost view = { λ h. record { signal = string_bytes h.signal; program = h.program } };
}

impl ClassHandler {
    pub(crate) fn new(signal: String, program: ProgramId) -> Self
        ensures { result ≡ record { signal = string_bytes signal; program = program } }
    {
        ClassHandler { signal, program }
    }

    /// Returns whether it is for the signal with this canonical name.
    pub(crate) fn is_for(&self, name: &str) -> bool
        ensures { result ≡ same_name self.now.signal name.now }
    {
        self.signal.as_str() == name
    }

    /// Returns whether it is for the signal with this name, in any spelling.
    pub(crate) fn is_spelled(&self, name: &str) -> bool
        ensures { result ≡ same_name self.now.signal (canonical name.now) }
    {
        is_spelling(self.signal.as_str(), name)
    }

    /// Returns the canonical name of the signal.
    pub fn signal(&self) -> &str
        ensures { result.now ≡ self.now.signal }
    {
        self.signal.as_str()
    }

    /// Returns the number of the program.
    pub fn program(&self) -> ProgramId
        ensures { result ≡ self.now.program }
    {
        self.program
    }

    pub(crate) fn set_program(&mut self, program: ProgramId)
        ensures { self.new ≡ record self.old { program = program } }
    {
        self.program = program;
    }
}
