//! The programs of a definition by their names.

ghost use Rattle.std.specs.Prelude.{◌≡◌, ◌≤◌, length, map};
ghost use Rattle.std.specs.List.{AllByRecursion};
ghost use Rattle.ui_machine.specs.Definition.Names.{place_named};
ghost use Rattle.definition_format.specs.Meaning.{HasOwnName, plain_program};

use bytecode::Program;
use indexmap::IndexMap;
use ui_machine::ProgramId;

/// Programs in document order, by their names.
pub type Programs = IndexMap<String, Program>;

/// Returns the number of the program with this name.
pub fn number_of(programs: &Programs, name: &str) -> Option<ProgramId>
    requires named { AllByRecursion HasOwnName programs.now.entries }
    requires few { length programs.now.entries ≤ 256 }
    ensures { result ≡ place_named (λ p. p.name) (map plain_program programs.now.entries) name.now }
{
    let number = programs.get_index_of(name)?;
    Some(number as ProgramId)
}
