//! The types of a definition by their numbers.

ghost use Rattle.std.specs.Prelude.{◌≡◌};
ghost use Rattle.ui_machine.specs.Seq.{read};
ghost use Rattle.ui_machine.specs.Output.Text.{no_type};

use type_tree::{TypeId, TypeTree};

/// Returns the name of a type, or an empty text if there is no such type.
pub fn type_name(types: &TypeTree, t: TypeId) -> &str
    ensures { result.now ≡ (read no_type types.now t).name }
{
    if t.index() >= types.len() {
        return "";
    }
    types.name(t)
}
