//! The types of a definition with their properties and signals while they are read.

ghost use Rattle.std.specs.Prelude.{◌≡◌, ◌<◌, codes, length};
ghost use Rattle.json_trees.specs.View.{view};
ghost use Rattle.param_specs.specs.Table.{own_of};
ghost use Rattle.signal_core.specs.Sources as declared;
ghost use Rattle.definition_format.specs.Refusals.{Leads};
ghost use Rattle.definition_format.specs.Document.{path_of};
ghost use Rattle.definition_format.specs.Denoted.Drafts.{draft_of, properties_at, given_at};
ghost use Rattle.definition_format.specs.Denoted.Signals.{signals_at};

use crate::properties::read_properties;
use crate::signals::read_signals;
use definition_format::ReadError;
use param_specs::SpecTable;
use read_parts::document::{Entries, Part, path_under};
use read_parts::entries::TypeNames;
use signal_core::SignalTable;
use type_tree::{TypeId, TypeTree};

/// The types with their properties and signals that are read so far.
#[derive(Drop)]
pub struct Draft {
    pub types: TypeTree,
    pub specs: SpecTable,
    pub signals: SignalTable,
}

// Reads the properties of a type from its entry.
#[tactic(auto, unfolding(definition_format::specs::Denoted::Drafts::properties_at))]
fn give_properties(
    part: Part<'_>,
    types: &TypeTree,
    names: &TypeNames<'_>,
    specs: &mut SpecTable,
    t: TypeId,
) -> Result<(), ReadError>
    ensures { Leads result (properties_at (path_of part.entry.path) types.now names.now t (own_of specs.old) (view part.entry.value.now)) (own_of specs.new) }
{
    let items = part.entries("properties")?;
    let path = path_under(part.alloc, part.path, "properties")?;
    let list = Entries {
        alloc: part.alloc,
        path: path.as_str(),
        items,
    };
    read_properties(list, types, names, specs, t)?;
    Ok(())
}

// Reads the signals of a type from its entry.
#[tactic(auto, unfolding(definition_format::specs::Denoted::Signals::signals_at))]
fn give_signals(
    part: Part<'_>,
    types: &TypeTree,
    names: &TypeNames<'_>,
    signals: &mut SignalTable,
    t: TypeId,
) -> Result<(), ReadError>
    requires { t < length types.now }
    ensures signals { Leads result (signals_at (path_of part.entry.path) types.now names.now t (declared.own_of signals.old.signals) (view part.entry.value.now)) (declared.own_of signals.new.signals) }
    ensures handlers { signals.new.handlers ≡ signals.old.handlers }
{
    let items = part.entries("signals")?;
    let path = path_under(part.alloc, part.path, "signals")?;
    let list = Entries {
        alloc: part.alloc,
        path: path.as_str(),
        items,
    };
    read_signals(list, types, names, signals, t)?;
    Ok(())
}

/// Reads the properties and signals of a type from its entry.
///
/// # Errors
///
/// Returns `Refused` with the first fault in document order, or `OutOfMemory` if memory is refused.
#[tactic(auto, unfolding(definition_format::specs::Denoted::Drafts::given_at))]
pub fn give_members(
    part: Part<'_>,
    types: &TypeTree,
    names: &TypeNames<'_>,
    specs: &mut SpecTable,
    signals: &mut SignalTable,
    t: TypeId,
) -> Result<(), ReadError>
    requires { t < length types.now }
    ensures given { Leads result (given_at (path_of part.entry.path) types.now names.now t (own_of specs.old) (declared.own_of signals.old.signals) (view part.entry.value.now)) (draft_of types.now specs.new signals.new.signals) }
    ensures handlers { signals.new.handlers ≡ signals.old.handlers }
{
    give_properties(part, types, names, specs, t)?;
    give_signals(part, types, names, signals, t)?;
    Ok(())
}
