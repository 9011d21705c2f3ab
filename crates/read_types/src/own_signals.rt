//! The names of the signals that a class itself declares, read ahead because its interfaces are judged with them.

ghost use Rattle.std.specs.Prelude.{◌≡◌, []};
ghost use Rattle.std.specs.BTreeSet.{contains_text};
ghost use Rattle.json_trees.specs.View.{view, items_view};
ghost use Rattle.definition_format.specs.Refusals.{Gives};
ghost use Rattle.definition_format.specs.Document.{path_of, each, at_entry};
ghost use Rattle.definition_format.specs.Denoted.Brought.{own_signal_at, own_signals_ahead};
ghost use Rattle.read_types.specs.Drafted.{drafted};
ghost use Rattle.read_types.specs.OverrideView.{names_of};
ghost use Rattle.read_types.specs.OwnParts.{are_named};

use crate::overrides::own_name;
use definition_format::ReadError;
use read_parts::document::{Entries, Part, listed_ahead, path_under};
use read_parts::reads::{Reads, read_each};
use std::collections::BTreeSet;

/// The names of a class's own signals, in canonical spelling.
pub(crate) type OwnSignals = BTreeSet<String>;

// Returns whether a name is among the own signals.
pub(crate) fn has_own_signal(own: &OwnSignals, name: &str) -> bool
    ensures { result ≡ are_named (names_of own.now.keys) name.now }
{
    own.contains(name)
}

// The reader that looks ahead at the entries of a class's signals.
#[derive(Clone, Copy)]
struct OwnSignalEntries;

impl Reads<OwnSignals> for OwnSignalEntries {
    ghost use Rattle.std.specs.Prelude.{ℕ, Bool, List};
    ghost use Rattle.std.specs.BTreeSet.{contains_text};
    ghost use Rattle.read_types.specs.OwnParts.{named_at};

    ghost State = { List ℕ → Bool };

    ghost seen = { λ own. λ name. contains_text own name };

    ghost Unchanged = { Unit {0} };

    ghost kept = { λ own. tt };

    ghost known = { λ r. Unit {0} };

    ghost step = { λ r path has d. named_at path has d };

    fn read(&self, part: Part<'_>, own: &mut OwnSignals) -> Result<(), ReadError> {
        let Some(name) = own_name(part.alloc, part.value)? else {
            return Ok(());
        };
        own.insert(name)?;
        Ok(())
    }
}

// Collects the names of the signals of a list.
fn read_own_entries(list: Entries<'_>) -> Result<OwnSignals, ReadError>
    ensures { Gives (λ own. λ name. contains_text own name) result (drafted are_named (each (at_entry own_signal_at list.entry.path.now) 0 [] (items_view list.entry.items.now))) }
{
    let mut own = BTreeSet::new(list.alloc);
    read_each(&OwnSignalEntries, list, &mut own)?;
    Ok(own)
}

// Collects the names of the signals that the entry of a class declares.
pub(crate) fn read_own_signals(part: Part<'_>) -> Result<OwnSignals, ReadError>
    ensures { Gives (λ own. λ name. contains_text own name) result (drafted are_named (own_signals_ahead (path_of part.entry.path) (view part.entry.value.now))) }
{
    let path = path_under(part.alloc, part.path, "signals")?;
    let list = Entries {
        alloc: part.alloc,
        path: path.as_str(),
        items: listed_ahead(part.value, "signals"),
    };
    let own = read_own_entries(list)?;
    Ok(own)
}
