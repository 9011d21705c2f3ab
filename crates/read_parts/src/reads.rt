//! Reads the entries of a list one after the other.

ghost use Rattle.std.specs.Prelude.{◌≡◌, ℕ, List, Result};
ghost use Rattle.serde_json.specs.Data.{Data};
ghost use Rattle.json_trees.specs.View.{view, items_view};
ghost use Rattle.definition_format.specs.Refusals.{Refusal, Leads};
ghost use Rattle.definition_format.specs.Document.{path_of, each, at_entry};

use crate::document::{Entries, Part};
use definition_format::{Path, ReadError};

/// A reader that adds each entry of a list to a state.
pub trait Reads<S> {
    // The state as the format sees it.
    ghost State: { Type 0 };

    ghost seen: { S → State };

    // The part of the state that no entry changes.
    ghost Unchanged: { Type 0 };

    ghost kept: { S → Unchanged };

    // The condition that a reader must meet.
    ghost known: { Self → Type 0 };

    // The state after the entry at a path is read, or the fault.
    ghost step: { Self → List ℕ → State → Data → Result State Refusal };

    fn read(&self, part: Part<'_>, state: &mut S) -> Result<(), ReadError>
        requires { known self.now }
        ensures read { Leads result (step self.now (path_of part.entry.path) (seen state.old) (view part.entry.value.now)) (seen state.new) }
        ensures same { kept state.new ≡ kept state.old };
}

/// Reads the entries of a list in order.
///
/// # Errors
///
/// Returns `Refused` with the first fault in document order, or `OutOfMemory` if memory is refused.
pub fn read_each<S, R: Reads<S>>(
    reader: &R,
    list: Entries<'_>,
    state: &mut S,
) -> Result<(), ReadError>
    requires { R.known reader.now }
    ensures read { Leads result (each (at_entry (R.step reader.now) list.entry.path.now) 0 (R.seen state.old) (items_view list.entry.items.now)) (R.seen state.new) }
    ensures same { R.kept state.new ≡ R.kept state.old }
{
    'items: for (index, value) in list.items.iter().enumerate() {
        let path = Path {
            base: list.path,
            index: Some(index),
        };
        let part = Part {
            alloc: list.alloc,
            path,
            value,
        };
        reader.read(part, state)?;
    }
    Ok(())
}
