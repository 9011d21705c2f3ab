//! The places of a document by their ids. Those that come later in the document are known too.

ghost use Rattle.std.specs.Prelude.{◌≡◌, List, ℕ, None, Some, codes, map, option_map, if◌then◌else◌, IfOk, OnOk};
ghost use Rattle.std.specs.BTreeMap.{get_by_text};
ghost use Rattle.json_trees.specs.View.{view};
ghost use Rattle.bytecode.specs.Reading.RegisterKinds.{number_of_place};
ghost use Rattle.definition_format.specs.Denoted.Entries.{at_most, is_called, name_under, number_from, place_with_id};
ghost use Rattle.read_parts.specs.EntryViews.{views};

use json_trees::Value;
use read_parts::entries::{MOST_LEVELS, add_objects, at_most, name_under, section};
use std::alloc::{AllocError, Global};
use std::collections::BTreeMap;
use ui_machine::Place;

// Maps the id of an entry to its place, in place of that of a later entry with the same id. Does nothing without an id.
fn add_place(
    places: &mut BTreeMap<String, Place>,
    alloc: Global,
    entry: &Value,
    number: usize,
) -> Result<(), AllocError>
    ensures { (id : List ℕ) → OnOk result (number_of_place (get_by_text places.new id)
        ≡ (if is_called (name_under (codes "id") (view entry.now)) id then Some (at_most 512 number) else number_of_place (get_by_text places.old id))) }
{
    if let Some(id) = name_under(entry, "id") {
        let place = Place(at_most(512, number));
        places.insert(String::from_str(alloc, id)?, place)?;
    }
    Ok(())
}

// Maps each id to the place of the first entry that has it.
fn places_of(alloc: Global, entries: &[&Value]) -> Result<BTreeMap<String, Place>, AllocError>
    ensures { (id : List ℕ) → IfOk result (λ places. number_of_place (get_by_text places id)
        ≡ option_map (at_most 512) (number_from 0 (map (name_under (codes "id")) (views entries.now)) id)) }
{
    let mut places = BTreeMap::new(alloc);
    let mut left = entries.len();
    'entries: while left > 0 {
        left -= 1;
        add_place(&mut places, alloc, entries[left], left)?;
    }
    Ok(places)
}

/// Maps each id of a document to its place. Objects come first in document order, each followed by its children, and then the prototypes.
///
/// # Errors
///
/// `AllocError` if memory is refused.
pub fn read_places(alloc: Global, value: &Value) -> Result<BTreeMap<String, Place>, AllocError>
    ensures { (id : List ℕ) → IfOk result (λ places. number_of_place (get_by_text places id) ≡ place_with_id (view value.now) id) }
{
    let mut entries = Vec::new(alloc);
    add_objects(section(value, "objects"), MOST_LEVELS, &mut entries)?;
    // Prototypes have no children.
    add_objects(section(value, "prototypes"), 1, &mut entries)?;
    places_of(alloc, entries.as_slice())
}
