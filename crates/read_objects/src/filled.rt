//! Reads what the entries of an object's properties give it, which are values and bindings.

ghost use Rattle.std.specs.Prelude.{◌≡◌, codes, nat_eq, slice_get, Some, option_map};
ghost use Rattle.json_trees.specs.View.{view, items_view};
ghost use Rattle.serde_json.specs.Find.{get};
ghost use Rattle.g_values.specs.View.{IsKnown};
ghost use Rattle.param_specs.specs.View.{spec_view};
ghost use Rattle.definition_format.specs.Meaning.{ArePlain};
ghost use Rattle.definition_format.specs.Refusals.{Gives, Leads};
ghost use Rattle.definition_format.specs.Document.{under, path_of, each, at_entry};
ghost use Rattle.definition_format.specs.Denoted.Filled.{is_named, unless_named, unbound, valued_at, bound_at, value_or_bind, filled_at, all_filled};
ghost use Rattle.read_objects.specs.BindView.{target_of, filled_view};

use crate::bind_lists::BindList;
use crate::binds::read_bind;
use crate::given::{Property, check_in_time, check_writable, given_by, property_named, spec_ahead};
use crate::targets::Target;
use definition_format::{DefinitionFault, GivenValue, Path, ReadError};
use json_trees::Value;
use read_parts::document::{Entries, Part, bad_shape, path_under};
use std::alloc::Global;
use ui_machine::Slot;

const MEMBERS: [&str; 3] = ["name", "value", "bind"];

// What the entries gave so far: the slots of the properties that they name, and the values. Bindings are kept in a list with those of the
// objects before.
#[derive(Drop)]
pub(crate) struct Filled {
    pub(crate) slots: Vec<Slot>,
    pub(crate) given: Vec<GivenValue>,
}

// Returns whether the slot of a property is one of these.
fn is_named(slots: &[Slot], slot: Slot) -> bool
    ensures { result ≡ is_named slots.now slot }
{
    slots.iter().any(|other| *other == slot)
}

// Refuses a property that an entry before names.
fn check_unnamed(part: Part<'_>, slots: &[Slot], slot: Slot) -> Result<(), ReadError>
    ensures { Gives (λ _. tt) result (unless_named (under (path_of part.entry.path) (codes "name")) slots.now slot) }
{
    if is_named(slots, slot) {
        let path = path_under(part.alloc, part.path, "name")?;
        return Err(ReadError::Refused(DefinitionFault::Duplicate(path)));
    }
    Ok(())
}

// Refuses a binding in an entry that also has a value.
fn check_unbound(part: Part<'_>, bind: Option<&Value>) -> Result<(), ReadError>
    ensures { Gives (λ _. tt) result (unbound (under (path_of part.entry.path) (codes "bind")) (option_map (λ v. view v.now) bind.entry)) }
{
    match bind {
        Some(_) => Err(bad_shape(part.alloc, part.path, "bind")?),
        None => Ok(()),
    }
}

// Gives a property the value of an entry.
#[tactic(auto, unfolding(definition_format::specs::Denoted::Filled::valued_at))]
fn give_value(
    part: Part<'_>,
    target: &Target<'_>,
    property: Property<'_>,
    filled: &mut Filled,
    bindings: &BindList,
    value: &Value,
) -> Result<(), ReadError>
    requires { IsKnown target.now.types.now property.spec.now.kind }
    ensures { Leads result (valued_at (path_of part.entry.path) (target_of target.now) (record { slot = property.entry.slot; spec = spec_view property.entry.spec.now }) (filled_view filled.old bindings.now) (view value.now) (get (codes "bind") (view part.entry.value.now))) (filled_view filled.new bindings.now) }
{
    let given = given_by(
        part,
        target.types,
        target.objects,
        property.spec.kind,
        value,
    )?;
    check_unbound(part, part.value.get("bind"))?;
    filled.slots.push(property.slot)?;
    filled.given.push(GivenValue {
        slot: property.slot,
        given,
    })?;
    Ok(())
}

// Returns the part for a value at a path.
fn part_at<'a>(alloc: Global, base: &'a str, value: &'a Value) -> Part<'a>
    ensures path { path_of result.path ≡ base.now }
    ensures value { result.value.now ≡ value.now }
{
    let path = Path { base, index: None };
    Part { alloc, path, value }
}

// Binds a property as an entry says.
#[tactic(auto, unfolding(definition_format::specs::Denoted::Filled::bound_at))]
fn bind(
    part: Part<'_>,
    target: &Target<'_>,
    property: Property<'_>,
    filled: &mut Filled,
    bindings: &mut BindList,
    value: &Value,
) -> Result<(), ReadError>
    ensures { Leads result (bound_at (path_of part.entry.path) (target_of target.now) (record { slot = property.entry.slot; spec = spec_view property.entry.spec.now }) (filled_view filled.old bindings.old) (view value.now)) (filled_view filled.new bindings.new) }
{
    let base = path_under(part.alloc, part.path, "bind")?;
    let inner = part_at(part.alloc, base.as_str(), value);
    let bind = read_bind(inner, target, property, filled.slots.len(), bindings)?;
    filled.slots.push(bind.target_slot)?;
    bindings.push(bind)?;
    Ok(())
}

// Gives a property the value of an entry, or binds it. An entry has exactly one of `value` and `bind`.
fn fill(
    part: Part<'_>,
    target: &Target<'_>,
    property: Property<'_>,
    filled: &mut Filled,
    bindings: &mut BindList,
) -> Result<(), ReadError>
    requires { IsKnown target.now.types.now property.spec.now.kind }
    ensures { Leads result (value_or_bind (path_of part.entry.path) (target_of target.now) (record { slot = property.entry.slot; spec = spec_view property.entry.spec.now }) (filled_view filled.old bindings.old) (get (codes "value") (view part.entry.value.now)) (get (codes "bind") (view part.entry.value.now))) (filled_view filled.new bindings.new) }
{
    match (part.value.get("value"), part.value.get("bind")) {
        (Some(value), _) => give_value(part, target, property, filled, bindings, value),
        (None, Some(value)) => bind(part, target, property, filled, bindings, value),
        (None, None) => Err(bad_shape(part.alloc, part.path, "value")?),
    }
}

// Gives a value to the property that an entry names, or binds it.
#[tactic(auto, unfolding(definition_format::specs::Denoted::Filled::filled_at, param_specs::specs::Table::specs_of))]
fn read_entry(
    part: Part<'_>,
    target: &Target<'_>,
    filled: &mut Filled,
    bindings: &mut BindList,
) -> Result<(), ReadError>
    requires { ArePlain target.now.types.now target.now.specs.now }
    ensures { Leads result (filled_at (path_of part.entry.path) (target_of target.now) (filled_view filled.old bindings.old) (view part.entry.value.now)) (filled_view filled.new bindings.new) }
{
    let members = part.members()?;
    let named = spec_ahead(part.value, target.types, target.specs, target.class);
    check_in_time(part, target.objects, usize::from(target.place.0), named)?;
    let name = part.text("name")?;
    let property = property_named(part, "name", target.types, target.specs, target.class, name)?;
    check_unnamed(part, filled.slots.as_slice(), property.slot)?;
    check_writable(part, property.spec)?;
    fill(part, target, property, filled, bindings)?;
    part.check_only(members, &MEMBERS)?;
    Ok(())
}

// Reads the entries of a list in order.
fn read_entries(
    list: Entries<'_>,
    target: &Target<'_>,
    filled: &mut Filled,
    bindings: &mut BindList,
) -> Result<(), ReadError>
    requires { ArePlain target.now.types.now target.now.specs.now }
    ensures { Leads result (each (at_entry (λ entry. filled_at entry (target_of target.now)) list.entry.path.now) 0 (filled_view filled.old bindings.old) (items_view list.entry.items.now)) (filled_view filled.new bindings.new) }
{
    'items: for (index, value) in list.items.iter().enumerate() {
        let path = Path {
            base: list.path,
            index: Some(index),
        };
        let part = Part {
            alloc: list.alloc,
            path,
            value,
        };
        read_entry(part, target, filled, bindings)?;
    }
    Ok(())
}

// Reads the properties of an object. Its bindings are appended to those of the objects before.
#[tactic(auto, unfolding(definition_format::specs::Denoted::Filled::all_filled))]
pub(crate) fn read_properties(
    part: Part<'_>,
    target: &Target<'_>,
    bindings: &mut BindList,
) -> Result<Filled, ReadError>
    requires { ArePlain target.now.types.now target.now.specs.now }
    ensures { Gives (λ f. filled_view f bindings.new) result (all_filled (path_of part.entry.path) (target_of target.now) bindings.old (view part.entry.value.now)) }
{
    let items = part.entries("properties")?;
    let path = path_under(part.alloc, part.path, "properties")?;
    let list = Entries {
        alloc: part.alloc,
        path: path.as_str(),
        items,
    };
    let mut filled = Filled {
        slots: Vec::new(part.alloc),
        given: Vec::new(part.alloc),
    };
    read_entries(list, target, &mut filled, bindings)?;
    Ok(filled)
}
