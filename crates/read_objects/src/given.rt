//! Reads the values that are given to an object's properties.

ghost use Rattle.std.specs.Prelude.{◌≡◌, codes, map, nat_eq, slice_get, Some, option_map, IfOk};
ghost use Rattle.std.specs.List.{list_any};
ghost use Rattle.serde_json.specs.Find.{get, as_str};
ghost use Rattle.json_trees.specs.View.{view};
ghost use Rattle.g_values.specs.View.{kind_view, IsKnown};
ghost use Rattle.param_specs.specs.View.{spec_view};
ghost use Rattle.param_specs.specs.Table.{specs_of};
ghost use Rattle.definition_format.specs.Meaning.{given_view, given_property};
ghost use Rattle.definition_format.specs.Refusals.{Gives};
ghost use Rattle.definition_format.specs.Document.{under, path_of};
ghost use Rattle.definition_format.specs.Denoted.Entries.{name_under};
ghost use Rattle.definition_format.specs.Denoted.Given.{property_named, is_given, named_once, takes_value, reference, class_ahead, may_be, place_called, of_type, referred, given_by, spec_ahead, place_ahead, is_too_late, in_time};

use definition_format::{DefinitionFault, Given, GivenValue, ReadError, SpecCause};
use g_values::{JsonFault, Kind};
use json_trees::Value;
use param_specs::{Spec, SpecTable};
use read_parts::document::{Part, bad_shape, bad_value, path_text, path_under, unknown_name};
use read_parts::entries::{ObjectNames, at_most, name_under};
use read_parts::names::is_name;
use read_types::value_of;
use type_tree::{TypeId, TypeTree};
use ui_machine::{Place, Slot};

// A property of a class, with its slot.
#[derive(Clone, Copy)]
pub(crate) struct Property<'a> {
    pub(crate) slot: Slot,
    pub(crate) spec: &'a Spec,
}

// Returns the property of a class with this name. A name that none has is `Unknown` at the member `key`.
#[tactic(auto, unfolding(definition_format::specs::Denoted::Given::property_named))]
pub(crate) fn property_named<'a>(
    part: Part<'_>,
    key: &str,
    types: &TypeTree,
    specs: &'a SpecTable,
    class: TypeId,
    name: &str,
) -> Result<Property<'a>, ReadError>
    ensures property { Gives (λ p. record { slot = p.slot; spec = spec_view p.spec.now }) result (property_named (under (path_of part.entry.path) key.now) (specs_of types.now specs.now class) name.now) }
    ensures spec { IfOk result (λ p. slice_get (specs_of types.now specs.now class) p.slot ≡ Some (spec_view p.spec.now)) }
{
    let Some(slot) = specs.find(types, class, name) else {
        return Err(unknown_name(part, key, name)?);
    };
    if usize::from(slot) >= specs.slots_of(types, class) {
        return Err(unknown_name(part, key, name)?);
    }
    let spec = specs.spec(types, class, slot);
    Ok(Property { slot, spec })
}

// Returns whether one of these values is for a slot.
fn has_value(given: &[GivenValue], slot: Slot) -> bool
    ensures { result ≡ list_any (λ g. nat_eq g.slot slot) given.now }
{
    given.iter().any(|other| other.slot == slot)
}

// Returns whether one of these values is for the property in a slot.
fn is_given(given: &[GivenValue], slot: Slot) -> bool
    ensures { result ≡ is_given (map given_property given.now) slot }
{
    has_value(given, slot)
}

// Refuses a property that has been given a value.
pub(crate) fn check_once(part: Part<'_>, given: &[GivenValue], slot: Slot) -> Result<(), ReadError>
    ensures { Gives (λ _. tt) result (named_once (under (path_of part.entry.path) (codes "name")) (map given_property given.now) slot) }
{
    if is_given(given, slot) {
        return Err(ReadError::Refused(DefinitionFault::Duplicate(path_under(
            part.alloc, part.path, "name",
        )?)));
    }
    Ok(())
}

// Refuses a `value` for a property that cannot be written.
pub(crate) fn check_writable(part: Part<'_>, spec: &Spec) -> Result<(), ReadError>
    ensures { Gives (λ _. tt) result (takes_value (under (path_of part.entry.path) (codes "name")) (get (codes "value") (view part.entry.value.now)) (spec_view spec.now)) }
{
    if part.value.get("value").is_some() && !spec.is_writable() {
        let path = path_under(part.alloc, part.path, "name")?;
        return Err(ReadError::Refused(DefinitionFault::BadSpec(path, SpecCause::NotWritable)));
    }
    Ok(())
}

// Returns the class that the entry of an object names, or `None` if there is no class of this name.
pub(crate) fn class_ahead(
    types: &TypeTree,
    objects: &ObjectNames<'_>,
    place: usize,
) -> Option<TypeId>
    ensures { result ≡ class_ahead types.now objects.now place }
{
    types.find_class(objects.class(place)?)
}

// Returns whether an object of this class, if it is known, is one of a type. An object of an unknown class may be.
fn may_be(types: &TypeTree, t: TypeId, class: Option<TypeId>) -> bool
    ensures { result ≡ may_be types.now t class }
{
    match class {
        Some(class) => types.is_a(class, t),
        None => true,
    }
}

// Returns the place of the object with this id, which may come later in the document.
fn place_called(part: Part<'_>, objects: &ObjectNames<'_>, id: &str) -> Result<usize, ReadError>
    ensures { Gives (λ n. n) result (place_called (under (path_of part.entry.path) (codes "value")) objects.now id.now) }
{
    if !is_name(id) {
        return Err(bad_shape(part.alloc, part.path, "value")?);
    }
    match objects.place(id) {
        Some(place) => Ok(place),
        None => Err(unknown_name(part, "value", id)?),
    }
}

// Returns the object at a place, which must be of a type.
fn object_of_type(
    part: Part<'_>,
    types: &TypeTree,
    objects: &ObjectNames<'_>,
    t: TypeId,
    place: usize,
) -> Result<Given, ReadError>
    ensures { Gives given_view result (of_type (under (path_of part.entry.path) (codes "value")) types.now objects.now t place) }
{
    if !may_be(types, t, class_ahead(types, objects, place)) {
        return Err(bad_value(part.alloc, part.path, "value", JsonFault::WrongJson)?);
    }
    Ok(Given::Object(Place(at_most(512, place))))
}

/// Returns the type and the id if a kind is one of objects and the value is a text.
pub fn reference<'a>(kind: &Kind, text: Option<&'a str>) -> Option<(TypeId, &'a str)>
    ensures { option_map (λ r. (r.0, r.1.now)) result ≡ reference (kind_view kind.now) (option_map (λ s. s.now) text.entry) }
{
    match kind {
        Kind::Object(t) => Some((*t, text?)),
        _ => None,
    }
}

// Returns the object that an id refers to, which must be of a type.
#[tactic(auto, unfolding(definition_format::specs::Denoted::Given::referred))]
fn referred(
    part: Part<'_>,
    types: &TypeTree,
    objects: &ObjectNames<'_>,
    t: TypeId,
    id: &str,
) -> Result<Given, ReadError>
    ensures { Gives given_view result (referred (under (path_of part.entry.path) (codes "value")) types.now objects.now (t, id.now)) }
{
    let place = place_called(part, objects, id)?;
    let given = object_of_type(part, types, objects, t, place)?;
    Ok(given)
}

// Reads a value of this kind, or the object that it refers to.
pub(crate) fn given_by(
    part: Part<'_>,
    types: &TypeTree,
    objects: &ObjectNames<'_>,
    kind: Kind,
    value: &Value,
) -> Result<Given, ReadError>
    requires { IsKnown types.now kind }
    ensures { Gives given_view result (given_by (under (path_of part.entry.path) (codes "value")) types.now objects.now (kind_view kind) (view value.now) (reference (kind_view kind) (as_str (view value.now)))) }
{
    if let Some((t, id)) = reference(&kind, value.as_str()) {
        return referred(part, types, objects, t, id);
    }
    let value = value_of(part, "value", types, kind, value)?;
    Ok(Given::Value(value))
}

// Returns the property that an entry names, or `None` if it names none of the class.
pub(crate) fn spec_ahead<'a>(
    value: &Value,
    types: &TypeTree,
    specs: &'a SpecTable,
    class: TypeId,
) -> Option<&'a Spec>
    ensures { option_map (λ s. spec_view s.now) result ≡ spec_ahead (specs_of types.now specs.now class) (view value.now) }
{
    let slot = specs.find(types, class, name_under(value, "name")?)?;
    if usize::from(slot) >= specs.slots_of(types, class) {
        return None;
    }
    Some(specs.spec(types, class, slot))
}

// Returns the reference to an object that an entry gives, if it gives one.
fn reference_under<'a>(entry: &'a Value, kind: &Kind) -> Option<(TypeId, &'a str)>
    ensures { option_map (λ r. (r.0, r.1.now)) result ≡ reference (kind_view kind.now) (name_under (codes "value") (view entry.now)) }
{
    match entry.get("value") {
        Some(value) => reference(kind, value.as_str()),
        None => None,
    }
}

// Returns the place of the object that an entry gives, if it gives one.
fn place_ahead(value: &Value, objects: &ObjectNames<'_>, kind: &Kind) -> Option<usize>
    ensures { result ≡ place_ahead objects.now (reference (kind_view kind.now) (name_under (codes "value") (view value.now))) }
{
    match reference_under(value, kind) {
        Some((_, id)) if is_name(id) => objects.place(id),
        _ => None,
    }
}

// Returns whether an entry gives an object that is not built yet to a property that only constructions set.
fn is_too_late(value: &Value, objects: &ObjectNames<'_>, place: usize, spec: &Spec) -> bool
    ensures { result ≡ is_too_late place objects.now (view value.now) (spec_view spec.now) }
{
    if !spec.is_construct_only() {
        return false;
    }
    match place_ahead(value, objects, &spec.kind) {
        Some(to) => place <= to,
        None => false,
    }
}

// Checks that the object that an entry gives, if any, is not too late for its property.
pub(crate) fn check_in_time(
    part: Part<'_>,
    objects: &ObjectNames<'_>,
    place: usize,
    spec: Option<&Spec>,
) -> Result<(), ReadError>
    ensures { Gives (λ _. tt) result (in_time (path_of part.entry.path) place objects.now (view part.entry.value.now) (option_map (λ s. spec_view s.now) spec.entry)) }
{
    match spec {
        Some(spec) if is_too_late(part.value, objects, place, spec) => Err(ReadError::Refused(
            DefinitionFault::ForwardConstructOnly(path_text(part.alloc, part.path)?),
        )),
        _ => Ok(()),
    }
}
