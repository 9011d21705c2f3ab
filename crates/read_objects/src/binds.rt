//! Reads the bindings between properties of objects.

ghost use Rattle.std.specs.Prelude.{◌≡◌, codes, option_map, string_bytes};
ghost use Rattle.json_trees.specs.View.{view};
ghost use Rattle.serde_json.specs.Find.{as_str, get};
ghost use Rattle.param_specs.specs.View.{spec_view};
ghost use Rattle.param_specs.specs.Table.{own_of};
ghost use Rattle.definition_format.specs.Meaning.{bind_view};
ghost use Rattle.definition_format.specs.Refusals.{Gives};
ghost use Rattle.definition_format.specs.Document.{under, path_of};
ghost use Rattle.definition_format.specs.Denoted.Binds.{bind_flag_named, bind_flag_if, bind_flags_at, source_at, source_name_or, slot_called, slot_if_class, bind_name_or, bind_at};
ghost use Rattle.definition_format.specs.Denoted.Given.{class_ahead};
ghost use Rattle.definition_format.specs.Denoted.Properties.{specs_by};
ghost use Rattle.read_objects.specs.BindView.{target_of};

use crate::attached::name_of;
use crate::bind_lists::BindList;
use crate::given::{Property, class_ahead, property_named};
use crate::targets::Target;
use bindings::BindingFlags;
use definition_format::{Bind, DefinitionFault, ReadError};
use json_trees::Value;
use read_parts::document::{Entries, Part, bad_shape, path_text, path_under, unknown_name};
use read_parts::entries::{ObjectNames, at_most};
use read_parts::reads::{Reads, read_each};
use type_tree::TypeId;
use ui_machine::{Place, Slot};

const MEMBERS: [&str; 4] = ["source", "property", "flags", "name"];

// Returns the flag that a word names.
fn flag_named(word: &str) -> Option<BindingFlags>
    ensures { option_map (λ p. p.0) result ≡ bind_flag_named word.now }
{
    if word == "bidirectional" {
        Some(BindingFlags::BIDIRECTIONAL)
    } else if word == "sync-create" {
        Some(BindingFlags::SYNC_CREATE)
    } else if word == "invert-boolean" {
        Some(BindingFlags::INVERT_BOOLEAN)
    } else {
        None
    }
}

// Returns the flag that a value names.
fn flag_in(value: &Value) -> Option<BindingFlags>
    ensures { option_map (λ p. p.0) result ≡ bind_flag_if (as_str (view value.now)) }
{
    let word = value.as_str()?;
    flag_named(word)
}

// The reader for the words in a list of flags.
#[derive(Clone, Copy)]
struct FlagWords;

impl Reads<BindingFlags> for FlagWords {
    ghost use Rattle.std.specs.Prelude.{ℕ};
    ghost use Rattle.definition_format.specs.Denoted.Binds.{bind_flag_at};

    ghost State = { ℕ };

    ghost seen = { λ flags. flags.0 };

    ghost Unchanged = { Unit {0} };

    ghost kept = { λ flags. tt };

    ghost known = { λ r. Unit {0} };

    ghost step = { λ r path flags d. bind_flag_at path flags d };

    #[tactic(auto, unfolding(definition_format::specs::Denoted::Binds::bind_flag_at))]
    fn read(&self, part: Part<'_>, flags: &mut BindingFlags) -> Result<(), ReadError> {
        match flag_in(part.value) {
            Some(flag) => {
                flags.0 |= flag.0;
                Ok(())
            }
            None => {
                let path = path_text(part.alloc, part.path)?;
                Err(ReadError::Refused(DefinitionFault::Shape(path)))
            }
        }
    }
}

// Reads the `flags` of a binding. There are none if they are absent.
#[tactic(auto, unfolding(definition_format::specs::Denoted::Binds::bind_flags_at))]
fn flags_of(part: Part<'_>) -> Result<BindingFlags, ReadError>
    ensures { Gives (λ p. p.0) result (bind_flags_at (path_of part.entry.path) (view part.entry.value.now)) }
{
    let items = part.entries("flags")?;
    let path = path_under(part.alloc, part.path, "flags")?;
    let list = Entries {
        alloc: part.alloc,
        path: path.as_str(),
        items,
    };
    let mut flags = BindingFlags(0);
    read_each(&FlagWords, list, &mut flags)?;
    Ok(flags)
}

// Returns the place of the source object, which may come later in the document.
#[tactic(auto, unfolding(definition_format::specs::Denoted::Binds::source_at))]
fn source_of(part: Part<'_>, objects: &ObjectNames<'_>) -> Result<usize, ReadError>
    ensures { Gives (λ n. n) result (source_at (path_of part.entry.path) objects.now (view part.entry.value.now)) }
{
    let id = name_of(
        part,
        "source",
        part.value.get("source").and_then(Value::as_str),
    )?;
    match objects.place(id) {
        Some(place) => Ok(place),
        None => Err(unknown_name(part, "source", id)?),
    }
}

// Returns the name of the source's property, which is that of the target's if `property` is absent.
fn source_name<'a>(part: Part<'a>, same: &'a str) -> Result<&'a str, ReadError>
    ensures { Gives (λ s. s.now) result (source_name_or (under (path_of part.entry.path) (codes "property")) same.now (get (codes "property") (view part.entry.value.now))) }
{
    let Some(value) = part.value.get("property") else {
        return Ok(same);
    };
    match value.as_str() {
        Some(name) => Ok(name),
        None => Err(bad_shape(part.alloc, part.path, "property")?),
    }
}

// Returns the slot of the property with this name in a class.
#[tactic(auto, unfolding(definition_format::specs::Denoted::Binds::slot_called, param_specs::specs::Table::specs_of))]
fn slot_called(
    part: Part<'_>,
    target: &Target<'_>,
    class: TypeId,
    name: &str,
) -> Result<Slot, ReadError>
    ensures { Gives (λ n. n) result (slot_called (under (path_of part.entry.path) (codes "property")) (specs_by target.now.types.now (own_of target.now.specs.now) class) name.now) }
{
    let property = property_named(part, "property", target.types, target.specs, class, name)?;
    Ok(property.slot)
}

// Returns the slot of the property with this name in the class of the object at place `source`, or 0 if this class is not known. That is
// reported at the object itself.
fn source_slot(
    part: Part<'_>,
    target: &Target<'_>,
    source: usize,
    name: &str,
) -> Result<Slot, ReadError>
    ensures { Gives (λ n. n) result (slot_if_class (under (path_of part.entry.path) (codes "property")) (specs_by target.now.types.now (own_of target.now.specs.now)) (class_ahead target.now.types.now target.now.objects.now source) name.now) }
{
    match class_ahead(target.types, target.objects, source) {
        Some(class) => slot_called(part, target, class, name),
        None => Ok(0),
    }
}

// Reads the `name` of a binding, if there is one. No binding so far may have it.
#[tactic(auto, unfolding(definition_format::specs::Denoted::Binds::some_bind_name))]
fn name_in(part: Part<'_>, bindings: &BindList) -> Result<Option<String>, ReadError>
    ensures { Gives (option_map (λ s. string_bytes s)) result (bind_name_or (under (path_of part.entry.path) (codes "name")) bindings.now (get (codes "name") (view part.entry.value.now))) }
{
    let Some(value) = part.value.get("name") else {
        return Ok(None);
    };
    let name = name_of(part, "name", value.as_str())?;
    if bindings.has(name) {
        let path = path_under(part.alloc, part.path, "name")?;
        return Err(ReadError::Refused(DefinitionFault::Duplicate(path)));
    }
    let name = String::from_str(part.alloc, name)?;
    Ok(Some(name))
}

// Reads the binding of a property. `at` is the number of the property's entry, and `bindings` has the bindings so far.
#[tactic(auto, unfolding(definition_format::specs::Denoted::Binds::bind_at))]
pub(crate) fn read_bind(
    part: Part<'_>,
    target: &Target<'_>,
    property: Property<'_>,
    at: usize,
    bindings: &BindList,
) -> Result<Bind, ReadError>
    ensures { Gives bind_view result (bind_at (path_of part.entry.path) (target_of target.now) (record { slot = property.entry.slot; spec = spec_view property.entry.spec.now }) at bindings.now (view part.entry.value.now)) }
{
    let members = part.members()?;
    let source = source_of(part, target.objects)?;
    let called = source_name(part, property.spec.name.as_str())?;
    let source_slot = source_slot(part, target, source, called)?;
    let flags = flags_of(part)?;
    let name = name_in(part, bindings)?;
    part.check_only(members, &MEMBERS)?;
    Ok(Bind {
        name,
        source: Place(at_most(512, source)),
        source_slot,
        target: target.place,
        target_slot: property.slot,
        flags,
        at,
    })
}
