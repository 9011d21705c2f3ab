//! Reads definitions from their bytes.

ghost use Rattle.std.specs.Prelude.{◌≡◌, ◌≤◌, [], None, length, map, IfOk};
ghost use Rattle.std.specs.List.{AllByRecursion};
ghost use Rattle.json_trees.specs.View.{view};
ghost use Rattle.ui_machine.specs.Definition.Types.{predeclared};
ghost use Rattle.definition_format.specs.Meaning.{ArePlain, HasOwnName, IsSound, IsSoundProgram, meaning, plain_program, plain_prototype, plain_shape};
ghost use Rattle.definitions.specs.PartsView.{parts_of};
ghost use Rattle.definition_format.specs.Refusals.{Gives, Leads};
ghost use Rattle.definition_format.specs.Document.{path_of, is_among};
ghost use Rattle.ui_machine.specs.Seq.{read};
ghost use Rattle.definition_format.specs.Denoted.Peers.{peers_of};
ghost use Rattle.definition_format.specs.Denoted.Shapes.{is_shaped_by, shapes_in};
ghost use Rattle.read_objects.specs.PeerViews.{is_named_in};
ghost use Rattle.param_specs.specs.Table.{own_of};
ghost use Rattle.definition_format.specs.Denoted.Properties.{specs_by};
ghost use Rattle.definition_format.specs.Denoted.Drafts.{class_draft_of, draft_of};
ghost use Rattle.definition_format.specs.Denoted.Objects.{built_view};
ghost use Rattle.definition_format.specs.Denoted.Programs.{programs_in};
ghost use Rattle.definition_format.specs.Denoted.Prototypes.{prototypes_in};
ghost use Rattle.definition_format.specs.Denoted.{format_number, format_of, enums_in, flags_in, interfaces_in, classes_in, draft_in, objects_in, definition_in, denoted};

use crate::limits::limits_of;
use definition_format::{DefinitionFault, Path, ReadError};
use definitions::programs::Programs;
use definitions::shapes::Shapes;
use definitions::{Definition, Parts};
use handler_code::{Format, Names};
use json_trees::Value;
use param_specs::SpecTable;
use read_objects::{
    Classes, ReadObjects, ReadPrototypes, read_objects, read_places, read_programs, read_prototypes,
};
use read_parts::document::{Entries, Part, listed_ahead, parsed};
use read_parts::entries::{ProgramNames, TypeNames};
use read_types::{
    ClassDraft, Draft, read_classes, read_enums, read_flags_types, read_interfaces, read_shapes,
};
use signal_core::SignalTable;
use std::alloc::Global;
use type_tree::TypeTree;

const MEMBERS: [&str; 10] = [
    "format",
    "limits",
    "enums",
    "flags",
    "interfaces",
    "shapes",
    "classes",
    "programs",
    "prototypes",
    "objects",
];

// Returns the format for the number in `format`, which must be 1 or 2.
fn format_of(alloc: Global, format: Option<u64>) -> Result<Format, ReadError>
    ensures { Gives (λ f. f) result (format_of format) }
{
    match format {
        Some(1) => Ok(Format::First),
        Some(2) => Ok(Format::Second),
        _ => Err(ReadError::Refused(DefinitionFault::Shape(String::from_str(alloc, "/format")?))),
    }
}

// Returns the number in the member `format`.
fn format_in(value: &Value) -> Option<u64>
    ensures { result ≡ format_number (view value.now) }
{
    value.get("format").and_then(Value::as_u64)
}

// Reads the enums of a definition and adds them to the types that always exist.
#[tactic(auto, unfolding(definition_format::specs::Denoted::enums_in))]
fn enums_of(part: Part<'_>, types: &mut TypeTree) -> Result<(), ReadError>
    requires root { path_of part.path ≡ [] }
    requires first { types.old ≡ predeclared }
    ensures { Leads result (enums_in (view part.entry.value.now)) types.new }
{
    let items = part.entries("enums")?;
    let list = Entries {
        alloc: part.alloc,
        path: "/enums",
        items,
    };
    read_enums(list, types)?;
    Ok(())
}

// Reads the flags types of a definition and adds them.
#[tactic(auto, unfolding(definition_format::specs::Denoted::flags_in))]
fn flags_of(part: Part<'_>, types: &mut TypeTree) -> Result<(), ReadError>
    requires { path_of part.path ≡ [] }
    ensures { Leads result (flags_in types.old (view part.entry.value.now)) types.new }
{
    let items = part.entries("flags")?;
    let list = Entries {
        alloc: part.alloc,
        path: "/flags",
        items,
    };
    read_flags_types(list, types)?;
    Ok(())
}

// Reads the interfaces of a definition and adds them.
#[tactic(auto, unfolding(definition_format::specs::Denoted::interfaces_in))]
fn interfaces_of(part: Part<'_>, names: &TypeNames<'_>, draft: &mut Draft) -> Result<(), ReadError>
    requires root { path_of part.path ≡ [] }
    requires bare { draft.old.specs ≡ [] }
    requires undeclared { draft.old.signals.signals ≡ [] }
    ensures draft { Leads result (interfaces_in names.now draft.old.types (view part.entry.value.now)) (draft_of draft.new.types draft.new.specs draft.new.signals.signals) }
    ensures handlers { draft.new.signals.handlers ≡ draft.old.signals.handlers }
{
    let items = part.entries("interfaces")?;
    let list = Entries {
        alloc: part.alloc,
        path: "/interfaces",
        items,
    };
    read_interfaces(list, listed_ahead(part.value, "classes"), names, draft)?;
    Ok(())
}

// Reads the shapes of a definition.
#[tactic(auto, unfolding(definition_format::specs::Denoted::Shapes::shapes_in))]
fn shapes_of(part: Part<'_>) -> Result<Shapes, ReadError>
    requires { path_of part.path ≡ [] }
    ensures { Gives (λ v. map plain_shape v.entries) result (shapes_in (view part.entry.value.now)) }
{
    let items = part.entries("shapes")?;
    let list = Entries {
        alloc: part.alloc,
        path: "/shapes",
        items,
    };
    let shapes = read_shapes(list)?;
    Ok(shapes)
}

// Reads the classes of a definition and adds them.
#[tactic(auto, unfolding(definition_format::specs::Denoted::classes_in))]
fn classes_of(
    part: Part<'_>,
    names: &TypeNames<'_>,
    programs: &ProgramNames<'_>,
    draft: &mut ClassDraft,
) -> Result<(), ReadError>
    requires { path_of part.path ≡ [] }
    ensures { Leads result (classes_in names.now programs.now (class_draft_of draft.old.types draft.old.specs draft.old.signals draft.old.constructed.items (map plain_shape draft.old.shapes.entries) draft.old.shaped.items) (view part.entry.value.now)) (class_draft_of draft.new.types draft.new.specs draft.new.signals draft.new.constructed.items (map plain_shape draft.new.shapes.entries) draft.new.shaped.items) }
{
    let items = part.entries("classes")?;
    let list = Entries {
        alloc: part.alloc,
        path: "/classes",
        items,
    };
    read_classes(list, names, programs, draft)?;
    Ok(())
}

// Reads the types of a definition with all their members.
#[tactic(auto, unfolding(definition_format::specs::Denoted::draft_in))]
fn read_draft(part: Part<'_>) -> Result<ClassDraft, ReadError>
    requires { path_of part.path ≡ [] }
    ensures { Gives (λ draft. class_draft_of draft.types draft.specs draft.signals draft.constructed.items (map plain_shape draft.shapes.entries) draft.shaped.items) result (draft_in (view part.entry.value.now)) }
{
    let mut types = TypeTree::new(part.alloc)?;
    enums_of(part, &mut types)?;
    flags_of(part, &mut types)?;
    let names = TypeNames::new(part.alloc, part.value, types.len())?;
    let programs = ProgramNames::new(part.alloc, part.value)?;
    let specs = SpecTable::new(part.alloc);
    let signals = SignalTable::new(part.alloc);
    let mut draft = Draft {
        types,
        specs,
        signals,
    };
    interfaces_of(part, &names, &mut draft)?;
    let shapes = shapes_of(part)?;
    let mut draft = ClassDraft {
        types: draft.types,
        specs: draft.specs,
        signals: draft.signals,
        constructed: Vec::new(part.alloc),
        shapes,
        shaped: Vec::new(part.alloc),
    };
    classes_of(part, &names, &programs, &mut draft)?;
    Ok(draft)
}

// Reads the programs of a definition of this format and with these types.
#[tactic(auto, unfolding(definition_format::specs::Denoted::Programs::programs_in))]
fn programs_of(part: Part<'_>, format: Format, types: &TypeTree) -> Result<Programs, ReadError>
    requires { path_of part.path ≡ [] }
    ensures read { Gives (λ programs. map plain_program programs.entries) result (programs_in format types.now (view part.entry.value.now)) }
    ensures named { IfOk result (λ programs. AllByRecursion HasOwnName programs.entries) }
    ensures sound { IfOk result (λ programs. AllByRecursion (IsSoundProgram types.now) programs.entries) }
    ensures few { IfOk result (λ programs. length programs.entries ≤ 256) }
{
    let items = part.entries("programs")?;
    let list = Entries {
        alloc: part.alloc,
        path: "/programs",
        items,
    };
    let places = read_places(part.alloc, part.value)?;
    let names = Names {
        format,
        types,
        places: &places,
    };
    let programs = read_programs(list, &names)?;
    Ok(programs)
}

// Reads the prototypes of a definition.
#[tactic(auto, unfolding(definition_format::specs::Denoted::Prototypes::prototypes_in))]
fn prototypes_of(part: Part<'_>, classes: Classes<'_>) -> Result<ReadPrototypes, ReadError>
    requires root { path_of part.path ≡ [] }
    requires plain { ArePlain classes.types.now classes.specs.now }
    ensures prototypes { Gives (λ r. map plain_prototype r.prototypes.entries) result (prototypes_in classes.entry.types.now (specs_by classes.entry.types.now (own_of classes.entry.specs.now)) (is_shaped_by classes.entry.types.now (read None classes.entry.shaped.now)) (view part.entry.value.now)) }
    ensures named { IfOk result (λ r. is_named_in r.named ≡ is_among (peers_of (map plain_prototype r.prototypes.entries))) }
{
    let items = part.entries("prototypes")?;
    let list = Entries {
        alloc: part.alloc,
        path: "/prototypes",
        items,
    };
    let prototypes = read_prototypes(list, classes)?;
    Ok(prototypes)
}

// Reads the objects of a definition that has these prototypes, and the bindings between the objects. `most` objects may live at a time.
#[tactic(auto, unfolding(definition_format::specs::Denoted::objects_in))]
fn objects_of<'a>(
    part: Part<'a>,
    classes: Classes<'a>,
    programs: &'a Programs,
    prototypes: &'a ReadPrototypes,
    most: usize,
) -> Result<ReadObjects, ReadError>
    requires root { path_of part.path ≡ [] }
    requires plain { ArePlain classes.types.now classes.specs.now }
    requires named { AllByRecursion HasOwnName programs.now.entries }
    requires few { length programs.now.entries ≤ 256 }
    requires few_prototypes { length prototypes.now.prototypes.entries ≤ 512 }
    requires peers { is_named_in prototypes.now.named ≡ is_among (peers_of (map plain_prototype prototypes.now.prototypes.entries)) }
    ensures { Gives (λ v. built_view v.objects.entries v.bindings.items) result (objects_in classes.entry.types.now (specs_by classes.entry.types.now (own_of classes.entry.specs.now)) (is_shaped_by classes.entry.types.now (read None classes.entry.shaped.now)) (map plain_program programs.now.entries) (map plain_prototype prototypes.now.prototypes.entries) most (view part.entry.value.now)) }
{
    let items = part.entries("objects")?;
    let list = Entries {
        alloc: part.alloc,
        path: "/objects",
        items,
    };
    let objects = read_objects(list, classes, programs, prototypes, most)?;
    Ok(objects)
}

// Reads the parts of a definition from a JSON value.
#[tactic(auto, unfolding(definition_format::specs::Denoted::definition_in))]
fn parts_in(alloc: Global, value: &Value) -> Result<Parts, ReadError>
    ensures read { Gives (λ p. meaning (parts_of p)) result (definition_in (view value.now)) }
    ensures sound { IfOk result (λ p. IsSound (parts_of p)) }
{
    let part = Part {
        alloc,
        path: Path {
            base: "",
            index: None,
        },
        value,
    };
    let members = part.members()?;
    let format = format_of(alloc, format_in(value))?;
    let limits = limits_of(part)?;
    let draft = read_draft(part)?;
    let programs = programs_of(part, format, &draft.types)?;
    let classes = Classes {
        types: &draft.types,
        specs: &draft.specs,
        shaped: &draft.shaped,
    };
    let prototypes = prototypes_of(part, classes)?;
    let most = limits.objects as usize;
    let built = objects_of(part, classes, &programs, &prototypes, most)?;
    part.check_only(members, &MEMBERS)?;
    Ok(Parts {
        types: draft.types,
        specs: draft.specs,
        signals: draft.signals,
        constructed: draft.constructed,
        shapes: draft.shapes,
        shaped: draft.shaped,
        programs,
        prototypes: prototypes.prototypes,
        objects: built.objects,
        bindings: built.bindings,
        limits,
    })
}

/// Reads a definition from its bytes.
///
/// # Errors
///
/// Returns `Refused` with the first fault in document order, or `OutOfMemory` if memory is refused.
#[tactic(auto, unfolding(definition_format::specs::Denoted::denoted))]
pub fn read_definition(alloc: Global, bytes: &[u8]) -> Result<Definition, ReadError>
    ensures exact { Gives (λ d. d) result (denoted bytes.now) }
{
    let value = parsed(alloc, bytes)?;
    let parts = parts_in(alloc, &value)?;
    Ok(Definition::new(alloc, parts)?)
}
