//! Reads the classes of a definition.

ghost use Rattle.std.specs.Prelude.{◌≡◌, ◌<◌, codes, length, map, IfOk};
ghost use Rattle.json_trees.specs.View.{view, items_view};
ghost use Rattle.serde_json.specs.Find.{get};
ghost use Rattle.definition_format.specs.Causes.{cause_view};
ghost use Rattle.definition_format.specs.Meaning.{plain_shape};
ghost use Rattle.definition_format.specs.Refusals.{Gives, Leads, IsRefusal, bad_type};
ghost use Rattle.definition_format.specs.Document.{under, path_of, each, at_entry};
ghost use Rattle.definition_format.specs.Denoted.Drafts.{answers_of, class_draft_of, draft_of};
ghost use Rattle.definition_format.specs.Denoted.Classes.{parent_called, named_parent, parent_at, parent_ahead, check_depth, flags_at, declared_at, answers_at, class_at};

use crate::class_drafts::ClassDraft;
use crate::class_handlers::give_class_handlers;
use crate::class_shapes::give_shape;
use crate::constructed::give_constructed;
use crate::implements::read_implements;
use crate::types::{check_room, check_type_name, is_declared};
use definition_format::{DefinitionFault, DefinitionLimit, ReadError, TypeCause};
use definitions::shapes::Shapes;
use json_trees::Value;
use param_specs::SpecTable;
use read_members::drafts::give_members;
use read_parts::document::{Entries, Part, bad_shape, path_under, unknown_name};
use read_parts::entries::{ProgramNames, TypeNames};
use read_parts::reads::{Reads, read_each};
use signal_core::SignalTable;
use type_tree::{MOST_DEPTH, TypeFlags, TypeId, TypeTree};
use ui_machine::ProgramId;

const MEMBERS: [&str; 10] = [
    "name",
    "parent",
    "abstract",
    "final",
    "implements",
    "properties",
    "signals",
    "class-handlers",
    "constructed",
    "shape",
];

// Makes the refusal `BadType` at the parent of a class.
fn bad_parent(part: Part<'_>, cause: TypeCause) -> Result<ReadError, ReadError>
    ensures { IsRefusal (bad_type (under (path_of part.entry.path) (codes "parent")) (cause_view cause)) result }
{
    let path = path_under(part.alloc, part.path, "parent")?;
    Ok(ReadError::Refused(DefinitionFault::BadType(path, cause)))
}

// Returns the parent with this name. `list` has the entries of all classes, some of which may not be read yet.
fn parent_called(
    part: Part<'_>,
    list: &[Value],
    types: &TypeTree,
    name: &str,
) -> Result<TypeId, ReadError>
    ensures parent { Gives (λ t. t) result (parent_called (under (path_of part.entry.path) (codes "parent")) (items_view list.now) types.now name.now) }
    ensures within { IfOk result (λ t. t < length types.now) }
{
    match types.find_class(name) {
        Some(parent) => {
            if types.flags(parent).is_final {
                return Err(bad_parent(part, TypeCause::FinalParent)?);
            }
            Ok(parent)
        }
        None => {
            if is_declared(list, name) {
                return Err(bad_parent(part, TypeCause::UnknownParent)?);
            }
            Err(unknown_name(part, "parent", name)?)
        }
    }
}

// Returns the parent that a value names.
#[tactic(auto, unfolding(definition_format::specs::Denoted::Classes::named_parent))]
fn named_parent(
    part: Part<'_>,
    list: &[Value],
    types: &TypeTree,
    value: &Value,
) -> Result<TypeId, ReadError>
    ensures parent { Gives (λ t. t) result (named_parent (under (path_of part.entry.path) (codes "parent")) (items_view list.now) types.now (view value.now)) }
    ensures within { IfOk result (λ t. t < length types.now) }
{
    let Some(name) = value.as_str() else {
        return Err(bad_shape(part.alloc, part.path, "parent")?);
    };
    let parent = parent_called(part, list, types, name)?;
    Ok(parent)
}

// Returns the parent of a class, which is `GObject` if none is named.
fn parent_of(part: Part<'_>, list: &[Value], types: &TypeTree) -> Result<TypeId, ReadError>
    ensures parent { Gives (λ t. t) result (parent_at (path_of part.entry.path) (items_view list.now) types.now (view part.entry.value.now)) }
    ensures within { IfOk result (λ t. t < length types.now) }
{
    match part.value.get("parent") {
        None => parent_called(part, list, types, "GObject"),
        Some(value) => named_parent(part, list, types, value),
    }
}

// Returns the class that an entry names as its parent, or `None` if it is at fault. It refuses nothing, so it may look ahead.
fn parent_ahead(value: &Value, types: &TypeTree) -> Option<TypeId>
    ensures { result ≡ parent_ahead types.now (get (codes "parent") (view value.now)) }
{
    match value.get("parent") {
        None => types.find_class("GObject"),
        Some(parent) => types.find_class(parent.as_str()?),
    }
}

// Checks that a class with this parent is not too deep.
fn check_depth(types: &TypeTree, parent: Option<TypeId>) -> Result<(), ReadError>
    ensures { Gives (λ _. tt) result (check_depth types.now parent) }
{
    match parent {
        Some(parent) if types.depth(parent) >= MOST_DEPTH => {
            Err(ReadError::Refused(DefinitionFault::Limit(DefinitionLimit::Depth)))
        }
        _ => Ok(()),
    }
}

// Reads `abstract` and `final`.
#[tactic(auto, unfolding(definition_format::specs::Denoted::Classes::flags_at))]
fn flags_of(part: Part<'_>) -> Result<TypeFlags, ReadError>
    ensures { Gives (λ flags. flags) result (flags_at (path_of part.entry.path) (view part.entry.value.now)) }
{
    let is_abstract = part.truth("abstract")?;
    let is_final = part.truth("final")?;
    Ok(TypeFlags {
        is_abstract,
        is_final,
    })
}

// Adds the class that an entry declares. `list` has the entries of all classes.
#[tactic(auto, unfolding(definition_format::specs::Denoted::Classes::declared_at))]
fn declare(
    part: Part<'_>,
    first: usize,
    list: &[Value],
    names: &TypeNames<'_>,
    types: &mut TypeTree,
    specs: &SpecTable,
    signals: &SignalTable,
) -> Result<TypeId, ReadError>
    ensures types { Leads result (declared_at (path_of part.entry.path) first (items_view list.now) names.now (draft_of types.old specs.now signals.now.signals) (view part.entry.value.now)) types.new }
    ensures class { IfOk result (λ t. t ≡ length types.old) }
{
    check_room(types)?;
    check_depth(types, parent_ahead(part.value, types))?;
    let name = part.text("name")?;
    check_type_name(part, first, types, name)?;
    let parent = parent_of(part, list, types)?;
    let flags = flags_of(part)?;
    let interfaces = read_implements(part, types, names, specs, signals, parent)?;
    let class = types.append_class(name, parent, flags, interfaces)?;
    Ok(class)
}

// Reads the class handlers, the `constructed` program and the shape that the entry of a class names.
#[tactic(auto, unfolding(definition_format::specs::Denoted::Classes::answers_at))]
fn give_answers(
    part: Part<'_>,
    programs: &ProgramNames<'_>,
    types: &TypeTree,
    shapes: &Shapes,
    signals: &mut SignalTable,
    constructed: &mut Vec<Option<ProgramId>>,
    shaped: &mut Vec<Option<usize>>,
    class: TypeId,
) -> Result<(), ReadError>
    ensures answers { Leads result (answers_at (path_of part.entry.path) programs.now types.now class (answers_of (map plain_shape shapes.now.entries) signals.old.handlers constructed.old.items shaped.old.items) (view part.entry.value.now)) (answers_of (map plain_shape shapes.now.entries) signals.new.handlers constructed.new.items shaped.new.items) }
    ensures signals { signals.new.signals ≡ signals.old.signals }
{
    give_class_handlers(part, programs, signals, class)?;
    give_constructed(part, programs, constructed, class)?;
    give_shape(part, types, shapes, shaped, class)?;
    Ok(())
}

// Reads the class of an entry and adds it with its properties, its signals and what it names.
#[tactic(auto, unfolding(definition_format::specs::Denoted::Drafts::type_at))]
fn read_class(
    part: Part<'_>,
    first: usize,
    list: &[Value],
    names: &TypeNames<'_>,
    programs: &ProgramNames<'_>,
    types: &mut TypeTree,
    specs: &mut SpecTable,
    signals: &mut SignalTable,
    constructed: &mut Vec<Option<ProgramId>>,
    shapes: &Shapes,
    shaped: &mut Vec<Option<usize>>,
) -> Result<(), ReadError>
    ensures { Leads result (class_at (path_of part.entry.path) first (items_view list.now) names.now programs.now (class_draft_of types.old specs.old signals.old constructed.old.items (map plain_shape shapes.now.entries) shaped.old.items) (view part.entry.value.now)) (class_draft_of types.new specs.new signals.new constructed.new.items (map plain_shape shapes.now.entries) shaped.new.items) }
{
    let members = part.members()?;
    let class = declare(part, first, list, names, types, specs, signals)?;
    give_members(part, types, names, specs, signals, class)?;
    give_answers(
        part,
        programs,
        types,
        shapes,
        signals,
        constructed,
        shaped,
        class,
    )?;
    part.check_only(members, &MEMBERS)?;
    Ok(())
}

// The reader for the entries of the classes. `list` has all of them, and `first` is the number of the first class.
#[derive(Clone, Copy)]
struct ClassEntries<'a> {
    first: usize,
    list: &'a [Value],
    names: &'a TypeNames<'a>,
    programs: &'a ProgramNames<'a>,
}

impl<'a> Reads<ClassDraft> for ClassEntries<'a> {
    ghost use Rattle.json_trees.specs.View.{items_view};
    ghost use Rattle.definition_format.specs.Denoted.Classes as denoted;
    ghost use Rattle.definition_format.specs.Denoted.Drafts as drafts;
    ghost use Rattle.definition_format.specs.Meaning.{plain_shape};
    ghost use Rattle.std.specs.Prelude.{map};

    ghost State = { drafts.ClassDraft };

    ghost seen = { λ draft. drafts.class_draft_of draft.types draft.specs draft.signals draft.constructed.items (map plain_shape draft.shapes.entries) draft.shaped.items };

    ghost Unchanged = { Unit {0} };

    ghost kept = { λ draft. tt };

    ghost known = { λ r. Unit {0} };

    ghost step = { λ r path draft d. denoted.class_at path r.first (items_view r.list.now) r.names.now r.programs.now draft d };

    fn read(&self, part: Part<'_>, draft: &mut ClassDraft) -> Result<(), ReadError> {
        read_class(
            part,
            self.first,
            self.list,
            self.names,
            self.programs,
            &mut draft.types,
            &mut draft.specs,
            &mut draft.signals,
            &mut draft.constructed,
            &draft.shapes,
            &mut draft.shaped,
        )
    }
}

/// Reads the classes of a list and adds them.
///
/// # Errors
///
/// Returns `Refused` with the first fault in document order, or `OutOfMemory` if memory is refused.
pub fn read_classes(
    list: Entries<'_>,
    names: &TypeNames<'_>,
    programs: &ProgramNames<'_>,
    draft: &mut ClassDraft,
) -> Result<(), ReadError>
    ensures { Leads result (each (at_entry (λ path. class_at path (length draft.old.types) (items_view list.entry.items.now) names.now programs.now) list.entry.path.now) 0 (class_draft_of draft.old.types draft.old.specs draft.old.signals draft.old.constructed.items (map plain_shape draft.old.shapes.entries) draft.old.shaped.items) (items_view list.entry.items.now)) (class_draft_of draft.new.types draft.new.specs draft.new.signals draft.new.constructed.items (map plain_shape draft.new.shapes.entries) draft.new.shaped.items) }
{
    let reader = ClassEntries {
        first: draft.types.len(),
        list: list.items,
        names,
        programs,
    };
    read_each(&reader, list, draft)
}
