//! Reads the interfaces of a definition.

ghost use Rattle.std.specs.Prelude.{◌≡◌, ◌||◌, length, IfOk};
ghost use Rattle.json_trees.specs.View.{view, items_view};
ghost use Rattle.type_tree.specs.Adding.{required_named};
ghost use Rattle.definition_format.specs.Causes.{unknown_parent};
ghost use Rattle.definition_format.specs.Refusals.{Gives, Leads, IsRefusal, bad_type};
ghost use Rattle.definition_format.specs.Document.{path_of, each, at_entry};
ghost use Rattle.definition_format.specs.Denoted.Types.{is_declared};
ghost use Rattle.definition_format.specs.Denoted.Drafts.{draft_of};
ghost use Rattle.definition_format.specs.Denoted.Interfaces.{required_or, required_at, requires_at, interface_type_at, interface_at};

use crate::implements::{add_type, unknown_entry};
use crate::types::{check_room, check_type_name, is_declared};
use definition_format::{DefinitionFault, ReadError, TypeCause};
use json_trees::Value;
use param_specs::SpecTable;
use read_members::drafts::{Draft, give_members};
use read_parts::document::{Entries, Part, entry_name, path_text, path_under};
use read_parts::entries::TypeNames;
use read_parts::reads::{Reads, read_each};
use signal_core::SignalTable;
use type_tree::{TypeId, TypeTree};

const MEMBERS: [&str; 4] = ["name", "requires", "properties", "signals"];

// The entries of all interfaces and classes, whose names are known before they are read.
#[derive(Clone, Copy)]
pub(crate) struct Sections<'a> {
    pub(crate) interfaces: &'a [Value],
    pub(crate) classes: &'a [Value],
}

impl<'a> Sections<'a> {
    // Returns whether one of the entries has this name.
    fn declare(self, name: &str) -> bool
        ensures { result ≡ (is_declared (items_view self.entry.interfaces.now) name.now || is_declared (items_view self.entry.classes.now) name.now) }
    {
        is_declared(self.interfaces, name) || is_declared(self.classes, name)
    }
}

// The reader for the types that an interface requires.
#[derive(Clone, Copy)]
struct RequiredEntries<'a> {
    sections: Sections<'a>,
    types: &'a TypeTree,
}

impl<'a> RequiredEntries<'a> {
    // Makes the refusal for a type that is declared but not read yet.
    fn later(self, part: Part<'_>) -> Result<ReadError, ReadError>
        ensures { IsRefusal (bad_type (path_of part.entry.path) unknown_parent) result }
    {
        let path = path_text(part.alloc, part.path)?;
        Ok(ReadError::Refused(DefinitionFault::BadType(path, TypeCause::UnknownParent)))
    }

    // Returns the type with this name.
    fn named(self, part: Part<'_>, name: &str) -> Result<TypeId, ReadError>
        ensures { Gives (λ t. t) result (required_or (path_of part.entry.path) (is_declared (items_view self.entry.sections.interfaces.now) name.now || is_declared (items_view self.entry.sections.classes.now) name.now) name.now (required_named self.entry.types.now name.now)) }
    {
        match self.types.find_required(name) {
            Some(required) => Ok(required),
            None => {
                if self.sections.declare(name) {
                    return Err(self.later(part)?);
                }
                Err(unknown_entry(part, name)?)
            }
        }
    }
}

impl<'a> Reads<Vec<TypeId>> for RequiredEntries<'a> {
    ghost use Rattle.std.specs.Prelude.{ℕ, List};
    ghost use Rattle.json_trees.specs.View.{items_view};
    ghost use Rattle.definition_format.specs.Denoted.Interfaces.{required_at};

    ghost State = { List ℕ };

    ghost seen = { λ required. required.items };

    ghost Unchanged = { Unit {0} };

    ghost kept = { λ required. tt };

    ghost known = { λ r. Unit {0} };

    ghost step = { λ r path required d. required_at path (items_view r.sections.interfaces.now) (items_view r.sections.classes.now) r.types.now required d };

    #[tactic(auto, unfolding(definition_format::specs::Denoted::Interfaces::required_at))]
    fn read(&self, part: Part<'_>, required: &mut Vec<TypeId>) -> Result<(), ReadError> {
        let name = entry_name(part)?;
        let found = self.named(part, name)?;
        add_type(required, found)?;
        Ok(())
    }
}

// Reads the types that the interface of an entry requires.
#[tactic(auto, unfolding(definition_format::specs::Denoted::Interfaces::requires_at))]
fn read_requires(
    part: Part<'_>,
    sections: Sections<'_>,
    types: &TypeTree,
) -> Result<Vec<TypeId>, ReadError>
    ensures { Gives (λ v. v.items) result (requires_at (path_of part.entry.path) (items_view sections.entry.interfaces.now) (items_view sections.entry.classes.now) types.now (view part.entry.value.now)) }
{
    let items = part.entries("requires")?;
    let path = path_under(part.alloc, part.path, "requires")?;
    let list = Entries {
        alloc: part.alloc,
        path: path.as_str(),
        items,
    };
    let mut required = Vec::new(part.alloc);
    let reader = RequiredEntries { sections, types };
    read_each(&reader, list, &mut required)?;
    Ok(required)
}

// Adds the interface that an entry declares. The first interface has the number `first`.
#[tactic(auto, unfolding(definition_format::specs::Denoted::Interfaces::interface_type_at))]
fn declare(
    part: Part<'_>,
    first: usize,
    sections: Sections<'_>,
    types: &mut TypeTree,
) -> Result<TypeId, ReadError>
    ensures types { Leads result (interface_type_at (path_of part.entry.path) first (items_view sections.entry.interfaces.now) (items_view sections.entry.classes.now) types.old (view part.entry.value.now)) types.new }
    ensures interface { IfOk result (λ t. t ≡ length types.old) }
{
    check_room(types)?;
    let name = part.text("name")?;
    check_type_name(part, first, types, name)?;
    let required = read_requires(part, sections, types)?;
    let interface = types.append_interface(name, required)?;
    Ok(interface)
}

// Reads the interface of an entry and adds it with its properties and signals.
#[tactic(auto, unfolding(definition_format::specs::Denoted::Drafts::type_at))]
fn read_interface(
    part: Part<'_>,
    first: usize,
    sections: Sections<'_>,
    names: &TypeNames<'_>,
    types: &mut TypeTree,
    specs: &mut SpecTable,
    signals: &mut SignalTable,
) -> Result<(), ReadError>
    ensures draft { Leads result (interface_at (path_of part.entry.path) first (items_view sections.entry.interfaces.now) (items_view sections.entry.classes.now) names.now (draft_of types.old specs.old signals.old.signals) (view part.entry.value.now)) (draft_of types.new specs.new signals.new.signals) }
    ensures handlers { signals.new.handlers ≡ signals.old.handlers }
{
    let members = part.members()?;
    let interface = declare(part, first, sections, types)?;
    give_members(part, types, names, specs, signals, interface)?;
    part.check_only(members, &MEMBERS)?;
    Ok(())
}

// The reader for the entries of the interfaces. `first` is the number of the first one.
#[derive(Clone, Copy)]
struct InterfaceEntries<'a> {
    first: usize,
    sections: Sections<'a>,
    names: &'a TypeNames<'a>,
}

impl<'a> Reads<Draft> for InterfaceEntries<'a> {
    ghost use Rattle.std.specs.Prelude.{List};
    ghost use Rattle.ui_machine.specs.Definition.Signals as machine;
    ghost use Rattle.json_trees.specs.View.{items_view};
    ghost use Rattle.definition_format.specs.Denoted.Interfaces.{interface_at};
    ghost use Rattle.definition_format.specs.Denoted.Drafts as drafts;

    ghost State = { drafts.Draft };

    ghost seen = { λ draft. drafts.draft_of draft.types draft.specs draft.signals.signals };

    ghost Unchanged = { List (List machine.ClassHandler) };

    ghost kept = { λ draft. draft.signals.handlers };

    ghost known = { λ r. Unit {0} };

    ghost step = { λ r path draft d. interface_at path r.first (items_view r.sections.interfaces.now) (items_view r.sections.classes.now) r.names.now draft d };

    fn read(&self, part: Part<'_>, draft: &mut Draft) -> Result<(), ReadError> {
        read_interface(
            part,
            self.first,
            self.sections,
            self.names,
            &mut draft.types,
            &mut draft.specs,
            &mut draft.signals,
        )
    }
}

/// Reads the interfaces of a list and adds them. `classes` are the entries of the classes.
///
/// # Errors
///
/// Returns `Refused` with the first fault in document order, or `OutOfMemory` if memory is refused.
pub fn read_interfaces(
    list: Entries<'_>,
    classes: &[Value],
    names: &TypeNames<'_>,
    draft: &mut Draft,
) -> Result<(), ReadError>
    ensures draft { Leads result (each (at_entry (λ path. interface_at path (length draft.old.types) (items_view list.entry.items.now) (items_view classes.now) names.now) list.entry.path.now) 0 (draft_of draft.old.types draft.old.specs draft.old.signals.signals) (items_view list.entry.items.now)) (draft_of draft.new.types draft.new.specs draft.new.signals.signals) }
    ensures handlers { draft.new.signals.handlers ≡ draft.old.signals.handlers }
{
    let sections = Sections {
        interfaces: list.items,
        classes,
    };
    let reader = InterfaceEntries {
        first: draft.types.len(),
        sections,
        names,
    };
    read_each(&reader, list, draft)
}
