//! Reads the interfaces that a class implements.

ghost use Rattle.std.specs.Prelude.{◌≡◌, [], nat_eq, Some, OnOk};
ghost use Rattle.std.specs.List.{list_any};
ghost use Rattle.json_trees.specs.View.{view, items_view};
ghost use Rattle.serde_json.specs.Find.{as_str};
ghost use Rattle.type_tree.specs.Adding.{interface_named};
ghost use Rattle.signal_core.specs.SignalView.{signal_view};
ghost use Rattle.definition_format.specs.Refusals.{Gives, Leads, IsRefusal, shape, unknown, or_refused};
ghost use Rattle.definition_format.specs.Document.{path_of, each, at_entry};
ghost use Rattle.read_types.specs.HeirTypes.{HasTypes};
ghost use Rattle.read_types.specs.OverrideView.{heir_of, names_of};
ghost use Rattle.read_types.specs.ImplementDrafts.{has_name, is_again_in, brings_again_in, check_brought_in, implemented_once_in, parts_seen};
ghost use Rattle.definition_format.specs.Denoted.Drafts.{draft_of};
ghost use Rattle.definition_format.specs.Denoted.Implements.{type_with, named_at, check_prerequisites, check_overrides, implemented_at, implements_listed, implements_at, interface_at_entry};

use crate::ancestry::heir_types;
use crate::implement_drafts::ImplementDraft;
use crate::overrides::{Heir, read_own};
use crate::own_signals::{OwnSignals, has_own_signal, read_own_signals};
use definition_format::{DefinitionFault, ReadError, TypeCause};
use definitions::types::type_name;
use json_trees::Value;
use param_specs::SpecTable;
use read_parts::document::{Entries, Part, entry_name, path_text, path_under};
use read_parts::entries::TypeNames;
use read_parts::reads::{Reads, read_each};
use signal_core::{Signal, SignalTable};
use std::alloc::AllocError;
use type_tree::{TypeId, TypeTree};

// Returns whether `t` is one of `types`.
pub(crate) fn is_listed(types: &[TypeId], t: TypeId) -> bool
    ensures { result ≡ list_any (nat_eq t) types.now }
{
    types.iter().any(|other| t == *other)
}

// Appends a type unless it is already there.
pub(crate) fn add_type(types: &mut Vec<TypeId>, t: TypeId) -> Result<(), AllocError>
    ensures { OnOk result (types.new.items ≡ type_with types.old.items (Some t)) }
{
    if is_listed(types.as_slice(), t) {
        return Ok(());
    }
    types.push(t)?;
    Ok(())
}

// Makes the refusal `Unknown` at an entry, with a name that nothing has.
pub(crate) fn unknown_entry(part: Part<'_>, name: &str) -> Result<ReadError, ReadError>
    ensures { IsRefusal (unknown (path_of part.entry.path) name.now) result }
{
    let path = path_text(part.alloc, part.path)?;
    let name = String::from_str(part.alloc, name)?;
    Ok(ReadError::Refused(DefinitionFault::Unknown(path, name)))
}

// The reader that looks ahead at the interfaces that entries name.
#[derive(Clone, Copy)]
struct NamedEntries<'a> {
    types: &'a TypeTree,
}

impl<'a> Reads<Vec<TypeId>> for NamedEntries<'a> {
    ghost use Rattle.std.specs.Prelude.{ℕ, List};
    ghost use Rattle.definition_format.specs.Denoted.Implements.{named_at};

    ghost State = { List ℕ };

    ghost seen = { λ named. named.items };

    ghost Unchanged = { Unit {0} };

    ghost kept = { λ named. tt };

    ghost known = { λ r. Unit {0} };

    ghost step = { λ r path named d. named_at path r.types.now named d };

    fn read(&self, part: Part<'_>, named: &mut Vec<TypeId>) -> Result<(), ReadError> {
        if let Some(name) = part.value.as_str() {
            if let Some(interface) = self.types.find_interface(name) {
                add_type(named, interface)?;
            }
        }
        Ok(())
    }
}

// Collects the interfaces that entries name, each once. Entries that name none are passed over.
fn read_named(list: Entries<'_>, types: &TypeTree) -> Result<Vec<TypeId>, ReadError>
    ensures { Gives (λ v. v.items) result (each (at_entry (λ entry. named_at entry types.now) list.entry.path.now) 0 [] (items_view list.entry.items.now)) }
{
    let mut named = Vec::new(list.alloc);
    let reader = NamedEntries { types };
    read_each(&reader, list, &mut named)?;
    Ok(named)
}

// Returns the interface that an entry names.
#[tactic(auto, unfolding(definition_format::specs::Denoted::Implements::interface_at_entry))]
fn interface_of(part: Part<'_>, types: &TypeTree) -> Result<TypeId, ReadError>
    ensures { Gives (λ i. i) result (interface_at_entry (path_of part.entry.path) types.now (view part.entry.value.now)) }
{
    let name = entry_name(part)?;
    match types.find_interface(name) {
        Some(interface) => Ok(interface),
        None => Err(unknown_entry(part, name)?),
    }
}

// Checks that a class is everything that an interface requires.
fn check_prerequisites(part: Part<'_>, heir: &Heir<'_>, interface: TypeId) -> Result<(), ReadError>
    requires { HasTypes heir.now }
    ensures { Gives (λ _. tt) result (check_prerequisites (path_of part.entry.path) (heir_of heir.now) interface) }
{
    match heir.missing_prerequisite(interface) {
        None => Ok(()),
        Some(missing) => {
            let path = path_text(part.alloc, part.path)?;
            let name = String::from_str(part.alloc, type_name(heir.types, missing))?;
            Err(ReadError::Refused(DefinitionFault::BadType(path, TypeCause::Prerequisite(name))))
        }
    }
}

// Checks that a class has the properties of an interface.
fn check_overrides(part: Part<'_>, heir: &Heir<'_>, interface: TypeId) -> Result<(), ReadError>
    ensures { Gives (λ _. tt) result (check_overrides (path_of part.entry.path) (heir_of heir.now) interface) }
{
    let found = heir.override_cause(part.alloc, interface)?;
    match found {
        None => Ok(()),
        Some(cause) => {
            let path = path_text(part.alloc, part.path)?;
            Err(ReadError::Refused(DefinitionFault::BadSpec(path, cause)))
        }
    }
}

// Returns whether a signal of an interface has the name of a signal of the class's parent or of the interfaces so far. A name that the
// class itself declares does not count here.
fn is_again(own: &OwnSignals, implemented: &ImplementDraft<'_>, signal: &Signal) -> bool
    ensures { result ≡ is_again_in (names_of own.now.keys) (λ name. has_name implemented.now.names name) (signal_view signal.now) }
{
    let name = signal.name.as_str();
    !has_own_signal(own, name) && implemented.has(name)
}

// Returns whether `is_again` holds for any of these signals.
fn any_again(own: &OwnSignals, implemented: &ImplementDraft<'_>, signals: &[Signal]) -> bool
    ensures { result ≡ list_any (λ s. is_again_in (names_of own.now.keys) (λ name. has_name implemented.now.names name) (signal_view s)) signals.now }
{
    signals
        .iter()
        .any(|signal| is_again(own, implemented, signal))
}

// Returns whether `is_again` holds for any signal that an interface itself declares.
fn brings_again(heir: &Heir<'_>, implemented: &ImplementDraft<'_>, interface: TypeId) -> bool
    ensures { result ≡ brings_again_in (heir_of heir.now) interface (λ name. has_name implemented.now.names name) }
{
    any_again(heir.own_signals, implemented, heir.signals.own(interface))
}

// Checks that no signal of an interface is there already. An interface that an ancestor implements adds no signals.
fn check_brought(
    part: Part<'_>,
    heir: &Heir<'_>,
    interface: TypeId,
    implemented: &ImplementDraft<'_>,
) -> Result<(), ReadError>
    ensures { Gives (λ _. tt) result (check_brought_in (path_of part.entry.path) (heir_of heir.now) interface (λ name. has_name implemented.now.names name)) }
{
    if heir.types.is_a(heir.parent, interface) {
        return Ok(());
    }
    if brings_again(heir, implemented, interface) {
        let path = path_text(part.alloc, part.path)?;
        return Err(ReadError::Refused(DefinitionFault::Duplicate(path)));
    }
    Ok(())
}

// Adds an interface to those before, unless it is one of them.
#[tactic(auto, unfolding(crate::specs::ImplementDrafts::newly_implemented_in, signal_core::specs::Sources::declared_of))]
fn implement<'a>(
    part: Part<'_>,
    heir: &Heir<'a>,
    interface: TypeId,
    implemented: &mut ImplementDraft<'a>,
) -> Result<(), ReadError>
    requires { HasTypes heir.now }
    ensures { Leads result (implemented_once_in (path_of part.entry.path) (heir_of heir.now) interface (parts_seen implemented.old)) (parts_seen implemented.new) }
{
    if is_listed(implemented.types.as_slice(), interface) {
        return Ok(());
    }
    check_brought(part, heir, interface, implemented)?;
    check_prerequisites(part, heir, interface)?;
    check_overrides(part, heir, interface)?;
    implemented.add(heir.types, heir.signals, interface)?;
    Ok(())
}

impl<'a> Reads<ImplementDraft<'a>> for Heir<'a> {
    ghost use Rattle.read_types.specs.HeirTypes.{HasTypes};
    ghost use Rattle.read_types.specs.OverrideView.{heir_of};
    ghost use Rattle.read_types.specs.ImplementDrafts.{ImplementParts, implement_part_at, parts_seen};

    ghost State = { ImplementParts };

    ghost seen = { λ draft. parts_seen draft };

    ghost Unchanged = { Unit {0} };

    ghost kept = { λ draft. tt };

    ghost known = { λ r. HasTypes r };

    ghost step = { λ r path p d. implement_part_at path (heir_of r) p d };

    #[tactic(auto, unfolding(crate::specs::ImplementDrafts::implement_part_at))]
    fn read(&self, part: Part<'_>, implemented: &mut ImplementDraft<'a>) -> Result<(), ReadError> {
        let interface = interface_of(part, self.types)?;
        implement(part, self, interface, implemented)?;
        Ok(())
    }
}

// Reads the interfaces that a class implements from a list.
fn read_heir(list: Entries<'_>, heir: &Heir<'_>) -> Result<Vec<TypeId>, ReadError>
    requires { HasTypes heir.now }
    ensures { Gives (λ v. v.items) result (each (at_entry (λ entry. implemented_at entry (heir_of heir.now)) list.entry.path.now) 0 [] (items_view list.entry.items.now)) }
{
    let mut implemented = ImplementDraft::new(list.alloc, heir.types, heir.signals, heir.parent)?;
    read_each(heir, list, &mut implemented)?;
    Ok(implemented.types)
}

// Reads the interfaces that a class with this parent implements, from these entries.
#[tactic(auto, unfolding(definition_format::specs::Denoted::Implements::implements_listed, definition_format::specs::Denoted::Implements::heir_at))]
fn read_listed(
    part: Part<'_>,
    types: &TypeTree,
    names: &TypeNames<'_>,
    specs: &SpecTable,
    signals: &SignalTable,
    parent: TypeId,
    items: &[Value],
) -> Result<Vec<TypeId>, ReadError>
    ensures { Gives (λ v. v.items) result (implements_listed (path_of part.entry.path) names.now (draft_of types.now specs.now signals.now.signals) parent (view part.entry.value.now) (items_view items.now)) }
{
    let path = path_under(part.alloc, part.path, "implements")?;
    let list = Entries {
        alloc: part.alloc,
        path: path.as_str(),
        items,
    };
    let named = read_named(list, types)?;
    let interfaces = named.as_slice();
    let ancestry = heir_types(part.alloc, types, parent, interfaces)?;
    let own = read_own(part, types, names, specs, parent)?;
    let own_signals = read_own_signals(part)?;
    let heir = Heir {
        types,
        specs,
        signals,
        parent,
        named: interfaces,
        ancestry: &ancestry,
        own: &own,
        own_signals: &own_signals,
    };
    let implemented = read_heir(list, &heir)?;
    Ok(implemented)
}

// Reads the interfaces that a class with this parent implements.
#[tactic(auto, unfolding(definition_format::specs::Denoted::Implements::implements_at))]
pub(crate) fn read_implements(
    part: Part<'_>,
    types: &TypeTree,
    names: &TypeNames<'_>,
    specs: &SpecTable,
    signals: &SignalTable,
    parent: TypeId,
) -> Result<Vec<TypeId>, ReadError>
    ensures { Gives (λ v. v.items) result (implements_at (path_of part.entry.path) names.now (draft_of types.now specs.now signals.now.signals) parent (view part.entry.value.now)) }
{
    let items = part.entries("implements")?;
    if items.is_empty() {
        return Ok(Vec::new(part.alloc));
    }
    let implemented = read_listed(part, types, names, specs, signals, parent, items)?;
    Ok(implemented)
}
