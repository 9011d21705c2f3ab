//! Compares the properties of a class with those of its interfaces. The class's own properties are read ahead for that, each by itself.

ghost use Rattle.std.specs.Prelude.{◌≡◌, [], codes, is_some, map, string_bytes, option_map, option_and_then, IfOk, IfSome, None};
ghost use Rattle.std.specs.List.{find, list_any};
ghost use Rattle.std.specs.Rc.{rc_str_bytes};
ghost use Rattle.json_trees.specs.View.{view, items_view};
ghost use Rattle.serde_json.specs.Find.{get, as_str};
ghost use Rattle.ui_machine.specs.Rules.Ancestry.{parent_of};
ghost use Rattle.param_specs.specs.Table.{own_of, specs_of};
ghost use Rattle.param_specs.specs.View.{spec_view};
ghost use Rattle.definition_format.specs.Causes.{property_cause};
ghost use Rattle.definition_format.specs.Document.{path_of, each, at_entry};
ghost use Rattle.definition_format.specs.Refusals.{Gives};
ghost use Rattle.definition_format.specs.Denoted.Properties.{inherited_of, spec_at};
ghost use Rattle.definition_format.specs.Denoted.Overrides.{if_read, own_name, is_own, own_named, compared, override_by, override_of, is_missing, is_different, override_cause, own_at, own_ahead};
ghost use Rattle.type_tree.specs.Adding.{missing_of};
ghost use Rattle.read_types.specs.Drafted.{drafted};
ghost use Rattle.read_types.specs.HeirTypes.{HasTypes};
ghost use Rattle.read_types.specs.OverrideView.{own_view, override_view};

use crate::ancestry::HeirTypes;
use crate::own_signals::OwnSignals;
use definition_format::{ReadError, SpecCause};
use json_trees::Value;
use param_specs::{Spec, SpecTable, is_same_spec};
use read_members::properties::spec_in;
use read_parts::document::{Entries, Part, listed_ahead, path_under};
use read_parts::entries::TypeNames;
use read_parts::reads::{Reads, read_each};
use signal_core::SignalTable;
use std::alloc::{AllocError, Global};
use std::collections::BTreeMap;
use type_tree::{TypeId, TypeTree, canonical_name, is_property_name};

/// A class's own properties by their canonical names, read ahead. The value is `None` if the entry is at fault.
pub(crate) type OwnAhead = BTreeMap<String, Option<Spec>>;

/// The relation of a class to a property of one of its interfaces.
#[derive(Clone, Copy)]
enum Override {
    Fine,
    Missing,
    Different,
}

// Returns the canonical name of an entry's property or signal, or `None` if it has no valid name.
pub(crate) fn own_name(alloc: Global, entry: &Value) -> Result<Option<String>, AllocError>
    ensures { IfOk result (λ name. option_map string_bytes name ≡ own_name (option_and_then as_str (get (codes "name") (view entry.now)))) }
{
    match entry.get("name").and_then(Value::as_str) {
        Some(name) if is_property_name(name) => {
            let name = canonical_name(alloc, name)?;
            Ok(Some(name))
        }
        _ => Ok(None),
    }
}

// Returns whether there is an own property of this name.
fn has_own(own: &OwnAhead, name: &str) -> bool
    ensures { result ≡ is_some (own_named (map own_view own.now.entries) name.now) }
{
    own.contains_key(name)
}

// The reader that looks ahead at the own properties of a class with this parent.
#[derive(Clone, Copy)]
struct OwnEntries<'a> {
    types: &'a TypeTree,
    names: &'a TypeNames<'a>,
    specs: &'a SpecTable,
    parent: TypeId,
}

// Reads the property of an entry as one more property of the parent, or returns `None` if the entry is at fault.
fn spec_ahead(
    part: Part<'_>,
    types: &TypeTree,
    names: &TypeNames<'_>,
    specs: &SpecTable,
    parent: TypeId,
) -> Result<Option<Spec>, AllocError>
    ensures { IfOk result (λ spec. option_map spec_view spec ≡ if_read (spec_at (path_of part.entry.path) types.now names.now (inherited_of (specs_of types.now specs.now) (parent_of types.now parent)) (specs_of types.now specs.now parent) (view part.entry.value.now))) }
{
    match spec_in(part, types, names, specs, parent) {
        Ok(spec) => Ok(Some(spec)),
        Err(ReadError::OutOfMemory) => Err(AllocError),
        Err(ReadError::Refused(_)) => Ok(None),
    }
}

impl<'a> Reads<OwnAhead> for OwnEntries<'a> {
    ghost use Rattle.std.specs.Prelude.{map};
    ghost use Rattle.param_specs.specs.Table.{own_of};
    ghost use Rattle.definition_format.specs.Denoted.Overrides.{own_named};
    ghost use Rattle.read_types.specs.OverrideView.{own_view};
    ghost use Rattle.read_types.specs.OwnParts.{Owned, owned_at};

    ghost State = { Owned };

    ghost seen = { λ own. own_named (map own_view own.entries) };

    ghost Unchanged = { Unit {0} };

    ghost kept = { λ own. tt };

    ghost known = { λ r. Unit {0} };

    ghost step = { λ r path own d. owned_at path r.types.now r.names.now (own_of r.specs.now) r.parent own d };

    fn read(&self, part: Part<'_>, own: &mut OwnAhead) -> Result<(), ReadError> {
        let Some(name) = own_name(part.alloc, part.value)? else {
            return Ok(());
        };
        if has_own(own, name.as_str()) {
            return Ok(());
        }
        let spec = spec_ahead(part, self.types, self.names, self.specs, self.parent)?;
        own.insert(name, spec)?;
        Ok(())
    }
}

// Reads ahead the own properties of a class with this parent, from a list.
fn read_own_entries(
    list: Entries<'_>,
    types: &TypeTree,
    names: &TypeNames<'_>,
    specs: &SpecTable,
    parent: TypeId,
) -> Result<OwnAhead, ReadError>
    ensures { Gives (λ own. own_named (map own_view own.entries)) result (drafted own_named (each (at_entry (λ entry. own_at entry types.now names.now (own_of specs.now) parent) list.entry.path.now) 0 [] (items_view list.entry.items.now))) }
{
    let mut own = BTreeMap::new(list.alloc);
    let reader = OwnEntries {
        types,
        names,
        specs,
        parent,
    };
    read_each(&reader, list, &mut own)?;
    Ok(own)
}

// Reads ahead the own properties of a class with this parent, from its entry.
pub(crate) fn read_own(
    part: Part<'_>,
    types: &TypeTree,
    names: &TypeNames<'_>,
    specs: &SpecTable,
    parent: TypeId,
) -> Result<OwnAhead, ReadError>
    ensures { Gives (λ own. own_named (map own_view own.entries)) result (drafted own_named (own_ahead (path_of part.entry.path) types.now names.now (own_of specs.now) parent (view part.entry.value.now))) }
{
    let path = path_under(part.alloc, part.path, "properties")?;
    let list = Entries {
        alloc: part.alloc,
        path: path.as_str(),
        items: listed_ahead(part.value, "properties"),
    };
    let own = read_own_entries(list, types, names, specs, parent)?;
    Ok(own)
}

fn is_missing(how: Override) -> bool
    ensures { result ≡ is_missing (override_view how) }
{
    match how {
        Override::Missing => true,
        Override::Fine => false,
        Override::Different => false,
    }
}

fn is_different(how: Override) -> bool
    ensures { result ≡ is_different (override_view how) }
{
    match how {
        Override::Different => true,
        Override::Fine => false,
        Override::Missing => false,
    }
}

// Compares the property that a class has, if any, with the one that an interface wants.
fn compared(spec: Option<&Spec>, wanted: &Spec) -> Override
    ensures { override_view result ≡ compared (option_map (λ s. spec_view s.now) spec.entry) (spec_view wanted.now) }
{
    match spec {
        None => Override::Missing,
        Some(spec) => {
            if is_same_spec(spec, wanted) {
                Override::Fine
            } else {
                Override::Different
            }
        }
    }
}

// The context in which the interfaces of a class are judged: the types before it with their properties and signals, its parent, the
// interfaces that it names, the types that it is, its own properties, and the names of its own signals.
#[derive(Clone, Copy)]
pub(crate) struct Heir<'a> {
    pub(crate) types: &'a TypeTree,
    pub(crate) specs: &'a SpecTable,
    pub(crate) signals: &'a SignalTable,
    pub(crate) parent: TypeId,
    pub(crate) named: &'a [TypeId],
    pub(crate) ancestry: &'a HeirTypes,
    pub(crate) own: &'a OwnAhead,
    pub(crate) own_signals: &'a OwnSignals,
}

// Returns how a class has a property of an interface, with `inherited` the inherited property of this name. An own property goes first, and
// one whose entry is at fault counts as fine.
fn override_by(own: &OwnAhead, inherited: Option<&Spec>, wanted: &Spec) -> Override
    ensures { override_view result ≡ override_by (own_named (map own_view own.now.entries) (rc_str_bytes wanted.now.name)) (option_map (λ s. spec_view s.now) inherited.entry) (spec_view wanted.now) }
{
    match own.get(wanted.name.as_str()) {
        Some(Some(spec)) => compared(Some(spec), wanted),
        Some(None) => Override::Fine,
        None => compared(inherited, wanted),
    }
}

impl<'a> Heir<'a> {
    /// Returns the first type that an interface requires and that the class is not.
    pub(crate) fn missing_prerequisite(&self, interface: TypeId) -> Option<TypeId>
        requires { HasTypes self.now }
        ensures { result ≡ missing_of self.now.types.now self.now.parent self.now.named.now interface }
    {
        self.types
            .interfaces(interface)
            .iter()
            .copied()
            .find(|t| !self.ancestry.contains(t))
    }

    // Returns how the class has a property of an interface.
    fn has(&self, wanted: &Spec) -> Override
        ensures { override_view result ≡ override_of (specs_of self.now.types.now self.now.specs.now self.now.parent) (map own_view self.now.own.now.entries) (spec_view wanted.now) }
    {
        let inherited = self
            .specs
            .named(self.types, self.parent, wanted.name.as_str());
        override_by(self.own, inherited, wanted)
    }

    // Returns the first property of an interface that the class lacks.
    fn first_missing(&self, interface: TypeId) -> Option<&Spec>
        ensures { option_map (λ s. spec_view s.now) result ≡ find (λ w. is_missing (override_of (specs_of self.now.types.now self.now.specs.now self.now.parent) (map own_view self.now.own.now.entries) w)) (own_of self.now.specs.now interface) }
    {
        for slot in 0..self.specs.own_count(interface) {
            let wanted = self.specs.own_spec(interface, slot);
            if is_missing(self.has(wanted)) {
                return Some(wanted);
            }
        }
        None
    }

    // Returns the first property of an interface of which the class has a different version.
    fn first_different(&self, interface: TypeId) -> Option<&Spec>
        ensures { option_map (λ s. spec_view s.now) result ≡ find (λ w. is_different (override_of (specs_of self.now.types.now self.now.specs.now self.now.parent) (map own_view self.now.own.now.entries) w)) (own_of self.now.specs.now interface) }
    {
        for slot in 0..self.specs.own_count(interface) {
            let wanted = self.specs.own_spec(interface, slot);
            if is_different(self.has(wanted)) {
                return Some(wanted);
            }
        }
        None
    }

    // Returns the cause for which the class does not have the properties of an interface, or `None`. A missing property goes before a
    // different one.
    pub(crate) fn override_cause(
        &self,
        alloc: Global,
        interface: TypeId,
    ) -> Result<Option<SpecCause>, AllocError>
        ensures { IfOk result (λ cause. option_map property_cause cause ≡ override_cause (specs_of self.now.types.now self.now.specs.now self.now.parent) (map own_view self.now.own.now.entries) (own_of self.now.specs.now interface)) }
    {
        if let Some(wanted) = self.first_missing(interface) {
            let name = String::from_str(alloc, wanted.name.as_str())?;
            return Ok(Some(SpecCause::OverrideMissing(name)));
        }
        if let Some(wanted) = self.first_different(interface) {
            let name = String::from_str(alloc, wanted.name.as_str())?;
            return Ok(Some(SpecCause::OverrideDiffers(name)));
        }
        Ok(None)
    }
}
