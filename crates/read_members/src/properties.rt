//! Reads the properties of classes and interfaces.

ghost use Rattle.std.specs.Prelude.{◌≡◌, codes, is_some, IfOk};
ghost use Rattle.std.specs.Rc.{rc_str_bytes};
ghost use Rattle.json_trees.specs.View.{view, items_view};
ghost use Rattle.ui_machine.specs.Rules.Ancestry.{parent_of};
ghost use Rattle.g_values.specs.View.{kind_view, value_view, IsKnown};
ghost use Rattle.param_specs.specs.View.{spec_view};
ghost use Rattle.param_specs.specs.Table.{own_of, specs_of, slot_named};
ghost use Rattle.definition_format.specs.Refusals.{Gives, Leads};
ghost use Rattle.definition_format.specs.Document.{under, path_of, each, at_entry};
ghost use Rattle.definition_format.specs.Denoted.Properties.{inherited_of, property_spec, room_for_property, new_name, new_property, valued_at, spec_at, weak_at, installed, property_at};

use crate::defaults::{check_default, check_unranged, default_of};
use crate::property_flags::flags_of;
use crate::ranges::{NumberRange, range_of, whole_range};
use definition_format::{DefinitionFault, DefinitionLimit, ReadError, SpecCause};
use g_values::Kind;
use param_specs::{MOST_PROPERTIES, PropertyFlags, Spec, SpecError, SpecFault, SpecTable};
use read_parts::document::{Entries, Part, bad_shape, path_text, path_under};
use read_parts::entries::TypeNames;
use read_parts::kinds::{is_object, kind_of};
use read_parts::reads::{Reads, read_each};
use std::rc::RcStr;
use type_tree::{TypeId, TypeTree, is_property_name};

const MEMBERS: [&str; 7] = ["name", "kind", "flags", "default", "min", "max", "weak"];

// Returns the spec of a property with this default and range, which is not weak.
fn property_spec(
    name: RcStr,
    kind: Kind,
    flags: PropertyFlags,
    default: g_values::Value,
    range: NumberRange,
) -> Spec
    ensures { spec_view result ≡ property_spec (rc_str_bytes name) (kind_view kind) flags.0 (value_view default) (record { low = range.min; high = range.max }) }
{
    Spec {
        name,
        kind,
        flags,
        default,
        min: range.min,
        max: range.max,
        weak: false,
    }
}

// Returns the spec with another range.
fn with_range(spec: Spec, range: NumberRange) -> Spec
    ensures range { spec_view result ≡ record (spec_view spec) { low = range.min; high = range.max } }
    ensures kind { result.kind ≡ spec.kind }
{
    Spec {
        min: range.min,
        max: range.max,
        ..spec
    }
}

// Checks that a class has room for another property.
fn check_room(types: &TypeTree, specs: &SpecTable, class: TypeId) -> Result<(), ReadError>
    ensures { Gives (λ _. tt) result (room_for_property (specs_of types.now specs.now class)) }
{
    if specs.slots_of(types, class) >= MOST_PROPERTIES {
        return Err(ReadError::Refused(DefinitionFault::Limit(DefinitionLimit::Properties)));
    }
    Ok(())
}

// Returns whether an ancestor of a class has a property of this name.
fn is_inherited(types: &TypeTree, specs: &SpecTable, class: TypeId, name: &str) -> bool
    ensures { result ≡ is_some (slot_named (inherited_of (specs_of types.now specs.now) (parent_of types.now class)) name.now) }
{
    match types.parent(class) {
        Some(parent) => specs.find(types, parent, name).is_some(),
        None => false,
    }
}

// Checks that a class has no property of this name, first among the inherited ones.
fn check_new_name(
    part: Part<'_>,
    types: &TypeTree,
    specs: &SpecTable,
    class: TypeId,
    name: &str,
) -> Result<(), ReadError>
    ensures { Gives (λ _. tt) result (new_name (under (path_of part.entry.path) (codes "name")) (inherited_of (specs_of types.now specs.now) (parent_of types.now class)) (specs_of types.now specs.now class) name.now) }
{
    if is_inherited(types, specs, class, name) {
        let path = path_under(part.alloc, part.path, "name")?;
        return Err(ReadError::Refused(DefinitionFault::Duplicate(path)));
    }
    if specs.find(types, class, name).is_some() {
        let path = path_under(part.alloc, part.path, "name")?;
        return Err(ReadError::Refused(DefinitionFault::BadSpec(
            path,
            SpecCause::Install(SpecFault::Duplicate),
        )));
    }
    Ok(())
}

// Checks that a name may be that of a property, and that its class has no property of this name.
fn check_name(
    part: Part<'_>,
    types: &TypeTree,
    specs: &SpecTable,
    class: TypeId,
    name: &str,
) -> Result<(), ReadError>
    ensures { Gives (λ _. tt) result (new_property (under (path_of part.entry.path) (codes "name")) (inherited_of (specs_of types.now specs.now) (parent_of types.now class)) (specs_of types.now specs.now class) name.now) }
{
    if !is_property_name(name) {
        let path = path_under(part.alloc, part.path, "name")?;
        return Err(ReadError::Refused(DefinitionFault::BadSpec(
            path,
            SpecCause::Install(SpecFault::BadName),
        )));
    }
    check_new_name(part, types, specs, class, name)
}

// Reads the default and the range of a property of this name, kind and flags, and returns its spec.
#[tactic(auto, unfolding(definition_format::specs::Denoted::Properties::valued_at))]
fn valued(
    part: Part<'_>,
    types: &TypeTree,
    name: &str,
    kind: Kind,
    flags: PropertyFlags,
) -> Result<Spec, ReadError>
    requires { IsKnown types.now kind }
    ensures spec { Gives spec_view result (valued_at (path_of part.entry.path) types.now name.now (kind_view kind) flags.0 (view part.entry.value.now)) }
    ensures kind { IfOk result (λ s. s.kind ≡ kind) }
{
    let default = default_of(part, types, kind)?;
    let name = RcStr::from_str(part.alloc, name)?;
    let whole = property_spec(name, kind, flags, default, whole_range(&kind));
    check_unranged(part, types, &whole)?;
    let range = range_of(part, &kind)?;
    let spec = with_range(whole, range);
    check_default(part, types, &spec)?;
    Ok(spec)
}

// Reads `weak`, which may only be given for kinds of objects.
fn weak_of(part: Part<'_>, kind: &Kind) -> Result<bool, ReadError>
    ensures { Gives (λ b. b) result (weak_at (path_of part.entry.path) (kind_view kind.now) (view part.entry.value.now)) }
{
    if part.value.get("weak").is_some() && !is_object(kind) {
        return Err(bad_shape(part.alloc, part.path, "weak")?);
    }
    part.truth("weak")
}

/// Reads the spec of a property that a class does not have yet.
///
/// # Errors
///
/// Returns `Refused` with the first fault in document order, or `OutOfMemory` if memory is refused.
#[tactic(auto, unfolding(definition_format::specs::Denoted::Properties::spec_at))]
pub fn spec_in(
    part: Part<'_>,
    types: &TypeTree,
    names: &TypeNames<'_>,
    specs: &SpecTable,
    class: TypeId,
) -> Result<Spec, ReadError>
    ensures spec { Gives spec_view result (spec_at (path_of part.entry.path) types.now names.now (inherited_of (specs_of types.now specs.now) (parent_of types.now class)) (specs_of types.now specs.now class) (view part.entry.value.now)) }
    ensures known { IfOk result (λ s. IsKnown types.now s.kind) }
{
    let members = part.members()?;
    check_room(types, specs, class)?;
    let name = part.text("name")?;
    check_name(part, types, specs, class, name)?;
    let kind = kind_of(part, types, names)?;
    let flags = flags_of(part)?;
    let spec = valued(part, types, name, kind, flags)?;
    let weak = weak_of(part, &kind)?;
    part.check_only(members, &MEMBERS)?;
    Ok(Spec { weak, ..spec })
}

// Installs a property in a class.
fn install(
    part: Part<'_>,
    types: &TypeTree,
    specs: &mut SpecTable,
    class: TypeId,
    spec: Spec,
) -> Result<(), ReadError>
    requires { IsKnown types.now spec.kind }
    ensures { Leads result (installed (path_of part.entry.path) types.now class (own_of specs.old) (spec_view spec)) (own_of specs.new) }
{
    match specs.install(types, class, spec) {
        Ok(_) => Ok(()),
        Err(SpecError::OutOfMemory) => Err(ReadError::OutOfMemory),
        Err(SpecError::Refused(cause)) => Err(ReadError::Refused(DefinitionFault::BadSpec(
            path_text(part.alloc, part.path)?,
            SpecCause::Install(cause),
        ))),
    }
}

// Reads the property of an entry and installs it in a class.
#[tactic(auto, using(definition_format::proofs::Installing::property_at_is))]
fn read_property(
    part: Part<'_>,
    types: &TypeTree,
    names: &TypeNames<'_>,
    specs: &mut SpecTable,
    class: TypeId,
) -> Result<(), ReadError>
    ensures { Leads result (property_at (path_of part.entry.path) types.now names.now class (own_of specs.old) (view part.entry.value.now)) (own_of specs.new) }
{
    let spec = spec_in(part, types, names, specs, class)?;
    install(part, types, specs, class, spec)?;
    Ok(())
}

// The reader for the entries of a class's properties.
#[derive(Clone, Copy)]
struct PropertyEntries<'a> {
    types: &'a TypeTree,
    names: &'a TypeNames<'a>,
    class: TypeId,
}

impl<'a> Reads<SpecTable> for PropertyEntries<'a> {
    ghost use Rattle.std.specs.Prelude.{ℕ, List};
    ghost use Rattle.ui_machine.specs.Definition.Properties as properties;
    ghost use Rattle.param_specs.specs.Table.{own_of};
    ghost use Rattle.definition_format.specs.Denoted.Properties.{property_at};

    ghost State = { ℕ → List properties.Spec };

    ghost seen = { λ specs. own_of specs };

    ghost Unchanged = { Unit {0} };

    ghost kept = { λ specs. tt };

    ghost known = { λ r. Unit {0} };

    ghost step = { λ r path own d. property_at path r.types.now r.names.now r.class own d };

    fn read(&self, part: Part<'_>, specs: &mut SpecTable) -> Result<(), ReadError> {
        read_property(part, self.types, self.names, specs, self.class)
    }
}

/// Reads the properties of a list and installs them in a class.
///
/// # Errors
///
/// Returns `Refused` with the first fault in document order, or `OutOfMemory` if memory is refused.
pub fn read_properties(
    list: Entries<'_>,
    types: &TypeTree,
    names: &TypeNames<'_>,
    specs: &mut SpecTable,
    class: TypeId,
) -> Result<(), ReadError>
    ensures { Leads result (each (at_entry (λ path. property_at path types.now names.now class) list.entry.path.now) 0 (own_of specs.old) (items_view list.entry.items.now)) (own_of specs.new) }
{
    let reader = PropertyEntries {
        types,
        names,
        class,
    };
    read_each(&reader, list, specs)
}
