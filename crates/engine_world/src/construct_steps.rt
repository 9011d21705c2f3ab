//! The steps of a construction, which follow once an object is made (GObject manual, `g_object_new_with_properties` and
//! `GObjectClass.constructed`).

ghost use Rattle.std.specs.Prelude.{◌≡◌, [], nat_eq, not, ◌&&◌, None, Some, option_copied, option_map, ◌++◌, OnOk, IfOk};
ghost use Rattle.std.specs.List.{find};
ghost use Rattle.ui_machine.specs.Definition.Properties as machine;
ghost use Rattle.ui_machine.specs.Definition.Lookups.{class_of, specs_of, spec_of};
ghost use Rattle.ui_machine.specs.Seq.{read};
ghost use Rattle.ui_machine.specs.Rules.Construction.{is_at_construction, is_forward, no_spec, given_at, set_of, or_default, construct_sets, constructed_runs, given_sets, run_of};
ghost use Rattle.g_values.specs.View.{value_view};
ghost use Rattle.param_specs.specs.View.{spec_view};
ghost use Rattle.definition_format.specs.Meaning.{given_view, given_property};
ghost use Rattle.engine_world.specs.MakingView.{early, construct_set, later_set, early_set, making_of_object};
ghost use Rattle.engine_stack.specs.MakingView.{making_steps};
ghost use Rattle.engine_world.specs.View.{world_of};

use crate::world::World;
use definition_format::{Given, GivenValue};
use definitions::Definition;
use engine_stack::{ConstructStep, ConstructSteps};
use g_values::Value;
use param_specs::Spec;
use std::alloc::AllocError;
use type_tree::TypeId;
use ui_machine::{Place, Slot};

/// The properties that the object at a place is given, with the world in which the builder comes to it.
#[derive(Clone, Copy)]
pub(crate) struct GivenAt<'a> {
    pub(crate) world: &'a World,
    pub(crate) place: Place,
    pub(crate) entries: &'a [GivenValue],
}

// Returns whether what is given at a place is an object that is not built before the place is.
fn is_forward(place: Place, given: &Given) -> bool
    ensures { result ≡ is_forward place.0 (given_view given.now) }
{
    match given {
        Given::Value(_) => false,
        Given::Object(to) => place.0 <= to.0,
    }
}

// Returns the first entry for a slot that is not a forward reference, if there is one.
fn entry_for(place: Place, entries: &[GivenValue], slot: Slot) -> Option<&GivenValue>
    ensures { option_copied result ≡ find (λ g. not (is_forward place.0 (given_view g.given)) && nat_eq g.slot slot) entries.now }
{
    entries.iter().find(|entry| !is_forward(place, &entry.given) && entry.slot == slot)
}

// Returns the value that is given to a slot, if there is one. Forward references are left out.
fn value_given(given: GivenAt<'_>, slot: Slot) -> Result<Option<Value>, AllocError>
    ensures { IfOk result (λ v. option_map value_view v ≡ given_at (world_of given.entry.world.now) (early given.entry.place.0 given.entry.entries.now) slot) }
{
    match entry_for(given.place, given.entries, slot) {
        Some(entry) => given.world.given(&entry.given),
        None => Ok(None),
    }
}

// Returns the value that is given to a slot, or else the default.
fn value_for(given: GivenAt<'_>, spec: &Spec, slot: Slot) -> Result<Value, AllocError>
    ensures { IfOk result (λ v. value_view v ≡ or_default (given_at (world_of given.entry.world.now) (early given.entry.place.0 given.entry.entries.now) slot) (spec_view spec.now).default) }
{
    match value_given(given, slot)? {
        Some(value) => Ok(value),
        None => spec.default.copied(),
    }
}

// Adds the set of a construct property before the steps that are in the list. Does nothing for any other property.
fn add_construct_set(
    steps: &mut Vec<ConstructStep>,
    definition: &Definition,
    class: TypeId,
    given: GivenAt<'_>,
    slot: Slot,
) -> Result<(), AllocError>
    ensures { (s : machine.Spec) → spec_of definition.now class slot ≡ Some s → OnOk result (making_steps steps.new.items
        ≡ construct_set (world_of given.entry.world.now) (early given.entry.place.0 given.entry.entries.now) slot s ++ making_steps steps.old.items) }
{
    let Some(spec) = definition.spec(class, slot) else {
        return Ok(());
    };
    if spec.is_at_construction() {
        let value = value_for(given, spec, slot)?;
        steps.push(ConstructStep::Set { slot, value })?;
    }
    Ok(())
}

// Adds the sets of all construct properties before the steps that are in the list, in the order of their slots.
fn add_construct_sets(
    steps: &mut Vec<ConstructStep>,
    definition: &Definition,
    class: TypeId,
    given: GivenAt<'_>,
) -> Result<(), AllocError>
    ensures { OnOk result (making_steps steps.new.items
        ≡ construct_sets (world_of given.entry.world.now) (early given.entry.place.0 given.entry.entries.now) 0 (specs_of definition.now class) ++ making_steps steps.old.items) }
{
    let mut slot = definition.slots(class);
    'slots: while slot > 0 {
        slot -= 1;
        add_construct_set(steps, definition, class, given, slot as Slot)?;
    }
    Ok(())
}

// Returns whether every construction sets the property of a slot.
fn is_at_construction(definition: &Definition, class: TypeId, slot: Slot) -> bool
    ensures { result ≡ is_at_construction (read no_spec (specs_of definition.now class) slot) }
{
    match definition.spec(class, slot) {
        Some(spec) => spec.is_at_construction(),
        None => false,
    }
}

// Adds the set of a value, if there is one, before the steps that are in the list.
fn add_set(
    steps: &mut Vec<ConstructStep>,
    slot: Slot,
    value: Option<Value>,
) -> Result<(), AllocError>
    ensures { OnOk result (making_steps steps.new.items ≡ set_of (option_map value_view value) slot ++ making_steps steps.old.items) }
{
    let Some(value) = value else {
        return Ok(());
    };
    steps.push(ConstructStep::Set { slot, value })?;
    Ok(())
}

// Adds the set of what a property is given before the steps that are in the list, unless every construction sets the property.
fn add_later_set(
    steps: &mut Vec<ConstructStep>,
    definition: &Definition,
    class: TypeId,
    world: &World,
    entry: &GivenValue,
) -> Result<(), AllocError>
    ensures { OnOk result (making_steps steps.new.items ≡ later_set (world_of world.now) (specs_of definition.now class) (given_property entry.now) ++ making_steps steps.old.items) }
{
    if is_at_construction(definition, class, entry.slot) {
        return Ok(());
    }
    add_set(steps, entry.slot, world.given(&entry.given)?)
}

// Adds a set like `add_later_set`, for an entry that may be a forward reference. A forward reference is left out.
fn add_early_set(
    steps: &mut Vec<ConstructStep>,
    definition: &Definition,
    class: TypeId,
    given: GivenAt<'_>,
    entry: &GivenValue,
) -> Result<(), AllocError>
    ensures { OnOk result (making_steps steps.new.items
        ≡ early_set (world_of given.entry.world.now) (specs_of definition.now class) given.entry.place.0 (given_property entry.now) ++ making_steps steps.old.items) }
{
    if is_forward(given.place, &entry.given) {
        return Ok(());
    }
    add_later_set(steps, definition, class, given.world, entry)
}

// Adds the sets of what is given before the steps that are in the list, in the given order.
fn add_later_sets(
    steps: &mut Vec<ConstructStep>,
    definition: &Definition,
    class: TypeId,
    given: GivenAt<'_>,
) -> Result<(), AllocError>
    ensures { OnOk result (making_steps steps.new.items
        ≡ given_sets (world_of given.entry.world.now) (specs_of definition.now class) (early given.entry.place.0 given.entry.entries.now) ++ making_steps steps.old.items) }
{
    let mut left = given.entries.len();
    'entries: while left > 0 {
        left -= 1;
        add_early_set(steps, definition, class, given, &given.entries[left])?;
    }
    Ok(())
}

// Adds the run of the program that the class itself names, if it names one, before the steps that are in the list.
fn add_run(
    steps: &mut Vec<ConstructStep>,
    definition: &Definition,
    class: TypeId,
) -> Result<(), AllocError>
    ensures { OnOk result (making_steps steps.new.items ≡ run_of (class_of definition.now class).constructed ++ making_steps steps.old.items) }
{
    let Some(program) = definition.constructed(class) else {
        return Ok(());
    };
    steps.push(ConstructStep::Run { program })?;
    Ok(())
}

// Adds the runs of the programs that a class and its ancestors name before the steps that are in the list, the root's first.
fn add_runs(
    steps: &mut Vec<ConstructStep>,
    definition: &Definition,
    class: TypeId,
) -> Result<(), AllocError>
    ensures { OnOk result (making_steps steps.new.items ≡ constructed_runs definition.now class ++ making_steps steps.old.items) }
{
    add_run(steps, definition, class)?;
    let Some(parent) = definition.types().parent(class) else {
        return Ok(());
    };
    add_runs(steps, definition, parent)?;
    Ok(())
}

/// Returns the steps of a construction: the sets of the construct properties by slot, each to the given value or its default, then the
/// programs of the class and its ancestors, the root's first, then the sets of the other given values in the given order, then the thaw.
/// Forward references are left out. The steps are put together from the last one on, in the given list, which has to be empty.
pub(crate) fn construction(
    mut steps: Vec<ConstructStep>,
    definition: &Definition,
    class: TypeId,
    given: GivenAt<'_>,
) -> Result<ConstructSteps, AllocError>
    requires { steps.items ≡ [] }
    ensures { IfOk result (λ steps. steps
        ≡ making_of_object definition.now (world_of given.entry.world.now) class (early given.entry.place.0 given.entry.entries.now)) }
{
    steps.push(ConstructStep::Thaw)?;
    add_later_sets(&mut steps, definition, class, given)?;
    add_runs(&mut steps, definition, class)?;
    add_construct_sets(&mut steps, definition, class, given)?;
    Ok(ConstructSteps::new(steps))
}
