//! The build, which makes the objects one after the other, and the steps and the end of their construction.

ghost use Rattle.std.specs.Prelude.{◌≡◌, ◌<◌, ◌≤◌, ◌+◌, List, true, ℕ, Some, [], ◌∷◌, IfSome, length, IsSome};
ghost use Rattle.ui_machine.specs.Definition.Values as machine_values;
ghost use Rattle.ui_machine.specs.Rules.Programs.{program_before};
ghost use Rattle.ui_machine.specs.Definition as definition;
ghost use Rattle.engine_stack.specs.KnownHandlers.{TakesKnownHandlers};
ghost use Rattle.ui_machine.specs.Rules.Construction.{constructed, thawing_made, making, apply_construct_property, constructing};
ghost use Rattle.ui_machine.specs.State.Handlers.{Handler};
ghost use Rattle.ui_machine.specs.State.References.{same};
ghost use Rattle.ui_machine.specs.State.Tasks.{Building};
ghost use Rattle.ui_machine.specs.Steps.{uncounted};
ghost use Rattle.ui_machine.specs.Rules.Build.{building, is_connecting};
ghost use Rattle.ui_machine.specs.Rules.Connections.{greatest_handler};
ghost use Rattle.ui_machine.specs.Seq.{total};
ghost use Rattle.ui_machine.specs.State.Objects.{living, most_identities};
ghost use Rattle.g_values.specs.View.{value_view};
ghost use Rattle.definition_format.specs.Meaning.{object_count};
ghost use Rattle.engine_world.specs.Able.{Able, LeadsToLiving};
ghost use Rattle.engine_world.specs.Room.{HasRoom};
ghost use Rattle.engine_world.specs.View.{world_of};
ghost use Rattle.engine_stack.specs.TaskFrames.{IsFrameless};
ghost use Rattle.engine_stack.specs.TaskView.{task_of, build_from, build_behind, connects_from};
ghost use Rattle.engine_world.specs.Counting.{Connects, Counts, IsCounted, nothing};
ghost use Rattle.engine_world.specs.FirstConstructions.{IsConstruction, first_constructed};
ghost use Rattle.engine_stack.specs.FirstConstructions.{constructing_task};
ghost use Rattle.engine_world.specs.FirstPrograms.{rest_of};
ghost use Rattle.engine_world.specs.Executions.{Acts, Executes, uncounted_step};

use crate::forward_references::set_forward_reference;
use crate::programs::begin_program;
use definitions::Definition;
use engine_stack::{ConstructStep, ConstructionFrame, ForwardReferences, Slots, Task};
use engine_world::builder::{BuilderEntry, set_builder_entry};
use engine_world::engine::Engine;
use engine_world::given::object_value;
use engine_world::object_peers::own_peer;
use engine_world::objects::{begin_construction, make};
use engine_world::places::{entry_at, is_object, next_place};
use engine_world::references::{hold_any, let_go_any, never_full, push_task};
use g_values::Value;
use std::alloc::AllocError;
use ui_machine::{ObjectId, Place, ProgramId, Slot};

// Makes the builder hold an object that it has made. The object floats no longer.
#[tactic(auto, unfolding(ui_machine::specs::Rules::Construction::constructed))]
fn hold_made(
    engine: &mut Engine,
    definition: &Definition,
    object: ObjectId,
) -> Result<(), AllocError>
    requires able { Able (uncounted_step definition.now engine.now (λ w. constructed w object.0 true)) }
    requires counted { IsCounted definition.now engine.now }
    ensures { Acts result definition.now engine.old engine.new
        (uncounted_step definition.now engine.old (λ w. constructed w object.0 true)) }
{
    // For the proof: what lives may be held once more.
    never_full(engine);
    let place = engine.world.table.place_of(object);
    set_builder_entry(
        &mut engine.world.builder,
        place,
        BuilderEntry::Built(object),
    )?;
    hold_any(&mut engine.world.table, Some(object));
    engine.world.table.sink(object);
    Ok(())
}

// Makes the builder hold an object that it has made, if `held`.
#[tactic(auto, unfolding(ui_machine::specs::Rules::Construction::constructed))]
fn hold_made_if(
    engine: &mut Engine,
    definition: &Definition,
    object: ObjectId,
    held: bool,
) -> Result<(), AllocError>
    requires able { Able (uncounted_step definition.now engine.now (λ w. constructed w object.0 held)) }
    requires counted { IsCounted definition.now engine.now }
    ensures { Acts result definition.now engine.old engine.new
        (uncounted_step definition.now engine.old (λ w. constructed w object.0 held)) }
{
    if held {
        return hold_made(engine, definition, object);
    }
    Ok(())
}

// Ends a construction that was taken off. If `held`, the builder holds the object from then on. The construction lets its object go, and its
// list is given back.
fn end_construction(
    engine: &mut Engine,
    definition: &Definition,
    rest: ConstructionFrame,
) -> Result<(), AllocError>
    requires able { Able (uncounted_step definition.now engine.now (λ w. constructed w rest.object.0 rest.held)) }
    requires counted { Counts definition.now (λ o. same o rest.object.0) engine.now }
    ensures { Executes result definition.now engine.old engine.new
        (uncounted_step definition.now engine.old (λ w. constructed w rest.object.0 rest.held)) }
{
    let ConstructionFrame {
        object,
        steps,
        held,
    } = rest;
    hold_made_if(engine, definition, object, held)?;
    let_go_any(&mut engine.world.table, Some(object));
    engine.spare_steps.give_back(steps.steps);
    Ok(())
}

// Takes the construction off that is the first task, and ends it.
fn end_first(engine: &mut Engine, definition: &Definition) -> Result<(), AllocError>
    requires first { IsConstruction engine.now }
    requires able { Able (uncounted (rest_of definition.now engine.now) engine.now.counted
        (constructed (world_of engine.now.world) (first_constructed engine.now).object (first_constructed engine.now).held)) }
    requires counted { Counts definition.now nothing engine.now }
    ensures { Executes result definition.now engine.old engine.new
        (uncounted (rest_of definition.now engine.old) engine.old.counted (constructed (world_of engine.old.world) (first_constructed engine.old).object (first_constructed engine.old).held)) }
{
    let Some(task) = engine.stack.pop_task() else {
        unreachable!()
    };
    let Task::Constructing(rest) = task else {
        unreachable!()
    };
    end_construction(engine, definition, rest)
}

// Returns the object of the construction that is the first task.
fn first_object(engine: &Engine) -> ObjectId
    requires first { IsConstruction engine.now }
    ensures { result.0 ≡ (first_constructed engine.now).object }
{
    let Some(construction) = engine.stack.first_construction() else {
        unreachable!()
    };
    construction.object
}

// Thaws the object of the construction that is the first task, at its end. The notifications that waited come before the rest of the
// construction.
#[tactic(auto, unfolding(ui_machine::specs::Rules::Construction::thawing_made))]
fn thaw_constructed(engine: &mut Engine, definition: &Definition)
    requires first { IsConstruction engine.now }
    requires able { Able (uncounted (rest_of definition.now engine.now) engine.now.counted
        (thawing_made (world_of engine.now.world) (first_constructed engine.now).object (first_constructed engine.now).steps (first_constructed engine.now).held)) }
    requires counted { Counts definition.now nothing engine.now }
    requires room { HasRoom 1 engine.now }
    ensures { Executes (Ok result) definition.now engine.old engine.new
        (uncounted (rest_of definition.now engine.old) engine.old.counted (thawing_made (world_of engine.old.world) (first_constructed engine.old).object (first_constructed engine.old).steps (first_constructed engine.old).held)) }
{
    let object = first_object(engine);
    let slots = engine.world.table.thaw(object);
    push_task(
        engine,
        Task::Thawing {
            object,
            slots: Slots::new(slots),
        },
    );
}

// Sets a property as a step of the construction that is the first task, before the rest of the construction.
#[tactic(auto, unfolding(ui_machine::specs::Rules::Construction::apply_construct_property))]
fn apply_construct_property(engine: &mut Engine, definition: &Definition, slot: Slot, value: Value)
    requires first { IsConstruction engine.now }
    requires able { Able (uncounted (rest_of definition.now engine.now) engine.now.counted
        (apply_construct_property definition.now (world_of engine.now.world) (first_constructed engine.now).object slot (value_view value) (constructing_task (first_constructed engine.now) ∷ []))) }
    requires live { IsSome (living engine.now.world.table.objects (first_constructed engine.now).object) }
    requires counted { Counts definition.now nothing engine.now }
    requires room { HasRoom 1 engine.now }
    ensures { Executes (Ok result) definition.now engine.old engine.new
        (uncounted (rest_of definition.now engine.old) engine.old.counted (apply_construct_property definition.now (world_of engine.old.world) (first_constructed engine.old).object slot (value_view value) (constructing_task (first_constructed engine.old) ∷ []))) }
{
    let object = first_object(engine);
    push_task(
        engine,
        Task::Setting {
            object,
            slot,
            value,
        },
    );
}

// Begins a program as a step of the construction that is the first task. The program is given the object alone.
fn run_constructed(
    engine: &mut Engine,
    definition: &Definition,
    program: ProgramId,
) -> Result<(), AllocError>
    requires first { IsConstruction engine.now }
    requires able { Able (uncounted (rest_of definition.now engine.now) engine.now.counted
        (program_before definition.now (world_of engine.now.world) program (machine_values.object (Some (first_constructed engine.now).object) ∷ []) (constructing_task (first_constructed engine.now) ∷ []))) }
    requires live { IsSome (living engine.now.world.table.objects (first_constructed engine.now).object) }
    requires counted { Counts definition.now nothing engine.now }
    requires room { HasRoom 1 engine.now }
    ensures { Executes result definition.now engine.old engine.new
        (uncounted (rest_of definition.now engine.old) engine.old.counted (program_before definition.now (world_of engine.old.world) program (machine_values.object (Some (first_constructed engine.old).object) ∷ []) (constructing_task (first_constructed engine.old) ∷ []))) }
{
    let object = first_object(engine);
    let mut registers = engine.spare_registers.take(engine.alloc);
    registers.push(Some(object_value(object)))?;
    begin_program(engine, definition, program, registers)
}

/// Takes the next step of the construction that is the first task, or ends the construction if no step is left. The construction stays in
/// its place until it ends.
///
/// # Errors
///
/// `AllocError` if memory is refused.
pub fn construct(engine: &mut Engine, definition: &Definition) -> Result<(), AllocError>
    requires first { IsConstruction engine.now }
    requires able { Able (uncounted (rest_of definition.now engine.now) engine.now.counted
        (constructing definition.now (world_of engine.now.world) (first_constructed engine.now).object (first_constructed engine.now).steps (first_constructed engine.now).held)) }
    requires counted { Counts definition.now nothing engine.now }
    requires room { HasRoom 1 engine.now }
    ensures { Executes result definition.now engine.old engine.new
        (uncounted (rest_of definition.now engine.old) engine.old.counted (constructing definition.now (world_of engine.old.world) (first_constructed engine.old).object (first_constructed engine.old).steps (first_constructed engine.old).held)) }
{
    // For the proof: what a task holds lives.
    never_full(engine);
    let Some(step) = engine.stack.next_construct_step() else {
        return end_first(engine, definition);
    };
    match step {
        ConstructStep::Set { slot, value } => {
            apply_construct_property(engine, definition, slot, value);
            Ok(())
        }
        ConstructStep::Run { program } => run_constructed(engine, definition, program),
        ConstructStep::Thaw => {
            thaw_constructed(engine, definition);
            Ok(())
        }
    }
}

// Makes an object of the build, which gets this peer. The builder holds it at the end of its construction.
fn make_from_build(
    engine: &mut Engine,
    definition: &Definition,
    place: Place,
    peer: Option<usize>,
) -> Result<(), AllocError>
    requires able { Able (uncounted_step definition.now engine.now (λ w. making definition.now w place.0 peer true)) }
    requires counted { IsCounted definition.now engine.now }
    requires peer { IfSome peer (λ number. number < length engine.now.world.seats) }
    requires identity { length (world_of engine.now.world).objects < most_identities }
    requires room { HasRoom 1 engine.now }
    ensures { Acts result definition.now engine.old engine.new
        (uncounted_step definition.now engine.old (λ w. making definition.now w place.0 peer true)) }
{
    let new = make(engine, definition, place, peer)?;
    begin_construction(engine, new, true)?;
    Ok(())
}

/// Makes the next object of the build, with the peer that it has for its own, or sets the next forward reference if all objects are made.
///
/// # Errors
///
/// `AllocError` if memory is refused.
#[tactic(auto, unfolding(ui_machine::specs::Rules::Build::building_object))]
pub fn build(
    engine: &mut Engine,
    definition: &Definition,
    place: Place,
    forwards: ForwardReferences,
) -> Result<(), AllocError>
    requires able { Able (uncounted_step definition.now engine.now (λ w. building definition.now w (build_from definition.now place.0 forwards))) }
    requires names { LeadsToLiving (uncounted_step definition.now engine.now (λ w. building definition.now w (build_from definition.now place.0 forwards))) }
    requires counted { IsCounted definition.now engine.now }
    requires connects { Connects definition.now engine.now }
    requires identity { place.0 < object_count definition.now → length (world_of engine.now.world).objects < most_identities }
    requires numbers { (world_of engine.now.world).last_handler + total is_connecting (connects_from definition.now 0 0) ≤ greatest_handler }
    requires room { HasRoom 2 engine.now }
    ensures { Acts result definition.now engine.old engine.new
        (uncounted_step definition.now engine.old (λ w. building definition.now w (build_from definition.now place.0 forwards))) }
{
    // For the proof: what is known of a definition's types.
    let _types = definition.types();
    if !is_object(definition, place) {
        return set_forward_reference(engine, definition, place, forwards);
    }
    let peer = own_peer(engine, definition, place);
    push_task(engine, behind(definition, place, forwards));
    make_from_build(engine, definition, place, peer)
}

// Returns the task that follows the making of an object: the object is adopted by its parent, if it has one, and then the next place comes.
fn behind(definition: &Definition, place: Place, forwards: ForwardReferences) -> Task
    requires within { place.0 < object_count definition.now }
    ensures task { (hs : List Handler) → task_of definition.now hs result ≡ Building (build_behind definition.now place.0 forwards) }
    ensures begun { (last : ℕ) → TakesKnownHandlers last result }
    ensures frameless { IsFrameless result }
{
    let next = next_place(definition, place);
    let Some(entry) = entry_at(definition, place) else {
        return Task::Building {
            place: next,
            forwards,
        };
    };
    if entry.parent.is_some() {
        return Task::Adopting { place, forwards };
    }
    Task::Building {
        place: next,
        forwards,
    }
}
