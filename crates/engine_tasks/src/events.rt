//! The requests of events: sets, gets, emissions and releases.

ghost use Rattle.std.specs.Prelude.{map, Ok};
ghost use Rattle.ui_machine.specs.Rules.Events.{request_step, set_from_event, get_from_event, emit_from_event, release_from_event};
ghost use Rattle.definition_format.specs.Meaning.{given_view, request_of};
ghost use Rattle.engine_world.specs.Able.{Able, LeadsToLiving};
ghost use Rattle.engine_world.specs.GivenView.{shared_detail_of};
ghost use Rattle.engine_world.specs.Room.{HasRoom};
ghost use Rattle.engine_world.specs.Counting.{HoldsBuilt, IsCounted};
ghost use Rattle.engine_world.specs.Executions.{Acts, uncounted_step};

use definition_format::{Given, Request};
use definitions::Definition;
use engine_stack::{NewEmission, Task};
use engine_world::arguments::{add_operands, shared_detail_in};
use engine_world::builder::{BuilderEntry, set_builder_entry};
use engine_world::engine::Engine;
use engine_world::given::{held_object, operand};
use engine_world::lines::Line;
use engine_world::places::entry_at;
use engine_world::properties::spec_of;
use engine_world::references::{let_go_any, push_task};
use std::alloc::AllocError;
use std::rc::RcStr;
use ui_machine::{Place, SignalId, Slot};

// Sets a property for an event.
#[tactic(auto, unfolding(ui_machine::specs::Rules::Events::set_from_event, ui_machine::specs::Rules::Events::set_given))]
fn set_from_event(
    engine: &mut Engine,
    definition: &Definition,
    place: Place,
    slot: Slot,
    given: Given,
)
    requires able { Able (uncounted_step definition.now engine.now (λ w. set_from_event definition.now w place.0 slot (given_view given))) }
    requires names { LeadsToLiving (uncounted_step definition.now engine.now (λ w. set_from_event definition.now w place.0 slot (given_view given))) }
    requires counted { IsCounted definition.now engine.now }
    requires room { HasRoom 1 engine.now }
    ensures { Acts (Ok result) definition.now engine.old engine.new
        (uncounted_step definition.now engine.old (λ w. set_from_event definition.now w place.0 slot (given_view given))) }
{
    let object = held_object(engine, place);
    let value = operand(engine, given);
    push_task(
        engine,
        Task::Setting {
            object,
            slot,
            value,
        },
    );
}

// Reads a property for an event, says its value, and keeps it as the result of the event.
#[tactic(auto, unfolding(ui_machine::specs::Rules::Events::get_from_event))]
fn get_from_event(
    engine: &mut Engine,
    definition: &Definition,
    place: Place,
    slot: Slot,
) -> Result<(), AllocError>
    requires able { Able (uncounted_step definition.now engine.now (λ w. get_from_event definition.now w place.0 slot)) }
    ensures { Acts result definition.now engine.old engine.new
        (uncounted_step definition.now engine.old (λ w. get_from_event definition.now w place.0 slot)) }
{
    let object = held_object(engine, place);
    let spec = spec_of(engine, definition, object, slot);
    let value = engine.world.table.read(object, slot).copied()?;
    let told = Line::Get {
        object,
        property: spec.name.as_str(),
        value: &value,
    };
    let line = told.text(engine.alloc, definition.types())?;
    engine.world.say(line)?;
    engine.world.result = Some(value);
    Ok(())
}

// Begins an emission for an event.
#[tactic(auto, unfolding(ui_machine::specs::Rules::Events::emit_from_event))]
fn emit_from_event(
    engine: &mut Engine,
    definition: &Definition,
    place: Place,
    signal: SignalId,
    args: &[Given],
    detail: &Option<RcStr>,
) -> Result<(), AllocError>
    requires able { Able (uncounted_step definition.now engine.now (λ w. emit_from_event definition.now w place.0 signal (map given_view args.now) (shared_detail_of detail.now))) }
    requires names { LeadsToLiving (uncounted_step definition.now engine.now (λ w. emit_from_event definition.now w place.0 signal (map given_view args.now) (shared_detail_of detail.now))) }
    requires counted { IsCounted definition.now engine.now }
    requires room { HasRoom 1 engine.now }
    ensures { Acts result definition.now engine.old engine.new
        (uncounted_step definition.now engine.old (λ w. emit_from_event definition.now w place.0 signal (map given_view args.now) (shared_detail_of detail.now))) }
{
    let object = held_object(engine, place);
    let detail = shared_detail_in(engine, definition, object, signal, detail)?;
    let mut values = engine.spare_args.take_for(engine.alloc, args.len());
    add_operands(engine, args, &mut values)?;
    push_task(
        engine,
        Task::Beginning(NewEmission {
            object,
            signal,
            detail,
            args: values,
            by_event: true,
        }),
    );
    Ok(())
}

// Makes the builder let an object go, and says the line.
#[tactic(auto, unfolding(ui_machine::specs::Rules::Events::release_from_event))]
fn release_from_event(
    engine: &mut Engine,
    definition: &Definition,
    place: Place,
) -> Result<(), AllocError>
    requires able { Able (uncounted_step definition.now engine.now (λ w. release_from_event definition.now w place.0)) }
    requires holds { HoldsBuilt engine.now }
    ensures { Acts result definition.now engine.old engine.new
        (uncounted_step definition.now engine.old (λ w. release_from_event definition.now w place.0)) }
{
    let Some(entry) = entry_at(definition, place) else {
        unreachable!()
    };
    let object = held_object(engine, place);
    let line = Line::Release { id: entry.id }.text(engine.alloc, definition.types())?;
    set_builder_entry(&mut engine.world.builder, place, BuilderEntry::Released)?;
    let_go_any(&mut engine.world.table, Some(object));
    engine.world.say(line)?;
    Ok(())
}

/// Carries out the request of an event.
///
/// # Errors
///
/// `AllocError` if memory is refused.
pub fn handle_event(
    engine: &mut Engine,
    definition: &Definition,
    request: Request,
) -> Result<(), AllocError>
    requires able { Able (uncounted_step definition.now engine.now (λ w. request_step definition.now w (request_of request))) }
    requires names { LeadsToLiving (uncounted_step definition.now engine.now (λ w. request_step definition.now w (request_of request))) }
    requires counted { IsCounted definition.now engine.now }
    requires holds { HoldsBuilt engine.now }
    requires room { HasRoom 1 engine.now }
    ensures { Acts result definition.now engine.old engine.new
        (uncounted_step definition.now engine.old (λ w. request_step definition.now w (request_of request))) }
{
    match request {
        Request::Set { place, slot, given } => {
            set_from_event(engine, definition, place, slot, given);
        }
        Request::Get { place, slot } => get_from_event(engine, definition, place, slot)?,
        Request::Emit {
            place,
            signal,
            args,
            detail,
        } => emit_from_event(engine, definition, place, signal, args.as_slice(), &detail)?,
        Request::Release { place } => release_from_event(engine, definition, place)?,
    }
    Ok(())
}
