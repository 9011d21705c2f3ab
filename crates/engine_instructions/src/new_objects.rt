//! `new`: a program makes an object of a prototype (GObject manual, GObject: `g_object_new`).

ghost use Rattle.std.specs.Prelude.{◌≡◌, ◌<◌, ◌-◌, ◌&&◌, List, Some, min, length, slice_get, IfSome, option_map};
ghost use Rattle.ui_machine.specs.Instructions.Objects.{creating};
ghost use Rattle.ui_machine.specs.Outcome.{known};
ghost use Rattle.ui_machine.specs.declared.arm.Arm.TheVariants as arms;
ghost use Rattle.ui_machine.specs.Rules.Build.{is_making, of_items, to_make};
ghost use Rattle.ui_machine.specs.State.Handlers.{Handler};
ghost use Rattle.ui_machine.specs.State.Objects.{most_identities};
ghost use Rattle.definition_format.specs.Meaning.{object_count};
ghost use Rattle.engine_world.specs.FirstPrograms.{IsProgram, rest_of};
ghost use Rattle.engine_world.specs.Counting.{Counts, nothing};
ghost use Rattle.definitions.specs.EntryView.{entry_view};
ghost use Rattle.engine_instructions.specs.CreateView.{created, has_room, prototype_named, prototype_of};
ghost use Rattle.engine_world.specs.PeerPlaces.{is_there};
ghost use Rattle.engine_world.specs.Able.{Able};
ghost use Rattle.engine_links.specs.Linked.{LinksPlace};
ghost use Rattle.engine_world.specs.TaskView.{agenda_of};
ghost use Rattle.engine_stack.specs.TaskView.{task_of};
ghost use Rattle.engine_world.specs.Room.{HasRoom};
ghost use Rattle.engine_world.specs.View.{world_of};
ghost use Rattle.engine_world.specs.Executions.{Executes};
ghost use Rattle.engine_instructions.specs.InProgram.{in_program};

use crate::registers::{write_null_and_say_limit, write_register};
use bytecode::Register;
use definitions::{Definition, ObjectEntry};
use engine_links::Link;
use engine_stack::Task;
use engine_world::engine::Engine;
use engine_world::given::{object_or_null, object_value};
use engine_world::object_peers::{NewPeer, new_peer};
use engine_world::objects::{begin_construction, make};
use engine_world::places::entry_at;
use std::alloc::AllocError;
use ui_machine::Place;

// A prototype of the definition, with its place.
#[derive(Clone, Copy)]
struct Prototype<'a> {
    place: Place,
    entry: ObjectEntry<'a>,
}

// Returns the prototype of an id, if there is one. The instruction's link says at which place it is.
fn prototype_named<'a>(definition: &'a Definition, id: &str, link: Link) -> Option<Prototype<'a>>
    requires { LinksPlace definition.now id.now link }
    ensures named { known arms.Code (option_map prototype_of result) ≡ prototype_named definition.now id.now }
    ensures at { IfSome result (λ p. slice_get definition.now.places p.place.0 ≡ Some (entry_view p.entry)) }
{
    let Some(place) = link.place() else {
        return None;
    };
    let Some(entry) = entry_at(definition, place) else {
        return None;
    };
    if !entry.is_prototype {
        return None;
    }
    Some(Prototype { place, entry })
}

// Returns how many objects of the definition there are from a place on.
fn objects_from(definition: &Definition, place: Place) -> u32
    ensures { result ≡ object_count definition.now - place.0 }
{
    // For the proof: how many objects a definition has at most.
    let _limits = definition.limits();
    let first = usize::from(place.0);
    definition.object_count().saturating_sub(first) as u32
}

// Returns how many objects the builder makes by a task.
fn made_by(task: &Task, definition: &Definition) -> u32
    ensures { (hs : List Handler) → result ≡ of_items is_making (task_of definition.now hs task.now) }
{
    // For the proof: what is known of a definition's places.
    let _types = definition.types();
    match task {
        Task::Building { place, .. } => objects_from(definition, *place),
        Task::Adopting { place, .. } => objects_from(definition, *place).saturating_sub(1),
        _ => 0,
    }
}

// Returns how many objects the builder has still to make, at most `u32::MAX`.
fn objects_to_make(engine: &Engine, definition: &Definition) -> u32
    ensures { result ≡ min (to_make (agenda_of definition.now engine.now)) u32.MAX }
{
    let mut count: u32 = 0;
    let build = engine.stack.of_build();
    for task in build {
        count = count.saturating_add(made_by(task, definition));
    }
    count
}

// Returns whether one more object may be made. The objects that the builder has still to make count beside it, in number and in identities.
fn has_room(engine: &Engine, definition: &Definition) -> bool
    ensures { result ≡ has_room definition.now (world_of engine.now.world) (to_make (agenda_of definition.now engine.now)) }
{
    let to_come = objects_to_make(engine, definition);
    engine
        .world
        .table
        .has_room_below(definition.limits().objects, to_come)
}

// Returns whether a new object may be made: there is room for it, and a peer if it wants one.
fn may_create(engine: &Engine, definition: &Definition, peer: NewPeer) -> bool
    ensures { result ≡ (has_room definition.now (world_of engine.now.world) (to_make (agenda_of definition.now engine.now)) && is_there peer) }
{
    has_room(engine, definition) && peer.is_there()
}

// Writes a new object of the prototype at a place, which gets this peer, to a register. The rest of its construction comes before the
// program goes on.
fn create_at(
    engine: &mut Engine,
    definition: &Definition,
    to: Register,
    place: Place,
    peer: Option<usize>,
) -> Result<(), AllocError>
    requires first { IsProgram engine.now }
    requires able { Able (in_program definition.now engine.now (λ w f. created definition.now w f to.0 place.0 peer)) }
    requires peer { IfSome peer (λ number. number < length engine.now.world.seats) }
    requires identity { length (world_of engine.now.world).objects < most_identities }
    requires counted { Counts definition.now nothing engine.now }
    requires room { HasRoom 1 engine.now }
    ensures { Executes result definition.now engine.old engine.new
        (in_program definition.now engine.old (λ w f. created definition.now w f to.0 place.0 peer)) }
{
    let new = make(engine, definition, place, peer)?;
    write_register(engine, definition, to, Some(object_value(new.object)));
    begin_construction(engine, new, false)?;
    Ok(())
}

/// Writes a new object of the prototype of an id to a register. If its class has a shape, the object gets the first of the prototype's
/// peers that is left. If no more objects may live or no peer is left, the register gets null, and a line says so. The rest of the object's
/// construction comes before the program goes on.
pub(crate) fn create(
    engine: &mut Engine,
    definition: &Definition,
    to: Register,
    id: &str,
    link: Link,
) -> Result<(), AllocError>
    requires first { IsProgram engine.now }
    requires link { LinksPlace definition.now id.now link }
    requires able { Able (in_program definition.now engine.now (λ w f. creating definition.now w (rest_of definition.now engine.now) f to.0 id.now)) }
    requires counted { Counts definition.now nothing engine.now }
    requires room { HasRoom 1 engine.now }
    ensures { Executes result definition.now engine.old engine.new
        (in_program definition.now engine.old (λ w f. creating definition.now w (rest_of definition.now engine.old) f to.0 id.now)) }
{
    // For the proof: what is known of a definition's places.
    let _types = definition.types();
    let Some(prototype) = prototype_named(definition, id, link) else {
        unreachable!()
    };
    let peer = new_peer(engine, definition, prototype.place, &prototype.entry);
    if !may_create(engine, definition, peer) {
        return write_null_and_say_limit(engine, definition, to, object_or_null(None), "new");
    }
    create_at(engine, definition, to, prototype.place, peer.number())
}
