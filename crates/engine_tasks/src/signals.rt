//! The signals of the definition's objects, which are connected once all objects are made (GTK manual, GtkBuilder: the element `signal`).

ghost use Rattle.std.specs.Prelude.{◌≡◌, ◌∷◌, ◌+◌, ◌≤◌, [], Ok, false, suc, ◌<◌, IfOk, IfSome, MatchOption};
ghost use Rattle.ui_machine.specs.Rules.Build.{building, held_data, is_connecting};
ghost use Rattle.ui_machine.specs.Rules.Connections.{greatest_handler};
ghost use Rattle.ui_machine.specs.Seq.{total};
ghost use Rattle.ui_machine.specs.State.Tasks.{connects};
ghost use Rattle.definition_format.specs.Meaning.{place_number};
ghost use Rattle.instance_tables.specs.Store.{id_of};
ghost use Rattle.signal_core.specs.Connected.{connection_of};
ghost use Rattle.engine_world.specs.ConnectView.{attached_at};
ghost use Rattle.engine_world.specs.Counting.{Connects};
ghost use Rattle.engine_world.specs.Able.{Able};
ghost use Rattle.engine_stack.specs.TaskView.{connects_from};
ghost use Rattle.engine_world.specs.Room.{HasRoom};
ghost use Rattle.engine_world.specs.View.{world_of};
ghost use Rattle.engine_world.specs.Executions.{Acts, uncounted_step};

use definitions::Definition;
use engine_stack::Task;
use engine_world::arguments::{as_text, detail_for};
use engine_world::connections::{connect_signal, signal_count};
use engine_world::engine::Engine;
use engine_world::given::held_object;
use engine_world::places::{entry_at, place_numbered};
use engine_world::references::push_task;
use signal_core::Connection;
use std::alloc::AllocError;
use ui_machine::{ObjectId, Place};

/// The position of a signal in the definition: the place of its object, and its number there.
#[derive(Clone, Copy, Debug)]
struct Position {
    place: Place,
    number: usize,
}

// Returns the position of the first signal from signal `number` of an object on, or else of the objects behind it.
fn next_signal(definition: &Definition, place: Place, number: usize) -> Option<Position>
    ensures next { MatchOption result (connects_from definition.now place.0 number ≡ [])
        (λ at. connects_from definition.now place.0 number ≡ connects at.place.0 at.number ∷ connects_from definition.now at.place.0 (suc at.number)) }
    ensures room { IfSome result (λ at. at.number < usize.MAX) }
{
    // For the proof: what is known of a definition's types.
    let _types = definition.types();
    let mut first = number;
    for at in usize::from(place.0)..definition.object_count() {
        if first < signal_count(definition, at) {
            return Some(Position {
                place: place_numbered(definition, at),
                number: first,
            });
        }
        first = 0;
    }
    None
}

// Returns the data object of a signal, if it has one.
#[tactic(auto, unfolding(ui_machine::specs::Rules::Build::held_data))]
fn data_of(engine: &Engine, with: Option<Place>) -> Option<ObjectId>
    requires able { Able (held_data (world_of engine.now.world) (place_number with)) }
    ensures { held_data (world_of engine.now.world) (place_number with) ≡ Ok (id_of result) }
{
    Some(held_object(engine, with?))
}

// Returns the connection that a signal of the definition asks for.
fn attached(
    engine: &Engine,
    definition: &Definition,
    at: Position,
) -> Result<Connection, AllocError>
    requires able { Able (attached_at definition.now (world_of engine.now.world) at.place.0 at.number) }
    ensures attached { IfOk result (λ c. attached_at definition.now (world_of engine.now.world) at.place.0 at.number ≡ Ok (connection_of c)) }
    ensures by_builder { IfOk result (λ c. c.by_code ≡ false) }
{
    let Some(entry) = entry_at(definition, at.place) else {
        unreachable!()
    };
    let Some(attached) = entry.signals.get(at.number) else {
        unreachable!()
    };
    let object = held_object(engine, at.place);
    let data = data_of(engine, attached.with);
    let Some(signal) = definition.signal_number(entry.class, attached.signal.as_str()) else {
        unreachable!()
    };
    let detail = as_text(&attached.detail);
    let detail = detail_for(engine, definition, entry.class, signal, detail)?;
    Ok(Connection {
        object,
        signal,
        detail,
        program: attached.program,
        after: attached.after,
        swapped: attached.swapped,
        data,
        by_code: false,
    })
}

/// Connects the next signal of the definition's objects, from signal `number` of an object on. Handler numbers have to be left for all of
/// them.
///
/// # Errors
///
/// `AllocError` if memory is refused.
pub fn connect_from_build(
    engine: &mut Engine,
    definition: &Definition,
    place: Place,
    number: usize,
) -> Result<(), AllocError>
    requires able { Able (uncounted_step definition.now engine.now (λ w. building definition.now w (connects_from definition.now place.0 number))) }
    requires connects { Connects definition.now engine.now }
    requires numbers { (world_of engine.now.world).last_handler + total is_connecting (connects_from definition.now place.0 number) ≤ greatest_handler }
    requires room { HasRoom 1 engine.now }
    ensures { Acts result definition.now engine.old engine.new
        (uncounted_step definition.now engine.old (λ w. building definition.now w (connects_from definition.now place.0 number))) }
{
    let Some(at) = next_signal(definition, place, number) else {
        return Ok(());
    };
    let connection = attached(engine, definition, at)?;
    push_task(
        engine,
        Task::Connecting {
            place: at.place,
            number: at.number + 1,
        },
    );
    connect_signal(engine, definition, connection)?;
    Ok(())
}
