//! The connection of handlers, by programs and by the builder (GObject manual, Signals: `g_signal_connect_data`).

ghost use Rattle.std.specs.Prelude.{◌≡◌, ◌<◌, ◌↔◌, false, true, OnOk, OnErr, IfOk, ◌+◌, List, length, nat_lt};
ghost use Rattle.ui_machine.specs.Rules.Build.{to_connect, with_signal, is_connecting, of_items};
ghost use Rattle.ui_machine.specs.Rules.Connections.{connected, is_disposed_data, is_too_late, with_handler, greatest_handler};
ghost use Rattle.instance_tables.specs.Store.{id_of};
ghost use Rattle.signal_core.specs.Connected.{connection_of, has_room};
ghost use Rattle.engine_world.specs.ConnectView.{is_connected, is_full, left_by, told_by, Takes};
ghost use Rattle.engine_world.specs.Counting.{Connects, KeepsCounts};
ghost use Rattle.engine_world.specs.Quiet.{IsQuiet};
ghost use Rattle.engine_world.specs.TaskView.{agenda_of};
ghost use Rattle.engine_stack.specs.TaskView.{connects_from, signals_of, task_of};
ghost use Rattle.engine_world.specs.View.{world_of};
ghost use Rattle.ui_machine.specs.Definition.Lookups.{place_at};
ghost use Rattle.ui_machine.specs.Seq.{total};
ghost use Rattle.ui_machine.specs.State.Handlers.{Handler};
ghost use Rattle.ui_machine.specs.State.Tasks.{connects};

use crate::engine::Engine;
use crate::places::FIRST_PLACE;
use definitions::Definition;
use engine_stack::Task;
use instance_tables::Table;
use signal_core::{ConnectError, Connection};
use std::alloc::AllocError;
use ui_machine::{ObjectId, Place};

/// The outcome of a connection by a program.
#[derive(Clone, Copy, Debug)]
pub enum Outcome {
    Connected,
    /// The object or the data object is disposed.
    TooLate,
    /// The limit of handlers is reached, or no number is left for one more.
    Full,
}

impl Outcome {
    /// Returns whether the handler was connected.
    pub fn is_connected(self) -> bool
        ensures { result ≡ is_connected self }
    {
        match self {
            Outcome::Connected => true,
            Outcome::TooLate => false,
            Outcome::Full => false,
        }
    }

    /// Returns whether a line reports that a limit was reached.
    pub fn is_full(self) -> bool
        ensures { result ≡ is_full self }
    {
        match self {
            Outcome::Connected => false,
            Outcome::TooLate => false,
            Outcome::Full => true,
        }
    }
}

// Returns whether there is a data object and it is disposed.
fn is_disposed_data(table: &Table, object: Option<ObjectId>) -> bool
    ensures { result ≡ is_disposed_data table.now.objects (id_of object) }
{
    match object {
        Some(object) => table.is_disposed(object),
        None => false,
    }
}

// Returns whether a connection comes too late, because its object or its data object is disposed.
fn is_too_late(table: &Table, connection: &Connection) -> bool
    ensures { result ≡ is_too_late table.now.objects (connection_of connection.now).object (connection_of connection.now).arg }
{
    table.is_disposed(connection.object) || is_disposed_data(table, connection.data)
}

// Connects one more handler. It has no turn in the emissions that are under way. Nothing has changed after an error.
fn add_handler(
    engine: &mut Engine,
    definition: &Definition,
    connection: Connection,
) -> Result<(), ConnectError>
    requires connects { Connects definition.now engine.now }
    ensures world { OnOk result (world_of engine.new.world ≡ with_handler (world_of engine.old.world) (connection_of connection)) }
    ensures agenda { OnOk result (agenda_of definition.now engine.new ≡ agenda_of definition.now engine.old) }
    ensures limit { (result ≡ Err ConnectError.HandlerLimit) ↔ (has_room engine.old.world.handlers (connection_of connection) ≡ false) }
    ensures err { OnErr result (engine.new ≡ engine.old) }
    ensures same { engine.new.counted ≡ engine.old.counted }
    ensures stack { engine.new.stack ≡ engine.old.stack }
    ensures counted { OnOk result (KeepsCounts definition.now engine.old engine.new) }
{
    match engine.world.handlers.connect(connection) {
        Ok(_number) => return Ok(()),
        Err(error) => return Err(error),
    }
}

/// Connects a handler for the builder, unless its object or its data object is disposed. A handler number has to be left for it.
///
/// # Errors
///
/// `AllocError` if memory is refused.
pub fn connect_signal(
    engine: &mut Engine,
    definition: &Definition,
    connection: Connection,
) -> Result<(), AllocError>
    requires by_builder { connection.by_code ≡ false }
    requires connects { Connects definition.now engine.now }
    requires number { (world_of engine.now.world).last_handler < greatest_handler }
    ensures world { OnOk result (world_of engine.new.world ≡ with_signal (world_of engine.old.world) (connection_of connection)) }
    ensures agenda { OnOk result (agenda_of definition.now engine.new ≡ agenda_of definition.now engine.old) }
    ensures quiet { OnErr result (IsQuiet (world_of engine.old.world) (world_of engine.new.world)) }
    ensures same { engine.new.counted ≡ engine.old.counted }
    ensures stack { engine.new.stack ≡ engine.old.stack }
    ensures counted { OnOk result (KeepsCounts definition.now engine.old engine.new) }
{
    if is_too_late(&engine.world.table, &connection) {
        return Ok(());
    }
    match add_handler(engine, definition, connection) {
        Ok(()) => return Ok(()),
        Err(ConnectError::HandlerLimit) => unreachable!(),
        Err(ConnectError::OutOfMemory) => return Err(AllocError),
    }
}

/// Connects a handler for a program, unless its object or its data object is disposed or a limit is reached. Returns which of these it was.
///
/// # Errors
///
/// `AllocError` if memory is refused.
pub fn connect_handler(
    engine: &mut Engine,
    definition: &Definition,
    connection: Connection,
) -> Result<Outcome, AllocError>
    requires by_code { connection.by_code ≡ true }
    requires connects { Connects definition.now engine.now }
    ensures outcome { IfOk result (λ o. connected definition.now (world_of engine.old.world) (to_connect (agenda_of definition.now engine.old)) (connection_of connection)
        ≡ told_by definition.now o (world_of engine.old.world) (connection_of connection)) }
    ensures world { IfOk result (λ o. world_of engine.new.world ≡ left_by o (world_of engine.old.world) (connection_of connection)) }
    ensures agenda { OnOk result (agenda_of definition.now engine.new ≡ agenda_of definition.now engine.old) }
    ensures quiet { OnErr result (IsQuiet (world_of engine.old.world) (world_of engine.new.world)) }
    ensures same { engine.new.counted ≡ engine.old.counted }
    ensures stack { engine.new.stack ≡ engine.old.stack }
    ensures counted { OnOk result (KeepsCounts definition.now engine.old engine.new) }
{
    if is_too_late(&engine.world.table, &connection) {
        return Ok(Outcome::TooLate);
    }
    if !has_handler_number(engine, definition) {
        return Ok(Outcome::Full);
    }
    match add_handler(engine, definition, connection) {
        Ok(()) => return Ok(Outcome::Connected),
        Err(ConnectError::HandlerLimit) => return Ok(Outcome::Full),
        Err(ConnectError::OutOfMemory) => return Err(AllocError),
    }
}

/// Returns how many signals of the object at a place the builder connects, or 0 if nothing is at the place.
pub fn signal_count(definition: &Definition, place: usize) -> usize
    ensures { result ≡ length (signals_of (place_at definition.now place)) }
{
    match definition.object(place) {
        Some(entry) => entry.signals.len(),
        None => 0,
    }
}

// Returns the number that the last handler has once the builder has connected all signals from signal `number` of the object at `place` on,
// where `last` is the last handler's number now. The result is at most `u64::MAX`.
fn taken_from(definition: &Definition, last: u64, place: Place, number: usize) -> u64
    ensures { Takes last (total is_connecting (connects_from definition.now place.0 number)) result }
{
    // For the proof: what is known of a definition's types.
    let _types = definition.types();
    let mut taken = last;
    let mut first = number;
    for at in usize::from(place.0)..definition.object_count() {
        let count = signal_count(definition, at).saturating_sub(first);
        taken = taken.saturating_add(count as u64);
        first = 0;
    }
    taken
}

// Returns the number that the last handler has once the builder has connected the signals that this task leaves to connect.
fn taken_by(task: &Task, definition: &Definition, last: u64) -> u64
    ensures { (hs : List Handler) → Takes last (of_items is_connecting (task_of definition.now hs task.now)) result }
{
    match task {
        Task::Building { .. } => taken_from(definition, last, FIRST_PLACE, 0),
        Task::Adopting { .. } => taken_from(definition, last, FIRST_PLACE, 0),
        Task::Binding { .. } => taken_from(definition, last, FIRST_PLACE, 0),
        Task::Connecting { place, number } => taken_from(definition, last, *place, *number),
        _ => last,
    }
}

/// Returns whether a number is left for one more handler, beside those that the builder is still to connect.
fn has_handler_number(engine: &Engine, definition: &Definition) -> bool
    ensures { result ≡ nat_lt (engine.now.world.handlers.last + to_connect (agenda_of definition.now engine.now)) greatest_handler }
{
    let mut taken = engine.world.handlers.last();
    let build = engine.stack.of_build();
    for task in build {
        taken = taken_by(task, definition, taken);
    }
    taken < u64::MAX
}
