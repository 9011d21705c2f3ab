//! `connect`: a program connects a handler (GObject manual, Signals: `g_signal_connect_data`).

ghost use Rattle.std.specs.Prelude.{◌≡◌, true, IfOk, Ok};
ghost use Rattle.ui_machine.specs.Instructions.Signals.{connecting};
ghost use Rattle.engine_world.specs.FirstPrograms.{IsProgram, first_frame, rest_of};
ghost use Rattle.bytecode.specs.View.{connect_view};
ghost use Rattle.signal_core.specs.Connected.{connection_of};
ghost use Rattle.engine_world.specs.ConnectView.{connection_in};
ghost use Rattle.engine_world.specs.Counting.{Counts, nothing};
ghost use Rattle.engine_world.specs.Able.{Able};
ghost use Rattle.engine_links.specs.Linked.{LinksConnection};
ghost use Rattle.engine_world.specs.View.{world_of};
ghost use Rattle.engine_world.specs.Executions.{Executes};
ghost use Rattle.engine_instructions.specs.InProgram.{in_program};

use crate::details::detail_in;
use crate::emits::signal_in;
use crate::operands::{data_in, object_in, program_named};
use crate::registers::write_register;
use bytecode::{Connection as Connect, Register};
use definitions::Definition;
use engine_links::Link;
use engine_world::arguments::as_text;
use engine_world::children::say_limit;
use engine_world::connections::connect_handler;
use engine_world::engine::Engine;
use g_values::Value;
use signal_core::Connection;
use std::alloc::AllocError;

// Returns the connection that `connect` asks for, on the object that a register names.
fn new_connection(
    engine: &Engine,
    definition: &Definition,
    object: Register,
    connect: &Connect,
    link: Link,
) -> Result<Connection, AllocError>
    requires first { IsProgram engine.now }
    requires link { LinksConnection definition.now engine.now.links (connect_view connect.now) link }
    requires able { Able (connection_in definition.now (world_of engine.now.world) (first_frame engine.now) object.0 (connect_view connect.now)) }
    ensures connection { IfOk result (λ c. connection_in definition.now (world_of engine.now.world) (first_frame engine.now) object.0 (connect_view connect.now) ≡ Ok (connection_of c)) }
    ensures by_code { IfOk result (λ c. c.by_code ≡ true) }
{
    let object = object_in(engine, object);
    let signal = signal_in(engine, definition, object, connect.signal.as_str(), link);
    let detail = detail_in(
        engine,
        definition,
        object,
        signal,
        as_text(&connect.detail),
        link,
    )?;
    let program = program_named(definition, connect.program.as_str(), link);
    let data = data_in(engine, connect.with);
    Ok(Connection {
        object,
        signal,
        detail,
        program,
        after: connect.after,
        swapped: connect.swapped,
        data,
        by_code: true,
    })
}

/// Connects a handler, unless the object or the data object is disposed or a limit is reached. A limit is reported by a line. Writes to a
/// register whether the handler was connected.
pub(crate) fn connect_from_program(
    engine: &mut Engine,
    definition: &Definition,
    to: Register,
    object: Register,
    connect: &Connect,
    link: Link,
) -> Result<(), AllocError>
    requires first { IsProgram engine.now }
    requires link { LinksConnection definition.now engine.now.links (connect_view connect.now) link }
    requires able { Able (in_program definition.now engine.now (λ w f. connecting definition.now w (rest_of definition.now engine.now) f to.0 object.0 (connect_view connect.now))) }
    requires counted { Counts definition.now nothing engine.now }
    ensures { Executes result definition.now engine.old engine.new
        (in_program definition.now engine.old (λ w f. connecting definition.now w (rest_of definition.now engine.old) f to.0 object.0 (connect_view connect.now))) }
{
    let connection = new_connection(engine, definition, object, connect, link)?;
    let outcome = connect_handler(engine, definition, connection)?;
    let is_connected = outcome.is_connected();
    write_register(engine, definition, to, Some(Value::Bool(is_connected)));
    if !outcome.is_full() {
        return Ok(());
    }
    say_limit(engine, definition, "connect")?;
    Ok(())
}
