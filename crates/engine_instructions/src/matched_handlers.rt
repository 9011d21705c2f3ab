//! Instructions on handlers (GObject manual, Signals: `g_signal_connect_data`, `g_signal_handlers_disconnect_matched`,
//! `g_signal_handlers_block_matched`).

ghost use Rattle.std.specs.Prelude.{◌≡◌, Ok, map};
ghost use Rattle.ui_machine.specs.Instructions.Signals.{blocking, disconnecting, unblocking};
ghost use Rattle.ui_machine.specs.Rules.Connections.{blocked, disconnected, unblocked, with_handlers_on};
ghost use Rattle.engine_world.specs.FirstPrograms.{IsProgram, first_frame};
ghost use Rattle.machine_laws.specs.GoneLaws.{pruned};
ghost use Rattle.engine_world.specs.Counting.{Counts, KeepsCounts, nothing};
ghost use Rattle.engine_instructions.specs.HandlersView.{matched_in, matched_of};
ghost use Rattle.engine_world.specs.Able.{Able};
ghost use Rattle.engine_links.specs.Linked.{LinksProgram};
ghost use Rattle.engine_world.specs.Standing.{gone_handlers};
ghost use Rattle.engine_world.specs.TaskView.{agenda_of};
ghost use Rattle.engine_world.specs.View.{world_of};
ghost use Rattle.engine_world.specs.Executions.{Executes, ExecutesWithoutGone};
ghost use Rattle.engine_instructions.specs.InProgram.{in_program};

use crate::operands::{object_in, program_named};
use bytecode::Register;
use definitions::Definition;
use engine_links::Link;
use engine_world::engine::Engine;
use std::alloc::AllocError;
use ui_machine::{ObjectId, ProgramId};

/// The handlers of a program on an object.
#[derive(Clone, Copy, Debug)]
struct Matched {
    object: ObjectId,
    program: ProgramId,
}

// Returns the handlers of the program of this name on the object that a register names.
fn matched_in(
    engine: &Engine,
    definition: &Definition,
    object: Register,
    program: &str,
    link: Link,
) -> Matched
    requires first { IsProgram engine.now }
    requires link { LinksProgram definition.now program.now link }
    requires able { Able (matched_in definition.now (world_of engine.now.world) (first_frame engine.now) object.0 program.now) }
    ensures { matched_in definition.now (world_of engine.now.world) (first_frame engine.now) object.0 program.now ≡ Ok (matched_of result) }
{
    let object = object_in(engine, object);
    let program = program_named(definition, program, link);
    Matched { object, program }
}

// Disconnects the handlers. They have no more turns in the emissions that are under way.
fn disconnect(engine: &mut Engine, definition: &Definition, matched: Matched)
    ensures world { world_of engine.new.world ≡ disconnected (world_of engine.old.world) matched.object.0 matched.program }
    ensures agenda { agenda_of definition.now engine.new ≡ map (pruned (gone_handlers (world_of engine.new.world))) (agenda_of definition.now engine.old) }
    ensures same { engine.new.counted ≡ engine.old.counted }
    ensures counted { KeepsCounts definition.now engine.old engine.new }
    ensures stack { engine.new.stack ≡ engine.old.stack }
{
    // For the proof: what is known of the numbers of handlers.
    let _last = engine.world.handlers.last();
    engine
        .world
        .handlers
        .disconnect_matched(matched.object, matched.program);
}

// Blocks the handlers once more.
fn block(engine: &mut Engine, definition: &Definition, matched: Matched)
    ensures world { world_of engine.new.world ≡ with_handlers_on blocked (world_of engine.old.world) matched.object.0 matched.program }
    ensures agenda { agenda_of definition.now engine.new ≡ agenda_of definition.now engine.old }
    ensures same { engine.new.counted ≡ engine.old.counted }
    ensures counted { KeepsCounts definition.now engine.old engine.new }
    ensures stack { engine.new.stack ≡ engine.old.stack }
{
    engine
        .world
        .handlers
        .block_matched(matched.object, matched.program);
}

// Unblocks the handlers once.
fn unblock(engine: &mut Engine, definition: &Definition, matched: Matched)
    ensures world { world_of engine.new.world ≡ with_handlers_on unblocked (world_of engine.old.world) matched.object.0 matched.program }
    ensures agenda { agenda_of definition.now engine.new ≡ agenda_of definition.now engine.old }
    ensures same { engine.new.counted ≡ engine.old.counted }
    ensures counted { KeepsCounts definition.now engine.old engine.new }
    ensures stack { engine.new.stack ≡ engine.old.stack }
{
    engine
        .world
        .handlers
        .unblock_matched(matched.object, matched.program);
}

/// Disconnects the handlers of a program on an object.
pub(crate) fn disconnect_matched(
    engine: &mut Engine,
    definition: &Definition,
    object: Register,
    program: &str,
    link: Link,
)
    requires first { IsProgram engine.now }
    requires link { LinksProgram definition.now program.now link }
    requires able { Able (in_program definition.now engine.now (λ w f. disconnecting definition.now w f object.0 program.now)) }
    requires counted { Counts definition.now nothing engine.now }
    ensures { ExecutesWithoutGone (Ok result) definition.now engine.old engine.new nothing
        (in_program definition.now engine.old (λ w f. disconnecting definition.now w f object.0 program.now)) }
{
    let matched = matched_in(engine, definition, object, program, link);
    disconnect(engine, definition, matched);
}

/// Blocks the handlers of a program on an object once more.
pub(crate) fn block_matched(
    engine: &mut Engine,
    definition: &Definition,
    object: Register,
    program: &str,
    link: Link,
)
    requires first { IsProgram engine.now }
    requires link { LinksProgram definition.now program.now link }
    requires able { Able (in_program definition.now engine.now (λ w f. blocking definition.now w f object.0 program.now)) }
    requires counted { Counts definition.now nothing engine.now }
    ensures { Executes (Ok result) definition.now engine.old engine.new
        (in_program definition.now engine.old (λ w f. blocking definition.now w f object.0 program.now)) }
{
    let matched = matched_in(engine, definition, object, program, link);
    block(engine, definition, matched);
}

/// Unblocks the handlers of a program on an object once.
pub(crate) fn unblock_matched(
    engine: &mut Engine,
    definition: &Definition,
    object: Register,
    program: &str,
    link: Link,
)
    requires first { IsProgram engine.now }
    requires link { LinksProgram definition.now program.now link }
    requires able { Able (in_program definition.now engine.now (λ w f. unblocking definition.now w f object.0 program.now)) }
    requires counted { Counts definition.now nothing engine.now }
    ensures { Executes (Ok result) definition.now engine.old engine.new
        (in_program definition.now engine.old (λ w f. unblocking definition.now w f object.0 program.now)) }
{
    let matched = matched_in(engine, definition, object, program, link);
    unblock(engine, definition, matched);
}
