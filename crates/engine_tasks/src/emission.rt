//! Emissions: their beginning, their turns and their end (GObject manual, Signals: `g_signal_emit`).

ghost use Rattle.std.specs.Prelude.{◌≡◌, ◌+◌, ◌∷◌, [], ℕ, None, Some, map, option_map, string_bytes, true, IfSome, IfOk, OnOk, OnErr};
ghost use Rattle.ui_machine.specs.Definition as machine;
ghost use Rattle.ui_machine.specs.Seq.{total};
ghost use Rattle.ui_machine.specs.Output.Lines as lines;
ghost use Rattle.ui_machine.specs.Output.Text.{text_of_line};
ghost use Rattle.ui_machine.specs.Rules.Accumulation.{ending, result_of, told};
ghost use Rattle.ui_machine.specs.Rules.EmissionPlan.{beginning_emission};
ghost use Rattle.ui_machine.specs.Rules.Programs.{beginning_program};
ghost use Rattle.ui_machine.specs.State.Bindings.{binding_of};
ghost use Rattle.ui_machine.specs.State.References.{in_register, in_task, in_value, same};
ghost use Rattle.ui_machine.specs.State.Tasks.{Beginning, Emitting};
ghost use Rattle.ui_machine.specs.Steps.{act, counted, left};
ghost use Rattle.bindings.specs.Due.{entry_of, is_free};
ghost use Rattle.signal_core.specs.Emission.{begun};
ghost use Rattle.signal_core.specs.declared.stage.Stage.TheVariants as stages;
ghost use Rattle.bytecode.specs.Computing.{registers_of};
ghost use Rattle.g_values.specs.View.{kind_view, value_view};
ghost use Rattle.definition_format.specs.Meaning.{IsKnownKind};
ghost use Rattle.engine_world.specs.Able.{Able, LeadsToLiving};
ghost use Rattle.engine_world.specs.Quiet.{IsQuiet};
ghost use Rattle.engine_world.specs.Room.{HasRoom, SameRoom};
ghost use Rattle.engine_world.specs.View.{world_of, with_line};
ghost use Rattle.engine_world.specs.TaskView.{agenda_of};
ghost use Rattle.engine_stack.specs.TaskView.{new_of, emission_of, entries_to_come};
ghost use Rattle.engine_stack.specs.TransferView.{due_later};
ghost use Rattle.engine_world.specs.Counting.{Counts, KeepsCounts, MayBeHeld, nothing};
ghost use Rattle.engine_world.specs.FirstEmissions.{IsEmission, first_emitted, first_emitting};
ghost use Rattle.engine_stack.specs.FirstEmissions.{emission_view, emitted_of, entries_left};
ghost use Rattle.engine_world.specs.FirstPrograms.{rest_of};
ghost use Rattle.engine_world.specs.Standing.{past_turns};
ghost use Rattle.engine_tasks.specs.TurnView.{RunsProgram, given_around, given_by, program_of_turn};
ghost use Rattle.engine_world.specs.Executions.{Executes, ExecutesHolding, counted_step, uncounted_step};

use crate::programs::begin_program;
use crate::turns::Invocation;
use bindings::DueTransfer;
use definitions::Definition;
use engine_stack::{EmissionFrame, NewEmission, Task, Transfers};
use engine_world::arguments::shared_text;
use engine_world::counted_steps::count;
use engine_world::emissions::{drop_emission, push_emission};
use engine_world::engine::Engine;
use engine_world::lines::Line;
use engine_world::program_frames::pass_down;
use engine_world::references::{accumulated, let_go_any, never_full, push_task};
use g_values::{Kind, Value, zero_of};
use signal_core::{Emission, Turn};
use std::alloc::{AllocError, Global};
use type_tree::TypeTree;
use ui_machine::ObjectId;

// Returns the result of an emission: the value that it has accumulated, or else the zero value of the kind. Without a kind there is no
// result.
fn result_of(definition: &Definition, kind: Option<Kind>, value: Option<Value>) -> Option<Value>
    requires known { IfSome (option_map kind_view kind) (IsKnownKind definition.now.types) }
    ensures { option_map value_view result ≡ result_of definition.now (option_map kind_view kind) (option_map value_view value) }
{
    let kind = kind?;
    match value {
        Some(value) => Some(value),
        None => Some(zero_of(definition.types(), kind)),
    }
}

// Returns the line with which an emission of a signal begins.
fn emission_line(
    alloc: Global,
    types: &TypeTree,
    emission: &NewEmission,
    signal: &str,
) -> Result<String, AllocError>
    ensures { IfOk result (λ line. string_bytes line ≡ text_of_line types.now
        (lines.emit emission.now.object.0 signal.now (new_of emission.now).detail (new_of emission.now).args)) }
{
    let detail = shared_text(&emission.detail);
    let args = emission.args.as_slice();
    let told = Line::Emit {
        object: emission.object,
        signal,
        detail,
        args,
    };
    told.text(alloc, types)
}

/// Begins an emission that is counted already, with the transfers that it is to make, and says its line. What is connected later has no
/// turn in it.
pub(crate) fn start_emission(
    engine: &mut Engine,
    emission: Emission,
    mut args: Vec<Value>,
    by_event: bool,
    transfers: Transfers,
    line: String,
) -> Result<(), AllocError>
    requires may { MayBeHeld engine.now emission.object.0 }
    requires room { HasRoom 1 engine.now }
    ensures agenda { OnOk result ((d : machine.Definition) → agenda_of d engine.new
        ≡ Emitting (emission_of (begun emission engine.old.world.handlers.last) args.items by_event)
        (entries_to_come (begun emission engine.old.world.handlers.last) engine.old.world.handlers.handlers transfers)
        ∷ agenda_of d engine.old) }
    ensures world { OnOk result (world_of engine.new.world ≡ with_line (string_bytes line) (world_of engine.old.world)) }
    ensures quiet { OnErr result (IsQuiet (world_of engine.old.world) (world_of engine.new.world)) }
    ensures same { engine.new.counted ≡ engine.old.counted }
    ensures counted { OnOk result ((d : machine.Definition) (taken : ℕ → ℕ)
        → Counts d (λ o. taken o + total (in_value o) (map value_view args.items)) engine.old → Counts d taken engine.new) }
    ensures room { SameRoom engine.old engine.new }
{
    let cursor = engine.world.handlers.begin_emission(emission);
    push_emission(engine, cursor, &mut args, by_event, transfers);
    engine.spare_args.give_back(args);
    engine.world.say(line)?;
    Ok(())
}

/// Begins an emission that is due, as a counted step, and says its line. Its arguments have to fit the signal.
///
/// # Errors
///
/// `AllocError` if memory is refused.
#[tactic(auto, unfolding(ui_machine::specs::Rules::EmissionPlan::beginning_emission))]
pub fn begin_emission(
    engine: &mut Engine,
    definition: &Definition,
    emission: NewEmission,
) -> Result<(), AllocError>
    requires able { Able (counted_step definition.now engine.now (λ w. beginning_emission definition.now w (new_of emission))) }
    requires counted { Counts definition.now (λ o. in_task o (Beginning (new_of emission))) engine.now }
    requires room { HasRoom 1 engine.now }
    ensures { ExecutesHolding result definition.now engine.old engine.new (λ o. same o emission.object.0)
        (counted_step definition.now engine.old (λ w. beginning_emission definition.now w (new_of emission))) }
{
    // For the proof: what is known of the numbers of handlers.
    let _last = engine.world.handlers.last();
    count(engine);
    let types = definition.types();
    let class = engine.world.table.class_of(emission.object);
    let Some(declared) = definition.signal(class, emission.signal) else {
        unreachable!()
    };
    let line = emission_line(engine.alloc, types, &emission, declared.name)?;
    let NewEmission {
        object,
        signal,
        detail,
        args,
        by_event,
    } = emission;
    let Some(planned) = engine
        .links
        .emission(definition, class, object, signal, detail)
    else {
        unreachable!()
    };
    let transfers = Transfers::new(engine.alloc);
    start_emission(engine, planned, args, by_event, transfers, line)?;
    Ok(())
}

// Says the result of an event's emission, if there is one, and keeps it as the result of the event.
fn say_result(
    engine: &mut Engine,
    definition: &Definition,
    value: Option<Value>,
) -> Result<(), AllocError>
    ensures world { OnOk result (world_of engine.new.world ≡ told definition.now (world_of engine.old.world) true (option_map value_view value)) }
    ensures quiet { OnErr result (IsQuiet (world_of engine.old.world) (world_of engine.new.world)) }
    ensures same { (engine.new.stack ≡ engine.old.stack) × (engine.new.counted ≡ engine.old.counted) }
    ensures handlers { engine.new.world.handlers ≡ engine.old.world.handlers }
    ensures counted { OnOk result (KeepsCounts definition.now engine.old engine.new) }
{
    let Some(value) = value else {
        return Ok(());
    };
    let line = Line::Result { value: &value }.text(engine.alloc, definition.types())?;
    engine.world.say(line)?;
    engine.world.result = Some(value);
    Ok(())
}

// Says the result like `say_result`, if the emission is an event's.
fn say_result_if(
    engine: &mut Engine,
    definition: &Definition,
    by_event: bool,
    value: Option<Value>,
) -> Result<(), AllocError>
    ensures world { OnOk result (world_of engine.new.world ≡ told definition.now (world_of engine.old.world) by_event (option_map value_view value)) }
    ensures quiet { OnErr result (IsQuiet (world_of engine.old.world) (world_of engine.new.world)) }
    ensures same { (engine.new.stack ≡ engine.old.stack) × (engine.new.counted ≡ engine.old.counted) }
    ensures handlers { engine.new.world.handlers ≡ engine.old.world.handlers }
    ensures counted { OnOk result (KeepsCounts definition.now engine.old engine.new) }
{
    if !by_event {
        return Ok(());
    }
    say_result(engine, definition, value)
}

// Gives back the list in which the transfers of an object's emission were.
fn give_back_list(engine: &mut Engine, object: ObjectId, transfers: Transfers)
    ensures { engine.new ≡ engine.old }
{
    let due = transfers.into_due();
    engine.world.bindings.give_back(object, due);
}

// Ends an emission that was taken off and has no arguments any more. A program that waits for its result takes it, what the emission has
// accumulated and its object are let go, and its lists are given back.
#[tactic(auto, unfolding(ui_machine::specs::Rules::Accumulation::ending, ui_machine::specs::Rules::Accumulation::resulting, ui_machine::specs::Rules::EmissionPlan::signal_at, ui_machine::specs::Steps::left))]
fn end_emission(
    engine: &mut Engine,
    definition: &Definition,
    rest: EmissionFrame,
) -> Result<(), AllocError>
    requires able { Able (left engine.now.counted (ending definition.now (world_of engine.now.world) (emission_view (emitted_of rest)) (agenda_of definition.now engine.now))) }
    requires counted { Counts definition.now (λ o. same o rest.cursor.object + in_register o rest.cursor.value) engine.now }
    ensures { Executes result definition.now engine.old engine.new
        (left engine.old.counted (ending definition.now (world_of engine.old.world) (emission_view (emitted_of rest)) (agenda_of definition.now engine.old))) }
{
    // For the proof: what is known of a definition's signals, and that what is held lives and may be held once more.
    let _types = definition.types();
    never_full(engine);
    let EmissionFrame {
        cursor,
        args,
        by_event,
        transfers,
    } = rest;
    let object = cursor.object();
    let number = cursor.signal();
    let class = engine.world.table.class_of(object);
    let Some(signal) = definition.signal(class, number) else {
        unreachable!()
    };
    let held = accumulated(&cursor);
    let value = result_of(definition, signal.result, cursor.value());
    pass_down(engine, definition, &value)?;
    say_result_if(engine, definition, by_event, value)?;
    let_go_any(&mut engine.world.table, held);
    let_go_any(&mut engine.world.table, Some(object));
    engine.spare_args.give_back(args);
    give_back_list(engine, object, transfers);
    Ok(())
}

// Takes the emission off that is the first task, and ends it.
fn end_first(engine: &mut Engine, definition: &Definition) -> Result<(), AllocError>
    requires first { IsEmission engine.now }
    requires able { Able (left engine.now.counted (ending definition.now (world_of engine.now.world) (emission_view (first_emitted engine.now)) (rest_of definition.now engine.now))) }
    requires counted { Counts definition.now nothing engine.now }
    ensures { Executes result definition.now engine.old engine.new
        (left engine.old.counted (ending definition.now (world_of engine.old.world) (emission_view (first_emitted engine.old)) (rest_of definition.now engine.old))) }
{
    let rest = drop_emission(engine);
    end_emission(engine, definition, rest)
}

// Returns the registers with which the program of a turn begins: the values that it is given.
fn turn_registers(engine: &mut Engine, runs: Invocation) -> Result<Vec<Option<Value>>, AllocError>
    requires first { IsEmission engine.now }
    ensures given { IfOk result (λ registers. registers_of registers.items ≡ map (λ v. Some v) (given_around runs (map value_view (first_emitted engine.old).args))) }
    ensures same { engine.new ≡ engine.old }
{
    let mut registers = engine.spare_registers.take(engine.alloc);
    let Some(emission) = engine.stack.first_emission() else {
        unreachable!()
    };
    runs.give(&mut registers, emission.args.as_slice())?;
    Ok(registers)
}

// Begins the program of a turn, before the rest of the emission.
fn take_turn(engine: &mut Engine, definition: &Definition, turn: Turn) -> Result<(), AllocError>
    requires first { IsEmission engine.now }
    requires able { Able (uncounted_step definition.now engine.now (λ w. beginning_program definition.now w (program_of_turn turn) (given_by (emission_view (first_emitted engine.now)) turn))) }
    requires names { LeadsToLiving (uncounted_step definition.now engine.now (λ w. beginning_program definition.now w (program_of_turn turn) (given_by (emission_view (first_emitted engine.now)) turn))) }
    requires runs { RunsProgram turn }
    requires counted { Counts definition.now nothing engine.now }
    requires room { HasRoom 1 engine.now }
    ensures { Executes result definition.now engine.old engine.new
        (uncounted_step definition.now engine.old (λ w. beginning_program definition.now w (program_of_turn turn) (given_by (emission_view (first_emitted engine.old)) turn))) }
{
    let Some(emission) = engine.stack.first_emission() else {
        unreachable!()
    };
    let runs = Invocation::new(turn, emission.cursor.object());
    let registers = turn_registers(engine, runs)?;
    begin_program(engine, definition, runs.program, registers)
}

// Makes a transfer due before the rest of the emission. Its binding has not ended, and does not set.
fn take_transfer(engine: &mut Engine, definition: &Definition, due: DueTransfer)
    requires first { IsEmission engine.now }
    requires able { Able (act definition.now (world_of engine.now.world) None
        (Emitting (emission_view (first_emitted engine.now)) (entry_of due ∷ entries_left (first_emitted engine.now) engine.now.world.handlers.handlers) ∷ rest_of definition.now engine.now) engine.now.counted) }
    requires free { is_free (binding_of due.number engine.now.world.bindings.bindings) ≡ true }
    requires counted { Counts definition.now nothing engine.now }
    requires room { HasRoom 1 engine.now }
    ensures { Executes (Ok result) definition.now engine.old engine.new
        (act definition.now (world_of engine.old.world) None (Emitting (emission_view (first_emitted engine.old)) (entry_of due ∷ entries_left (first_emitted engine.old) engine.old.world.handlers.handlers) ∷ rest_of definition.now engine.old) engine.old.counted) }
{
    push_task(
        engine,
        Task::Transferring {
            number: due.number,
            back: due.back,
        },
    );
}

// Goes on with an emission whose bindings have their turn: makes the next of their transfers, or takes the next turn of a program if none
// is left, or ends the emission if there is no turn either.
fn emit_transfers(engine: &mut Engine, definition: &Definition) -> Result<(), AllocError>
    requires first { IsEmission engine.now }
    requires able { Able (act definition.now (world_of engine.now.world) None
        (past_turns (world_of engine.now.world) (first_emitting engine.now) ∷ rest_of definition.now engine.now) engine.now.counted) }
    requires names { LeadsToLiving (act definition.now (world_of engine.now.world) None
        (past_turns (world_of engine.now.world) (first_emitting engine.now) ∷ rest_of definition.now engine.now) engine.now.counted) }
    requires behind { (first_emitted engine.now).walk.stage ≡ stages.Before 0 }
    requires later { due_later (first_emitted engine.now).transfers ≡ [] }
    requires counted { Counts definition.now nothing engine.now }
    requires room { HasRoom 1 engine.now }
    ensures { Executes result definition.now engine.old engine.new
        (act definition.now (world_of engine.old.world) None (past_turns (world_of engine.old.world) (first_emitting engine.old) ∷ rest_of definition.now engine.old) engine.old.counted) }
{
    // For the proof: what is known of the numbers of handlers.
    let _last = engine.world.handlers.last();
    if let Some(due) = engine.stack.next_transfer(&engine.world.bindings) {
        take_transfer(engine, definition, due);
        return Ok(());
    }
    let Some(turn) = engine.stack.next_turn(&engine.world.handlers) else {
        return end_first(engine, definition);
    };
    take_turn(engine, definition, turn)
}

/// Takes the next turn of the emission that is the first task, or ends the emission if none is left. Handlers that are blocked have no turn,
/// and bindings that set or have ended have none either. The emission stays in its place until it ends.
///
/// # Errors
///
/// `AllocError` if memory is refused.
pub fn emit(engine: &mut Engine, definition: &Definition) -> Result<(), AllocError>
    requires first { IsEmission engine.now }
    requires able { Able (act definition.now (world_of engine.now.world) None
        (past_turns (world_of engine.now.world) (first_emitting engine.now) ∷ rest_of definition.now engine.now) engine.now.counted) }
    requires names { LeadsToLiving (act definition.now (world_of engine.now.world) None
        (past_turns (world_of engine.now.world) (first_emitting engine.now) ∷ rest_of definition.now engine.now) engine.now.counted) }
    requires counted { Counts definition.now nothing engine.now }
    requires room { HasRoom 1 engine.now }
    ensures { Executes result definition.now engine.old engine.new
        (act definition.now (world_of engine.old.world) None (past_turns (world_of engine.old.world) (first_emitting engine.old) ∷ rest_of definition.now engine.old) engine.old.counted) }
{
    // For the proof: what is known of the numbers of handlers.
    let _last = engine.world.handlers.last();
    if let Some(due) = engine.stack.next_transfer(&engine.world.bindings) {
        take_transfer(engine, definition, due);
        return Ok(());
    }
    let Some(turn) = engine.stack.next_turn(&engine.world.handlers) else {
        return end_first(engine, definition);
    };
    match turn {
        Turn::Transfers => {
            engine.stack.begin_transfers(engine.alloc);
            emit_transfers(engine, definition)
        }
        turn => take_turn(engine, definition, turn),
    }
}
