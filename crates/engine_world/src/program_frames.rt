//! The program that is the first task: what its registers hold, and the result that it waits for. It stays in its place.

ghost use Rattle.std.specs.Prelude.{◌≡◌, ℕ, ◌+◌, ◌<◌, ◌≤◌, [], ◌∷◌, None, Some, Ok, option_map, vec_capacity, OnOk};
ghost use Rattle.ui_machine.specs.Seq.{total, write};
ghost use Rattle.ui_machine.specs.Rules.Programs.{first_frame as beginning_frame};
ghost use Rattle.instance_tables.specs.Store.{count_of};
ghost use Rattle.ui_machine.specs.Definition as machine;
ghost use Rattle.ui_machine.specs.Instructions.Registers.{with_register};
ghost use Rattle.engine_world.specs.Able.{Able, Leads};
ghost use Rattle.ui_machine.specs.Rules.Accumulation.{passed_down, received, received_by, taken};
ghost use Rattle.ui_machine.specs.State.References.{in_register, in_value};
ghost use Rattle.ui_machine.specs.State.Tasks.{Running};
ghost use Rattle.g_values.specs.View.{value_view};
ghost use Rattle.bytecode.specs.Computing.{registers_of};
ghost use Rattle.bytecode.specs.View.{program_view};
ghost use Rattle.frames.specs.FrameView.{AreSet, frame_view, set_values};
ghost use Rattle.engine_world.specs.FirstPrograms.{IsProgram, first_frame, rest_of};
ghost use Rattle.engine_world.specs.Room.{HasRoom, SameRoom, TakesFrame, TakesRoom};
ghost use Rattle.engine_world.specs.TaskView.{agenda_of};
ghost use Rattle.engine_world.specs.View.{world_of};
ghost use Rattle.engine_world.specs.Counting.{HoldsTasks, KeepsCounts, MayBeHeld, MayHold, OnlyTasks};
ghost use Rattle.engine_stack.specs.HeldByTasks.{in_frame};

use crate::engine::Engine;
use crate::references::{
    hold_any, hold_registers, let_go_any, let_go_registers, never_full, register_named,
};
use bytecode::{Program, Register};
use definitions::Definition;
use frames::Frame;
use g_values::Value;
use std::alloc::AllocError;
use ui_machine::ProgramId;

/// Returns the program that is the first task.
#[inline(always)]
pub fn first_frame(engine: &Engine) -> &Frame
    requires first { IsProgram engine.now }
    ensures { frame_view result.now ≡ first_frame engine.now }
{
    let Some(frame) = engine.stack.first_program() else {
        unreachable!()
    };
    frame
}

/// Returns the registers of the program that is the first task.
#[inline(always)]
pub fn first_registers(engine: &Engine) -> &[Option<Value>]
    requires first { IsProgram engine.now }
    ensures { registers_of result.now ≡ (first_frame engine.now).registers }
{
    first_frame(engine).registers.as_slice()
}

/// Writes a value to a register of the program that is the first task, or unsets it. The object that the register names then is held, and
/// the one that it named before is let go.
#[inline(always)]
pub fn put(engine: &mut Engine, definition: &Definition, to: Register, value: Option<Value>)
    requires first { IsProgram engine.now }
    requires able { Able (with_register to.0 (option_map value_view value) (first_frame engine.now).registers) }
    requires held { HoldsTasks definition.now engine.now }
    requires may { MayHold engine.now.world.table (λ o. in_register o (option_map value_view value)) }
    ensures agenda { agenda_of definition.now engine.new
        ≡ Running (record (first_frame engine.old) { registers = write None (first_frame engine.old).registers to.0 (option_map value_view value) }) ∷ rest_of definition.now engine.old }
    ensures only { OnlyTasks engine.old engine.new }
    ensures counted { KeepsCounts definition.now engine.old engine.new }
    ensures room { TakesRoom 0 engine.old engine.new }
{
    hold_any(&mut engine.world.table, register_named(&value));
    let held = engine.stack.put_first(to, value);
    let_go_any(&mut engine.world.table, register_named(&held));
}

/// Begins a program before the other tasks, with these values in its first registers. All of them are set, and what they name has to live.
/// From then on the program holds it. The list of the values has room for all registers of the program, and is empty afterwards.
pub fn push_program(
    engine: &mut Engine,
    number: ProgramId,
    program: &Program,
    values: &mut Vec<Option<Value>>,
)
    requires list { program.now.registers ≤ vec_capacity values.now }
    requires set { AreSet (registers_of values.now.items) }
    requires may { (o : ℕ) → 0 < total (in_register o) (registers_of values.now.items) → MayBeHeld engine.now o }
    requires room { HasRoom 1 engine.now }
    ensures agenda { (d : machine.Definition) → agenda_of d engine.new
        ≡ Running (beginning_frame number (program_view program.now) (set_values (registers_of values.old.items))) ∷ agenda_of d engine.old }
    ensures emptied { values.new.items ≡ [] }
    ensures world { world_of engine.new.world ≡ world_of engine.old.world }
    ensures same { engine.new.counted ≡ engine.old.counted }
    ensures handlers { engine.new.world.handlers ≡ engine.old.world.handlers }
    ensures counted { (d : machine.Definition) → KeepsCounts d engine.old engine.new }
    ensures room { TakesFrame engine.old engine.new }
{
    // For the proof: what lives may be held so often.
    never_full(engine);
    hold_registers(&mut engine.world.table, values.as_slice());
    engine
        .stack
        .push_program(engine.alloc, number, program, values);
}

/// Takes the program off that is the first task. What its registers name is let go.
pub fn drop_program(engine: &mut Engine)
    requires first { IsProgram engine.now }
    requires held { (o : ℕ) → in_frame o (first_frame engine.now) ≤ count_of engine.now.world.table.counts o }
    ensures agenda { (d : machine.Definition) → agenda_of d engine.new ≡ rest_of d engine.old }
    ensures only { OnlyTasks engine.old engine.new }
    ensures counts { (o : ℕ) → count_of engine.new.world.table.counts o + in_frame o (first_frame engine.old) ≡ count_of engine.old.world.table.counts o }
    ensures counted { (d : machine.Definition) → KeepsCounts d engine.old engine.new }
    ensures room { SameRoom engine.old engine.new }
{
    let Some(frame) = engine.stack.first_program() else {
        unreachable!()
    };
    let_go_registers(&mut engine.world.table, frame.registers.as_slice());
    engine.stack.drop_program(engine.alloc);
}

// Writes a result to the register of the first task, a program, that waited for it.
fn receive(engine: &mut Engine, definition: &Definition, to: Register, value: Value)
    requires first { IsProgram engine.now }
    requires able { Able (with_register to.0 (Some (value_view value)) (first_frame engine.now).registers) }
    requires held { HoldsTasks definition.now engine.now }
    requires may { MayHold engine.now.world.table (λ o. in_value o (value_view value)) }
    ensures agenda { received_by (first_frame engine.old) (rest_of definition.now engine.old) to.0 (Some (value_view value)) ≡ Ok (agenda_of definition.now engine.new) }
    ensures only { OnlyTasks engine.old engine.new }
    ensures counted { KeepsCounts definition.now engine.old engine.new }
    ensures room { SameRoom engine.old engine.new }
{
    engine.stack.wait_first(None);
    put(engine, definition, to, Some(value));
}

// Gives the result of the emission above it to the first task, a program, if the program waits for one.
fn pass_to(
    engine: &mut Engine,
    definition: &Definition,
    value: &Option<Value>,
) -> Result<(), AllocError>
    requires first { IsProgram engine.now }
    requires able { Able (taken (first_frame engine.now).into (first_frame engine.now) [] (option_map value_view value.now)) }
    requires held { HoldsTasks definition.now engine.now }
    requires may { MayHold engine.now.world.table (λ o. in_register o (option_map value_view value.now)) }
    ensures agenda { Leads result (taken (first_frame engine.old).into (first_frame engine.old) (rest_of definition.now engine.old) (option_map value_view value.now)) (agenda_of definition.now engine.new) }
    ensures only { OnlyTasks engine.old engine.new }
    ensures counted { OnOk result (KeepsCounts definition.now engine.old engine.new) }
    ensures room { SameRoom engine.old engine.new }
{
    let Some(to) = first_frame(engine).into else {
        return Ok(());
    };
    let Some(value) = value else { unreachable!() };
    let value = value.copied()?;
    receive(engine, definition, to, value);
    Ok(())
}

/// Gives the answer of a peer to the first task, which is the program that called.
pub fn pass_answer(engine: &mut Engine, definition: &Definition, to: Register, value: Value)
    requires able { Able (received (agenda_of definition.now engine.now) to.0 (Some (value_view value))) }
    requires held { HoldsTasks definition.now engine.now }
    requires may { MayHold engine.now.world.table (λ o. in_value o (value_view value)) }
    ensures agenda { received (agenda_of definition.now engine.old) to.0 (Some (value_view value)) ≡ Ok (agenda_of definition.now engine.new) }
    ensures only { OnlyTasks engine.old engine.new }
    ensures counted { KeepsCounts definition.now engine.old engine.new }
    ensures room { SameRoom engine.old engine.new }
{
    receive(engine, definition, to, value);
}

/// Gives the result of an emission to the first task, if that is a program that waits for it.
///
/// # Errors
///
/// `AllocError` if memory is refused.
pub fn pass_down(
    engine: &mut Engine,
    definition: &Definition,
    value: &Option<Value>,
) -> Result<(), AllocError>
    requires able { Able (passed_down (agenda_of definition.now engine.now) (option_map value_view value.now)) }
    requires held { HoldsTasks definition.now engine.now }
    requires may { MayHold engine.now.world.table (λ o. in_register o (option_map value_view value.now)) }
    ensures agenda { Leads result (passed_down (agenda_of definition.now engine.old) (option_map value_view value.now)) (agenda_of definition.now engine.new) }
    ensures only { OnlyTasks engine.old engine.new }
    ensures counted { OnOk result (KeepsCounts definition.now engine.old engine.new) }
    ensures room { SameRoom engine.old engine.new }
{
    if engine.stack.first_program().is_none() {
        return Ok(());
    }
    pass_to(engine, definition, value)
}
