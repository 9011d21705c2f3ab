//! The references that hold objects.
//!
//! The table counts how often each object is held, and counts by itself what properties and parents hold. The builder holds what it has
//! built. A task holds its object from when it comes before the others until it is done. An emission holds its arguments and the value that
//! it has accumulated from its beginning to its end, and a program holds what its registers name.

ghost use Rattle.std.specs.Prelude.{◌≡◌, ℕ, ◌+◌, ◌<◌, ◌≤◌, ◌^◌, List, ◌∷◌, map, option_map, vec_capacity, vec_len, None, true, IsSome};
ghost use Rattle.ui_machine.specs.Definition as machine;
ghost use Rattle.ui_machine.specs.Seq.{total};
ghost use Rattle.ui_machine.specs.State.Handlers.{Handler};
ghost use Rattle.ui_machine.specs.State.Objects.{living};
ghost use Rattle.ui_machine.specs.State.References.{in_option, in_register, in_value};
ghost use Rattle.g_values.specs.View.{value_view};
ghost use Rattle.bytecode.specs.Computing.{registers_of};
ghost use Rattle.instance_tables.specs.Store.{id_of, count_of, may_hold, named_by};
ghost use Rattle.engine_stack.specs.KnownHandlers.{TakesKnownHandlers};
ghost use Rattle.engine_world.specs.Room.{TakesRoom};
ghost use Rattle.engine_world.specs.View.{world_of};
ghost use Rattle.engine_stack.specs.TaskFrames.{IsFrameless};
ghost use Rattle.engine_world.specs.TaskView.{task_in, agenda_of};
ghost use Rattle.engine_stack.specs.TaskView.{task_of};
ghost use Rattle.engine_world.specs.Counting.{Connects, IsCounted, MayHold, MayPush, OnlyCounts, KeepsCounts};
ghost use Rattle.engine_stack.specs.HeldByTasks.{in_given, in_subject};

use crate::engine::Engine;
use engine_stack::Task;
use g_values::Value;
use instance_tables::Table;
use signal_core::Cursor;
use ui_machine::ObjectId;

/// Holds an object once more, if there is one. It has to live, and its count must not be at its end.
#[inline(always)]
pub fn hold_any(table: &mut Table, id: Option<ObjectId>)
    requires may { MayHold table.now (λ o. in_option o (id_of id)) }
    ensures only { OnlyCounts table.old table.new }
    ensures counts { (o : ℕ) → count_of table.new.counts o ≡ count_of table.old.counts o + in_option o (id_of id) }
{
    let Some(id) = id else {
        return;
    };
    table.hold(id);
}

/// Lets an object go once, if there is one.
#[inline(always)]
pub fn let_go_any(table: &mut Table, id: Option<ObjectId>)
    requires held { (o : ℕ) → in_option o (id_of id) ≤ count_of table.now.counts o }
    ensures only { OnlyCounts table.old table.new }
    ensures counts { (o : ℕ) → count_of table.new.counts o + in_option o (id_of id) ≡ count_of table.old.counts o }
{
    let Some(id) = id else {
        return;
    };
    table.let_go(id);
}

/// Returns the object that a value names, if it names one.
pub fn named(value: &Value) -> Option<ObjectId>
    ensures { id_of result ≡ named_by (value_view value.now) }
{
    match value {
        Value::Object(_, id) => *id,
        _ => None,
    }
}

/// Holds once more each object that one of these values names.
fn hold_values(table: &mut Table, values: &[Value])
    requires may { MayHold table.now (λ o. total (in_value o) (map value_view values.now)) }
    ensures only { OnlyCounts table.old table.new }
    ensures counts { (o : ℕ) → count_of table.new.counts o ≡ count_of table.old.counts o + total (in_value o) (map value_view values.now) }
{
    for value in values {
        hold_any(table, named(value));
    }
}

/// Lets go each object that one of these values names.
pub fn let_go_values(table: &mut Table, values: &[Value])
    requires held { (o : ℕ) → total (in_value o) (map value_view values.now) ≤ count_of table.now.counts o }
    ensures only { OnlyCounts table.old table.new }
    ensures counts { (o : ℕ) → count_of table.new.counts o + total (in_value o) (map value_view values.now) ≡ count_of table.old.counts o }
{
    for value in values {
        let_go_any(table, named(value));
    }
}

/// Returns the object that an emission's accumulated value names, if it names one.
pub fn accumulated(cursor: &Cursor) -> Option<ObjectId>
    ensures { (o : ℕ) → in_option o (id_of result) ≡ in_register o cursor.now.value }
{
    match cursor.accumulated() {
        Some(value) => named(value),
        None => None,
    }
}

/// Returns the object that a register names, if it names one.
pub(crate) fn register_named(register: &Option<Value>) -> Option<ObjectId>
    ensures { (o : ℕ) → in_option o (id_of result) ≡ in_register o (option_map value_view register.now) }
{
    match register {
        Some(value) => named(value),
        None => None,
    }
}

/// Holds once more each object that one of these registers names.
pub(crate) fn hold_registers(table: &mut Table, registers: &[Option<Value>])
    requires may { MayHold table.now (λ o. total (in_register o) (registers_of registers.now)) }
    ensures only { OnlyCounts table.old table.new }
    ensures counts { (o : ℕ) → count_of table.new.counts o ≡ count_of table.old.counts o + total (in_register o) (registers_of registers.now) }
{
    for register in registers {
        hold_any(table, register_named(register));
    }
}

/// Lets go each object that one of these registers names.
pub fn let_go_registers(table: &mut Table, registers: &[Option<Value>])
    requires held { (o : ℕ) → total (in_register o) (registers_of registers.now) ≤ count_of table.now.counts o }
    ensures only { OnlyCounts table.old table.new }
    ensures counts { (o : ℕ) → count_of table.new.counts o + total (in_register o) (registers_of registers.now) ≡ count_of table.old.counts o }
{
    for register in registers {
        let_go_any(table, register_named(register));
    }
}

// Holds what a task names beside its own object: the arguments of an emission that is to begin, or of a call. The task is no frame with values.
fn hold_given(table: &mut Table, task: &Task)
    requires frameless { IsFrameless task.now }
    requires may { (d : machine.Definition) (hs : List Handler) → MayHold table.now (λ o. in_given o (task_of d hs task.now)) }
    ensures only { OnlyCounts table.old table.new }
    ensures counts { (d : machine.Definition) (hs : List Handler) (o : ℕ) → count_of table.new.counts o ≡ count_of table.old.counts o + in_given o (task_of d hs task.now) }
{
    match task {
        Task::Beginning(emission) => hold_values(table, emission.args.as_slice()),
        Task::Emitting(_) => unreachable!(),
        Task::Setting { .. } => {}
        Task::Notifying { .. } => {}
        Task::Transferring { .. } => {}
        Task::Unsetting { .. } => {}
        Task::Running(_) => unreachable!(),
        Task::Thawing { .. } => {}
        Task::Constructing(_) => {}
        Task::Building { .. } => {}
        Task::Adopting { .. } => {}
        Task::Binding { .. } => {}
        Task::Connecting { .. } => {}
        Task::Answering { .. } => {}
        Task::Calling(call) => hold_values(table, call.args.as_slice()),
        Task::Handling(_) => {}
        Task::Due { .. } => {}
    }
}

/// Shows the prover that what lives may be held once more: where each object is counted as often as it is mentioned, no count is at its
/// end, since what is counted is kept in lists, and no list is longer than memory. What does not live is not counted. It looks at no
/// object.
pub fn never_full(engine: &Engine)
    ensures may { (d : machine.Definition) → IsCounted d engine.now → (o : ℕ) → IsSome (living engine.now.world.table.objects o) → may_hold engine.now.world.table o ≡ true }
    ensures room { (d : machine.Definition) → IsCounted d engine.now → (o : ℕ) → count_of engine.now.world.table.counts o + 2 ^ 64 < 2 ^ 128 }
    ensures dead { (o : ℕ) → living engine.now.world.table.objects o ≡ None → count_of engine.now.world.table.counts o ≡ 0 }
{
    engine.world.table.hold_few();
    engine.world.context.len();
    engine.world.table.next_unheld();
}

/// Puts a task before the others, in the room that is there. From then on it holds its objects, which have to live. It is neither a program
/// nor an emission that goes on.
pub fn push_task(engine: &mut Engine, task: Task)
    requires frameless { IsFrameless task }
    requires begun { TakesKnownHandlers engine.now.world.handlers.last task }
    requires may { MayPush engine.now task }
    requires room { vec_len engine.now.stack.tasks < vec_capacity engine.now.stack.tasks }
    ensures agenda { (d : machine.Definition) → agenda_of d engine.new ≡ task_in d engine.old task ∷ agenda_of d engine.old }
    ensures world { world_of engine.new.world ≡ world_of engine.old.world }
    ensures same { engine.new.counted ≡ engine.old.counted }
    ensures handlers { engine.new.world.handlers ≡ engine.old.world.handlers }
    ensures counted { (d : machine.Definition) → KeepsCounts d engine.old engine.new }
    ensures connects { (d : machine.Definition) → Connects d engine.old → Connects d engine.new }
    ensures room { TakesRoom 1 engine.old engine.new }
{
    // For the proof: what lives may be held so often.
    never_full(engine);
    hold_any(&mut engine.world.table, task.object());
    hold_given(&mut engine.world.table, &task);
    engine.stack.push_task(task);
}
