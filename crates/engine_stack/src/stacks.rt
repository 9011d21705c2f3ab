//! The stack of the frames and the tasks that are left.

ghost use Rattle.std.specs.Prelude.{◌≡◌, ◌+◌, ◌*◌, ◌<◌, ◌≤◌, ℕ, List, None, Some, [], ◌∷◌, drop, false, length, map, option_and_then, option_map, slice_get, vec_capacity, vec_len, IfOk, IfSome, IsSome, MatchOption};
ghost use Rattle.std.specs.List.{list_any};
ghost use Rattle.ui_machine.specs.Seq.{read, write};
ghost use Rattle.g_values.specs.View.{value_view};
ghost use Rattle.bytecode.specs.View.{instruction_view, number_of, program_view};
ghost use Rattle.frames.specs.FrameView.{Takes, at_block, taken_in};
ghost use Rattle.engine_stack.specs.BuildTasks.{is_of_build};
ghost use Rattle.engine_stack.specs.TaskFrames.{HasPlaces, IsFrameless, IsStocked, args_used, framed, registers_used};

use crate::stocks::Stock;
use crate::task::Task;
use bytecode::{BlockNumber, Instruction, Program, Register};
use frames::Frame;
use g_values::Value;
use std::alloc::{AllocError, Global};
use ui_machine::ProgramId;

/// The frames of a run and the tasks that lie between them, the first on top, in room that is reserved once. A frame is what is left of a
/// program, of an emission or of a construction. The tasks of the build lie at the bottom. For every second task that has room there is a
/// vector for registers and one for arguments, so that programs and emissions ask for no memory to begin while they are fewer than half of
/// what has room.
#[derive(Drop)]
pub struct Frames {
    pub tasks: Vec<Task>,
    // How many tasks from the bottom are looked through for those of the build. No task above them is one.
    pub(crate) lowest: usize,
    // The vectors that are left for the registers of programs.
    pub(crate) registers: Stock<Option<Value>>,
    // The vectors that are left for the arguments of emissions.
    pub(crate) args: Stock<Value>,
    ghost within: { lowest ≤ length tasks.items },
    ghost above: { list_any is_of_build (drop lowest tasks.items) ≡ false },
    ghost programs: { IsStocked registers_used tasks registers },
    ghost emissions: { IsStocked args_used tasks args },
}

impl Frames {
    ghost use Rattle.ui_machine.specs.Definition as machine;
    ghost use Rattle.ui_machine.specs.Definition.Values as machine_values;
    ghost use Rattle.ui_machine.specs.State.Tasks as config;
    ghost use Rattle.ui_machine.specs.State.Handlers.{Handler};
    ghost use Rattle.ui_machine.specs.Rules.Programs.{first_frame};
    ghost use Rattle.ui_machine.specs.Rules.Build.{of_items};
    ghost use Rattle.ui_machine.specs.Seq.{total};
    ghost use Rattle.engine_stack.specs.FirstConstructions.{construction_in, first_construction};
    ghost use Rattle.engine_stack.specs.FirstEmissions.{emission_in, first_emission};
    ghost use Rattle.engine_stack.specs.FirstPrograms.{IsRewritten, first_program, program_in, stack_frame};
    ghost use Rattle.bytecode.specs.Computing.{registers_of};
    ghost use Rattle.engine_stack.specs.KnownHandlers.{AllTakeKnownHandlers, TakesKnownHandlers};
    ghost use Rattle.engine_stack.specs.TaskView.{task_of, tasks_of};

    /// Creates an empty stack with room for `depth` frames, and for one task between every two of them, and for four more. There are two
    /// vectors more than that for registers and for arguments, each with room for `width` values.
    ///
    /// # Errors
    ///
    /// `AllocError` if memory is refused. No other call asks for memory.
    pub fn new(alloc: Global, depth: u32, width: usize) -> Result<Self, AllocError>
        ensures tasks { IfOk result (λ s. (d : machine.Definition) (hs : List Handler) → tasks_of d hs s ≡ []) }
        ensures begun { IfOk result (λ s. (last : ℕ) → AllTakeKnownHandlers last s) }
        ensures empty { IfOk result (λ s. s.tasks.items ≡ []) }
        ensures room { IfOk result (λ s. vec_capacity s.tasks ≡ 2 * depth + 4) }
        ensures vectors { IfOk result (λ s. (s.registers.room ≡ width) × (s.args.room ≡ width)) }
    {
        let frames = depth as usize;
        Ok(Frames {
            tasks: Vec::with_capacity(alloc, 2 * frames + 4)?,
            lowest: 0,
            registers: Stock::new(alloc, frames + 2, width)?,
            args: Stock::new(alloc, frames + 2, width)?,
        })
    }

    /// Puts a task before the others, in the room that is there. It is neither a program nor an emission that goes on.
    pub fn push_task(&mut self, task: Task)
        requires frameless { IsFrameless task }
        requires room { vec_len self.now.tasks < vec_capacity self.now.tasks }
        ensures tasks { (d : machine.Definition) (hs : List Handler) → tasks_of d hs self.new ≡ task_of d hs task ∷ tasks_of d hs self.old }
        ensures begun { (last : ℕ) → TakesKnownHandlers last task → AllTakeKnownHandlers last self.old → AllTakeKnownHandlers last self.new }
        ensures taken { vec_len self.new.tasks ≡ vec_len self.old.tasks + 1 }
        ensures frames { framed self.new.tasks ≡ framed self.old.tasks }
        ensures room { vec_capacity self.new.tasks ≡ vec_capacity self.old.tasks }
    {
        let is_of_build = task.is_of_build();
        self.tasks.push_reserved(task);
        if is_of_build {
            self.lowest = self.tasks.len();
        }
    }

    /// Puts a program that begins before the other tasks, with these values in its first registers. The list of the values has room for all
    /// registers of the program, and is empty afterwards.
    pub fn push_program(
        &mut self,
        alloc: Global,
        number: ProgramId,
        program: &Program,
        values: &mut Vec<Option<Value>>,
    )
        requires list { program.now.registers ≤ vec_capacity values.now }
        requires room { HasPlaces 1 self.now.tasks }
        ensures tasks { (d : machine.Definition) (hs : List Handler) (args : List machine_values.Value) → registers_of values.old.items ≡ map (λ v. Some v) args
            → tasks_of d hs self.new ≡ config.Running (first_frame number (program_view program.now) args) ∷ tasks_of d hs self.old }
        ensures emptied { values.new.items ≡ [] }
        ensures begun { (last : ℕ) → AllTakeKnownHandlers last self.old → AllTakeKnownHandlers last self.new }
        ensures taken { vec_len self.new.tasks ≡ vec_len self.old.tasks + 1 }
        ensures frames { framed self.new.tasks ≡ framed self.old.tasks + 1 }
        ensures room { vec_capacity self.new.tasks ≡ vec_capacity self.old.tasks }
    {
        let registers = self.registers.keep(alloc, values);
        let frame = Frame::new(number, program, registers);
        self.tasks.push_reserved(Task::Running(frame));
    }

    /// Takes the program off that is the first task, and drops what its registers hold.
    pub fn drop_program(&mut self, alloc: Global)
        requires there { IsSome (first_program self.now.tasks.items) }
        ensures tasks { (d : machine.Definition) (hs : List Handler) → tasks_of d hs self.new ≡ drop 1 (tasks_of d hs self.old) }
        ensures begun { (last : ℕ) → AllTakeKnownHandlers last self.old → AllTakeKnownHandlers last self.new }
        ensures given { vec_len self.old.tasks ≡ vec_len self.new.tasks + 1 }
        ensures frames { framed self.old.tasks ≡ framed self.new.tasks + 1 }
        ensures room { vec_capacity self.new.tasks ≡ vec_capacity self.old.tasks }
    {
        let Some(task) = self.tasks.pop() else {
            unreachable!()
        };
        let Task::Running(frame) = task else {
            unreachable!()
        };
        self.lowest = self.lowest.min(self.tasks.len());
        self.registers.give_back(alloc, frame.registers);
    }

    /// Returns the first task, if there is one.
    pub fn first(&self) -> Option<&Task>
        ensures tasks { (d : machine.Definition) (hs : List Handler) → MatchOption result (tasks_of d hs self.now ≡ [])
            (λ task. (rest : List config.Task) × (tasks_of d hs self.now ≡ task_of d hs task.now ∷ rest)) }
        ensures program { option_and_then (λ task. program_in task.now) result ≡ first_program self.now.tasks.items }
        ensures emission { option_and_then (λ task. emission_in task.now) result ≡ first_emission self.now.tasks.items }
    {
        self.tasks.last()
    }

    /// Returns the first task, if it is a program.
    pub fn first_program(&self) -> Option<&Frame>
        ensures { option_map (λ f. f.now) result ≡ first_program self.now.tasks.items }
    {
        let Some(task) = self.tasks.last() else {
            return None;
        };
        match task {
            Task::Running(frame) => Some(frame),
            _ => None,
        }
    }

    /// Takes the next instruction of the program that is the first task, or returns `None` if the program has none there.
    pub fn take_first<'a>(&mut self, program: &'a Program) -> Option<&'a Instruction>
        requires there { IsSome (first_program self.now.tasks.items) }
        ensures taken { Takes (option_map (λ i. instruction_view i.now) result) (taken_in (program_view program.now) (stack_frame self.old)) (stack_frame self.new) }
        ensures rewritten { IsRewritten self.old self.new }
        ensures begun { (last : ℕ) → AllTakeKnownHandlers last self.old → AllTakeKnownHandlers last self.new }
        ensures frames { framed self.new.tasks ≡ framed self.old.tasks }
        ensures room { (vec_len self.new.tasks ≡ vec_len self.old.tasks) × (vec_capacity self.new.tasks ≡ vec_capacity self.old.tasks) }
    {
        let Some(task) = self.tasks.last_mut() else {
            unreachable!()
        };
        let Task::Running(frame) = task else {
            unreachable!()
        };
        frame.take(program)
    }

    /// Writes or unsets a register of the program that is the first task. Returns what the register held.
    pub fn put_first(&mut self, to: Register, value: Option<Value>) -> Option<Value>
        requires there { IsSome (first_program self.now.tasks.items) }
        requires register { to.0 < length (stack_frame self.now).registers }
        ensures written { stack_frame self.new ≡ record (stack_frame self.old) { registers = write None (stack_frame self.old).registers to.0 (option_map value_view value) } }
        ensures held { option_map value_view result ≡ read None (stack_frame self.old).registers to.0 }
        ensures rewritten { IsRewritten self.old self.new }
        ensures begun { (last : ℕ) → AllTakeKnownHandlers last self.old → AllTakeKnownHandlers last self.new }
        ensures frames { framed self.new.tasks ≡ framed self.old.tasks }
        ensures room { (vec_len self.new.tasks ≡ vec_len self.old.tasks) × (vec_capacity self.new.tasks ≡ vec_capacity self.old.tasks) }
    {
        let Some(task) = self.tasks.last_mut() else {
            unreachable!()
        };
        let Task::Running(frame) = task else {
            unreachable!()
        };
        frame.put(to, value)
    }

    /// Makes the program that is the first task go on at a block of it.
    pub fn jump_first(&mut self, program: &Program, to: BlockNumber)
        requires there { IsSome (first_program self.now.tasks.items) }
        requires block { IsSome (slice_get (program_view program.now).blocks to.0) }
        ensures jumped { option_map (at_block to.0 (stack_frame self.old)) (slice_get (program_view program.now).blocks to.0) ≡ Some (stack_frame self.new) }
        ensures rewritten { IsRewritten self.old self.new }
        ensures begun { (last : ℕ) → AllTakeKnownHandlers last self.old → AllTakeKnownHandlers last self.new }
        ensures frames { framed self.new.tasks ≡ framed self.old.tasks }
        ensures room { (vec_len self.new.tasks ≡ vec_len self.old.tasks) × (vec_capacity self.new.tasks ≡ vec_capacity self.old.tasks) }
    {
        let Some(task) = self.tasks.last_mut() else {
            unreachable!()
        };
        let Task::Running(frame) = task else {
            unreachable!()
        };
        frame.jump(program, to);
    }

    /// Makes the program that is the first task wait for a result, which goes to this register, or for none.
    pub fn wait_first(&mut self, into: Option<Register>)
        requires there { IsSome (first_program self.now.tasks.items) }
        ensures waits { stack_frame self.new ≡ record (stack_frame self.old) { into = option_map number_of into } }
        ensures rewritten { IsRewritten self.old self.new }
        ensures begun { (last : ℕ) → AllTakeKnownHandlers last self.old → AllTakeKnownHandlers last self.new }
        ensures frames { framed self.new.tasks ≡ framed self.old.tasks }
        ensures room { (vec_len self.new.tasks ≡ vec_len self.old.tasks) × (vec_capacity self.new.tasks ≡ vec_capacity self.old.tasks) }
    {
        let Some(task) = self.tasks.last_mut() else {
            unreachable!()
        };
        let Task::Running(frame) = task else {
            unreachable!()
        };
        frame.into = into;
    }

    /// Takes the first task off, if there is one. It is neither a program nor an emission that goes on. Its room is free again.
    pub fn pop_task(&mut self) -> Option<Task>
        requires program { first_program self.now.tasks.items ≡ None }
        requires emission { first_emission self.now.tasks.items ≡ None }
        ensures tasks { (d : machine.Definition) (hs : List Handler) → MatchOption result
            ((tasks_of d hs self.old ≡ []) × (tasks_of d hs self.new ≡ []))
            (λ task. tasks_of d hs self.old ≡ task_of d hs task ∷ tasks_of d hs self.new) }
        ensures begun { (last : ℕ) → AllTakeKnownHandlers last self.old → AllTakeKnownHandlers last self.new }
        ensures first { IfSome result (λ task. (last : ℕ) → AllTakeKnownHandlers last self.old → TakesKnownHandlers last task) }
        ensures frameless { IfSome result IsFrameless }
        ensures construction { option_and_then construction_in result ≡ first_construction self.old.tasks.items }
        ensures given { MatchOption result (vec_len self.new.tasks ≡ vec_len self.old.tasks) (λ _. vec_len self.old.tasks ≡ vec_len self.new.tasks + 1) }
        ensures free { IfSome result (λ _. vec_len self.new.tasks < vec_capacity self.new.tasks) }
        ensures frames { framed self.new.tasks ≡ framed self.old.tasks }
        ensures room { vec_capacity self.new.tasks ≡ vec_capacity self.old.tasks }
    {
        let task = self.tasks.pop();
        self.lowest = self.lowest.min(self.tasks.len());
        task
    }

    /// Returns the lowest tasks, among which are all tasks of the build. So all that the build has still to make and to connect is theirs.
    pub fn of_build(&self) -> &[Task]
        ensures { (g : config.Item → ℕ) (d : machine.Definition) (hs : List Handler) → total (of_items g) (map (task_of d hs) result.now) ≡ total (of_items g) (tasks_of d hs self.now) }
    {
        &self.tasks[..self.lowest]
    }
}
