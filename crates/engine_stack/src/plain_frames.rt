//! Frames that are pushed and popped as what they are, with nothing to them but their values.

ghost use Rattle.std.specs.Prelude.{◌≡◌, ◌+◌, ◌<◌, ◌≤◌, [], ◌∷◌, ◌++◌, false, map, option_map, vec_capacity, vec_len, MatchOption, Some};
ghost use Rattle.engine_stack.specs.BuildTasks.{is_of_build};
ghost use Rattle.engine_stack.specs.ListedFrames.{KeepsRoom, Pops, TakesOff, frames_of, given_values, listed, values_kept};
ghost use Rattle.engine_stack.specs.TaskFrames.{HasPlaces, args_used, framed, registers_used};

use crate::construction_frames::ConstructionFrame;
use crate::emission_frames::EmissionFrame;
use crate::stacks::Frames;
use crate::stocks::Stock;
use crate::task::{ConstructSteps, Task, Transfers};
use bytecode::BlockNumber;
use g_values::Value;
use signal_core::Cursor;
use ui_machine::{ObjectId, ProgramId};

/// What is left of a program, of an emission or of a construction.
#[derive(Debug, Drop)]
pub enum Frame {
    /// A program, by its number.
    Program(ProgramId),
    Emission(Cursor),
    /// The construction of an object.
    Construction(ObjectId),
}

// Moves values into registers, in their order. There is room for them.
fn fill(registers: &mut Vec<Option<Value>>, values: &mut Vec<Value>)
    requires empty { registers.now.items ≡ [] }
    requires room { vec_len values.now ≤ vec_capacity registers.now }
    ensures filled { registers.new.items ≡ map (λ v. Some v) values.old.items }
    ensures emptied { values.new.items ≡ [] }
    ensures room { vec_capacity registers.new ≡ vec_capacity registers.old }
{
    values.reverse();
    while let Some(value) = values.pop() {
        registers.push_reserved(Some(value));
    }
}

// Makes the task that a frame is, with a vector of a stock for its values.
fn framed_task(
    registers: &mut Stock<Option<Value>>,
    args: &mut Stock<Value>,
    frame: Frame,
    values: &mut Vec<Value>,
) -> Task
    requires registers { 0 < registers.now.count }
    requires args { 0 < args.now.count }
    requires few { vec_len values.now ≤ registers.now.room }
    ensures listed { listed result ≡ Some (record { frame = frame; values = values_kept frame (given_values values.old.items) }) }
    ensures other { is_of_build result ≡ false }
    ensures emptied { values.new.items ≡ [] }
    ensures registers { (registers.new.count + registers_used registers.old.room result ≡ registers.old.count)
        × (registers.new ≡ record registers.old { count = registers.new.count }) }
    ensures args { (args.new.count + args_used args.old.room result ≡ args.old.count) × (args.new ≡ record args.old { count = args.new.count }) }
{
    let alloc = *values.allocator();
    match frame {
        Frame::Program(program) => {
            let mut first = registers.take();
            fill(&mut first, values);
            Task::Running(frames::Frame {
                program,
                block: BlockNumber(0),
                at: 0,
                passes: 1,
                into: None,
                registers: first,
            })
        }
        Frame::Emission(cursor) => Task::Emitting(EmissionFrame {
            cursor,
            args: args.keep(alloc, values),
            by_event: false,
            transfers: Transfers::new(alloc),
        }),
        Frame::Construction(object) => {
            values.clear();
            Task::Constructing(ConstructionFrame {
                object,
                steps: ConstructSteps::new(Vec::new(alloc)),
                held: false,
            })
        }
    }
}

// Gives the vector of a task back to its stock. Returns the frame that the task is, if it is one.
fn give_back(
    registers: &mut Stock<Option<Value>>,
    args: &mut Stock<Value>,
    task: Task,
) -> Option<Frame>
    requires registers { registers.now.count + registers_used registers.now.room task ≤ registers.now.most }
    requires args { args.now.count + args_used args.now.room task ≤ args.now.most }
    ensures frame { result ≡ option_map (λ s. s.frame) (listed task) }
    ensures registers { registers.new ≡ record registers.old { count = registers.old.count + registers_used registers.old.room task } }
    ensures args { args.new ≡ record args.old { count = args.old.count + args_used args.old.room task } }
{
    match task {
        Task::Running(frame) => {
            registers.give_back(*frame.registers.allocator(), frame.registers);
            Some(Frame::Program(frame.program))
        }
        Task::Emitting(emission) => {
            args.give_back(*emission.args.allocator(), emission.args);
            Some(Frame::Emission(emission.cursor))
        }
        Task::Constructing(construction) => Some(Frame::Construction(construction.object)),
        _ => None,
    }
}

impl Frames {
    /// Pushes a frame. It keeps the values that it is given, in a vector that was reserved for it, and their vector is empty afterwards. A
    /// program begins at its first instruction with them in its first registers. A construction has no values, and those that it is given
    /// are dropped. No memory is asked for: there has to be room for one task, fewer than half of what has room may be programs and
    /// emissions, and there may be at most as many values as the stack is wide.
    pub fn push(&mut self, frame: Frame, values: &mut Vec<Value>)
        requires places { HasPlaces 1 self.now.tasks }
        requires few { vec_len values.now ≤ self.now.registers.room }
        ensures pushed { frames_of self.new ≡ frames_of self.old ++ record { frame = frame; values = values_kept frame (given_values values.old.items) } ∷ [] }
        ensures emptied { values.new.items ≡ [] }
        ensures taken { vec_len self.new.tasks ≡ vec_len self.old.tasks + 1 }
        ensures frames { framed self.new.tasks ≤ framed self.old.tasks + 1 }
        ensures room { KeepsRoom self.old self.new }
    {
        let task = framed_task(&mut self.registers, &mut self.args, frame, values);
        self.tasks.push_reserved(task);
    }

    // Takes the first task off. Returns the frame that it is, if it is one.
    fn take_off(&mut self) -> Option<Frame>
        requires there { 0 < vec_len self.now.tasks }
        ensures off { TakesOff result self.old self.new }
        ensures given { vec_len self.old.tasks ≡ vec_len self.new.tasks + 1 }
        ensures frames { framed self.new.tasks ≤ framed self.old.tasks }
        ensures room { KeepsRoom self.old self.new }
    {
        let Some(task) = self.tasks.pop() else {
            unreachable!()
        };
        self.lowest = self.lowest.min(self.tasks.len());
        give_back(&mut self.registers, &mut self.args, task)
    }

    /// Pops the last frame, and drops its values. The tasks before it go with it. Returns `None` if there is no frame, and then no task is
    /// left either.
    pub fn pop(&mut self) -> Option<Frame>
        ensures popped { MatchOption result ((frames_of self.old ≡ []) × (frames_of self.new ≡ [])) (λ frame. Pops (frames_of self.old) (frames_of self.new) frame) }
        ensures fewer { vec_len self.new.tasks ≤ vec_len self.old.tasks }
        ensures frames { framed self.new.tasks ≤ framed self.old.tasks }
        ensures room { KeepsRoom self.old self.new }
    {
        while !self.tasks.is_empty() {
            if let Some(frame) = self.take_off() {
                return Some(frame);
            }
        }
        None
    }
}
