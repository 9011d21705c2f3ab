//! The emission that is the first task, which goes on in its place.

ghost use Rattle.std.specs.Prelude.{◌≡◌, ℕ, ◌+◌, List, [], ◌∷◌, cond, drop, option_map, vec_capacity, vec_len, IsSome, MatchOption};
ghost use Rattle.ui_machine.specs.Definition as machine;
ghost use Rattle.ui_machine.specs.State.Handlers.{Handler};
ghost use Rattle.bindings.specs.Due.{from_ready};
ghost use Rattle.g_values.specs.View.{value_view};
ghost use Rattle.signal_core.specs.Emission.{collected, next_step, stage_after, stopped};
ghost use Rattle.engine_stack.specs.FirstEmissions.{EmitsKnown, IsReemitted, StopsBelow, emitted_of, emitting, first_emission, stack_emission, stop_in, with_last};
ghost use Rattle.engine_stack.specs.FirstPrograms.{first_program};
ghost use Rattle.engine_stack.specs.KnownHandlers.{AllTakeKnownHandlers};
ghost use Rattle.engine_stack.specs.TaskFrames.{HasPlaces, framed};
ghost use Rattle.engine_stack.specs.TaskView.{tasks_of};
ghost use Rattle.engine_stack.specs.TransferView.{due_later, due_now};
ghost use Rattle.engine_stack.specs.declared.task.Transfers.TheVariants as at;

use crate::emission_frames::EmissionFrame;
use crate::stacks::Frames;
use crate::task::{Task, Transfers};
use bindings::{Bindings, DueTransfer};
use g_values::Value;
use signal_core::{Cursor, Handlers, Turn};
use std::alloc::Global;
use std::mem;

// Stops the last of some tasks, if it is an emission.
fn stop_last(tasks: &mut Vec<Task>, alloc: Global)
    ensures stopped { tasks.new.items ≡ with_last stop_in tasks.old.items }
    ensures room { (vec_len tasks.new ≡ vec_len tasks.old) × (vec_capacity tasks.new ≡ vec_capacity tasks.old) }
{
    let Some(task) = tasks.last_mut() else {
        return;
    };
    if let Task::Emitting(emission) = task {
        emission.stop(alloc);
    }
}

impl Frames {
    /// Puts an emission before the other tasks, which is given these values. Their list is empty afterwards.
    pub fn push_emission(
        &mut self,
        alloc: Global,
        cursor: Cursor,
        values: &mut Vec<Value>,
        by_event: bool,
        transfers: Transfers,
    )
        requires room { HasPlaces 1 self.now.tasks }
        ensures tasks { (d : machine.Definition) (hs : List Handler)
            → tasks_of d hs self.new ≡ emitting (record { walk = cursor; args = values.old.items; by_event = by_event; transfers = transfers }) hs ∷ tasks_of d hs self.old }
        ensures emptied { values.new.items ≡ [] }
        ensures begun { (last : ℕ) → EmitsKnown last (record { walk = cursor; args = values.old.items; by_event = by_event; transfers = transfers })
            → AllTakeKnownHandlers last self.old → AllTakeKnownHandlers last self.new }
        ensures taken { vec_len self.new.tasks ≡ vec_len self.old.tasks + 1 }
        ensures frames { framed self.new.tasks ≡ framed self.old.tasks + 1 }
        ensures room { vec_capacity self.new.tasks ≡ vec_capacity self.old.tasks }
    {
        let args = self.args.keep(alloc, values);
        self.tasks.push_reserved(Task::Emitting(EmissionFrame {
            cursor,
            args,
            by_event,
            transfers,
        }));
    }

    /// Takes the emission off that is the first task, and drops its arguments. The list in which they were is left to it if it has another
    /// room than usual.
    pub fn drop_emission(&mut self, alloc: Global) -> EmissionFrame
        requires there { IsSome (first_emission self.now.tasks.items) }
        ensures ended { emitted_of result ≡ record (stack_emission self.old) { args = [] } }
        ensures tasks { (d : machine.Definition) (hs : List Handler) → tasks_of d hs self.new ≡ drop 1 (tasks_of d hs self.old) }
        ensures begun { (last : ℕ) → AllTakeKnownHandlers last self.old → AllTakeKnownHandlers last self.new }
        ensures given { vec_len self.old.tasks ≡ vec_len self.new.tasks + 1 }
        ensures frames { framed self.old.tasks ≡ framed self.new.tasks + 1 }
        ensures room { vec_capacity self.new.tasks ≡ vec_capacity self.old.tasks }
    {
        let Some(task) = self.tasks.pop() else {
            unreachable!()
        };
        let Task::Emitting(mut emission) = task else {
            unreachable!()
        };
        self.lowest = self.lowest.min(self.tasks.len());
        let args = mem::replace(&mut emission.args, Vec::new(alloc));
        emission.args = self.args.give_back(alloc, args);
        emission
    }

    /// Stops the emission below the first task, which is a program, if an emission lies there.
    pub fn stop_below(&mut self, alloc: Global)
        requires there { IsSome (first_program self.now.tasks.items) }
        ensures stops { StopsBelow self.old self.new }
        ensures frames { framed self.new.tasks ≡ framed self.old.tasks }
        ensures room { (vec_len self.new.tasks ≡ vec_len self.old.tasks) × (vec_capacity self.new.tasks ≡ vec_capacity self.old.tasks) }
    {
        let Some(first) = self.tasks.pop() else {
            unreachable!()
        };
        stop_last(&mut self.tasks, alloc);
        self.tasks.push_reserved(first);
    }

    /// Returns the first task, if it is an emission.
    pub fn first_emission(&self) -> Option<&EmissionFrame>
        ensures { option_map (λ f. f.now) result ≡ first_emission self.now.tasks.items }
    {
        let Some(task) = self.tasks.last() else {
            return None;
        };
        match task {
            Task::Emitting(emission) => Some(emission),
            _ => None,
        }
    }

    /// Takes the next transfer that the emission has to make before all turns that it has left. If it returns `None`, none is left that
    /// comes before them.
    pub fn next_transfer(&mut self, bindings: &Bindings) -> Option<DueTransfer>
        requires there { IsSome (first_emission self.now.tasks.items) }
        ensures next { MatchOption result
            ((from_ready bindings.now.bindings (due_now (stack_emission self.old).transfers) ≡ []) × (due_now (stack_emission self.new).transfers ≡ []))
            (λ due. from_ready bindings.now.bindings (due_now (stack_emission self.old).transfers) ≡ due ∷ due_now (stack_emission self.new).transfers) }
        ensures later { due_later (stack_emission self.new).transfers ≡ due_later (stack_emission self.old).transfers }
        ensures emission { stack_emission self.new ≡ record (stack_emission self.old) { transfers = (stack_emission self.new).transfers } }
        ensures emits { IsReemitted self.old self.new }
        ensures frames { framed self.new.tasks ≡ framed self.old.tasks }
        ensures room { (vec_len self.new.tasks ≡ vec_len self.old.tasks) × (vec_capacity self.new.tasks ≡ vec_capacity self.old.tasks) }
    {
        let Some(task) = self.tasks.last_mut() else {
            unreachable!()
        };
        let Task::Emitting(emission) = task else {
            unreachable!()
        };
        emission.next_transfer(bindings)
    }

    /// Takes the next turn of the emission, or returns `None` if none is left.
    pub fn next_turn(&mut self, handlers: &Handlers) -> Option<Turn>
        requires there { IsSome (first_emission self.now.tasks.items) }
        ensures turn { result ≡ option_map (λ step. step.turn) (next_step (stack_emission self.old).walk handlers.now.handlers) }
        ensures emission { stack_emission self.new
            ≡ record (stack_emission self.old) { walk = record (stack_emission self.old).walk { stage = stage_after (next_step (stack_emission self.old).walk handlers.now.handlers) } } }
        ensures emits { IsReemitted self.old self.new }
        ensures frames { framed self.new.tasks ≡ framed self.old.tasks }
        ensures room { (vec_len self.new.tasks ≡ vec_len self.old.tasks) × (vec_capacity self.new.tasks ≡ vec_capacity self.old.tasks) }
    {
        let Some(task) = self.tasks.last_mut() else {
            unreachable!()
        };
        let Task::Emitting(emission) = task else {
            unreachable!()
        };
        emission.next_turn(handlers)
    }

    /// Gives the bindings their turn in the emission: their transfers come before all other turns. None is due before.
    pub fn begin_transfers(&mut self, alloc: Global)
        requires there { IsSome (first_emission self.now.tasks.items) }
        requires none { due_now (stack_emission self.now).transfers ≡ [] }
        ensures emission { stack_emission self.new ≡ record (stack_emission self.old) { transfers = at.Due (due_later (stack_emission self.old).transfers) } }
        ensures emits { IsReemitted self.old self.new }
        ensures frames { framed self.new.tasks ≡ framed self.old.tasks }
        ensures room { (vec_len self.new.tasks ≡ vec_len self.old.tasks) × (vec_capacity self.new.tasks ≡ vec_capacity self.old.tasks) }
    {
        let Some(task) = self.tasks.last_mut() else {
            unreachable!()
        };
        let Task::Emitting(emission) = task else {
            unreachable!()
        };
        emission.begin_transfers(alloc);
    }

    /// Has the emission collect a program's value. If it is the last one, the emission is stopped, and makes no transfers.
    pub fn collect(&mut self, alloc: Global, value: Value, is_last: bool)
        requires there { IsSome (first_emission self.now.tasks.items) }
        ensures emission { stack_emission self.new
            ≡ record (stack_emission self.old) { walk = collected (value_view value) is_last (stack_emission self.old).walk; transfers = cond is_last (at.Due []) (stack_emission self.old).transfers } }
        ensures emits { IsReemitted self.old self.new }
        ensures frames { framed self.new.tasks ≡ framed self.old.tasks }
        ensures room { (vec_len self.new.tasks ≡ vec_len self.old.tasks) × (vec_capacity self.new.tasks ≡ vec_capacity self.old.tasks) }
    {
        let Some(task) = self.tasks.last_mut() else {
            unreachable!()
        };
        let Task::Emitting(emission) = task else {
            unreachable!()
        };
        emission.collect(alloc, value, is_last);
    }
}
