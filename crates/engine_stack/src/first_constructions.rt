//! The construction that is the first task, which goes on in its place.

ghost use Rattle.std.specs.Prelude.{◌≡◌, [], ◌∷◌, option_map, vec_capacity, vec_len, IsSome, MatchOption};
ghost use Rattle.engine_stack.specs.FirstConstructions.{IsReconstructed, first_construction, stack_construction};
ghost use Rattle.engine_stack.specs.MakingView.{making_of_code};
ghost use Rattle.engine_stack.specs.TaskFrames.{framed};

use crate::construction_frames::ConstructionFrame;
use crate::stacks::Frames;
use crate::task::{ConstructStep, Task};

impl Frames {
    /// Returns the first task, if it is a construction.
    pub fn first_construction(&self) -> Option<&ConstructionFrame>
        ensures { option_map (λ f. f.now) result ≡ first_construction self.now.tasks.items }
    {
        let Some(task) = self.tasks.last() else {
            return None;
        };
        match task {
            Task::Constructing(construction) => Some(construction),
            _ => None,
        }
    }

    /// Takes the next step of the construction that is the first task, or returns `None` if none is left.
    pub fn next_construct_step(&mut self) -> Option<ConstructStep>
        requires there { IsSome (first_construction self.now.tasks.items) }
        ensures step { MatchOption result
            (((stack_construction self.old).steps ≡ []) × ((stack_construction self.new).steps ≡ []))
            (λ step. (stack_construction self.old).steps ≡ making_of_code step ∷ (stack_construction self.new).steps) }
        ensures construction { stack_construction self.new ≡ record (stack_construction self.old) { steps = (stack_construction self.new).steps } }
        ensures constructs { IsReconstructed self.old self.new }
        ensures frames { framed self.new.tasks ≡ framed self.old.tasks }
        ensures room { (vec_len self.new.tasks ≡ vec_len self.old.tasks) × (vec_capacity self.new.tasks ≡ vec_capacity self.old.tasks) }
    {
        let Some(task) = self.tasks.last_mut() else {
            unreachable!()
        };
        let Task::Constructing(construction) = task else {
            unreachable!()
        };
        construction.next_step()
    }
}
