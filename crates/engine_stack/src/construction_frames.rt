//! The frame of a construction: its object, and the steps that it has left.

ghost use Rattle.std.specs.Prelude.{◌≡◌, [], ◌∷◌, MatchOption};
ghost use Rattle.engine_stack.specs.MakingView.{making_of_code};

use crate::task::{ConstructStep, ConstructSteps};
use ui_machine::ObjectId;

/// The rest of a construction (GObject manual, `g_object_new_with_properties`).
#[derive(Drop)]
pub struct ConstructionFrame {
    /// The object that is constructed.
    pub object: ObjectId,
    pub steps: ConstructSteps,
    /// Whether the builder holds the object at its end.
    pub held: bool,
}

impl ConstructionFrame {
    /// Takes the next step, or returns `None` if none is left.
    pub(crate) fn next_step(&mut self) -> Option<ConstructStep>
        ensures step { MatchOption result ((self.old.steps ≡ []) × (self.new.steps ≡ [])) (λ step. self.old.steps ≡ making_of_code step ∷ self.new.steps) }
        ensures beside { self.new ≡ record self.old { steps = self.new.steps } }
    {
        self.steps.take()
    }
}
