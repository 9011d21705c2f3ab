//! The count of a dispatch's steps.

ghost use Rattle.std.specs.Prelude.{◌≡◌, ◌<◌, suc};
ghost use Rattle.ui_machine.specs.Steps.{most_steps};

use crate::engine::Engine;

/// Counts one more step. The dispatch must have counted fewer steps than a dispatch may have.
pub fn count(engine: &mut Engine)
    requires few { engine.now.counted < most_steps }
    ensures { engine.new ≡ record engine.old { counted = suc engine.old.counted } }
{
    engine.counted += 1;
}
