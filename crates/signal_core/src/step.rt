//! A step of an emission.

use crate::stage::Stage;
use crate::turn::Turn;

/// A turn, and the stage of the emission once the turn is taken.
#[derive(Clone, Copy, Debug, PartialEq, Eq)]
pub(crate) struct Step {
    pub(crate) turn: Turn,
    pub(crate) then_at: Stage,
}
