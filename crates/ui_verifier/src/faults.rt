//! The reasons why a definition is refused.

use std::alloc::AllocError;
use ui_machine::{Channel, Entry, ProgramId};
use verify_rules::RuleFault;

/// A channel of a cycle, and what leads from it to the next one.
#[derive(Clone, Copy, Debug, PartialEq, Eq)]
pub struct CycleLink {
    pub from: Channel,
    /// The program that may start the next channel, or `None` if a binding leads there.
    pub by: Option<ProgramId>,
}

/// The reason why a definition is not accepted.
#[derive(Debug, Drop)]
pub enum VerifyFault {
    /// The definition breaks a rule.
    Rule(RuleFault),
    /// A cycle of channels, each of which may raise the next one, and the last one the first, without end.
    Cycle(Vec<CycleLink>),
    /// A dispatch that begins with this entry may take more steps than are allowed.
    BoundTooLarge(Entry),
}

/// The refusal of a definition.
#[derive(Debug, Drop)]
pub struct Refusal {
    pub fault: VerifyFault,
    /// The text of the fault, as it is printed.
    pub text: String,
}

/// The reason why a definition was not verified.
#[derive(Debug, Drop)]
pub enum VerifyError {
    Refused(Refusal),
    OutOfMemory,
}

impl From<AllocError> for VerifyError {
    ghost use Rattle.std.specs.Prelude.{◌≡◌};
    ghost use Rattle.ui_verifier.specs.declared.faults.VerifyError.TheVariants.{OutOfMemory};

    ghost from_gives = { λ _ e. e ≡ OutOfMemory };

    fn from(_error: AllocError) -> VerifyError {
        VerifyError::OutOfMemory
    }
}
