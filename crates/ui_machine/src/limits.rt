//! The limits that a definition declares for its sessions.

ghost use Rattle.std.specs.Prelude.{◌<◌, ◌≤◌, ◌⊎◌, ◌↔◌, IsOk, IsErrOf};

use thiserror::Error;

/// The least number of objects that a definition may declare.
pub const LEAST_OBJECTS: u32 = 1;

/// The greatest number of objects that a definition may declare.
pub const MOST_OBJECTS: u32 = 4096;

/// The greatest number of handlers that a definition may declare.
pub const MOST_HANDLERS: u32 = 16;

/// The limits of what a session may hold.
#[derive(Clone, Copy, Debug, PartialEq, Eq)]
pub struct Limits {
    /// The greatest number of objects that live at a time.
    pub objects: u32,
    /// The greatest number of handlers that bytecode connects to one object and signal.
    pub handlers: u32,
}

/// A member of `Limits`.
#[derive(Clone, Copy, Debug, PartialEq, Eq)]
pub enum LimitField {
    Objects,
    Handlers,
}

/// The reason why limits are refused.
#[derive(Clone, Copy, Debug, PartialEq, Eq, Error)]
pub enum LimitsError {
    #[error("LimitOutOfRange {0:?}")]
    LimitOutOfRange(LimitField),
}

impl Limits {
    /// Tests the members in order: 1 to 4,096 objects, at most 16 handlers.
    ///
    /// # Errors
    ///
    /// Returns `LimitsError::LimitOutOfRange` if a member is outside of its range. It names the first such member.
    pub fn check(&self) -> Result<(), LimitsError>
        ensures ok { IsOk result
            ↔ ((LEAST_OBJECTS ≤ self.now.objects) × (self.now.objects ≤ MOST_OBJECTS) × (self.now.handlers ≤ MOST_HANDLERS)) }
        ensures objects { IsErrOf result (LimitsError.LimitOutOfRange LimitField.Objects)
            ↔ ((self.now.objects < LEAST_OBJECTS) ⊎ (MOST_OBJECTS < self.now.objects)) }
        ensures handlers { IsErrOf result (LimitsError.LimitOutOfRange LimitField.Handlers)
            ↔ ((LEAST_OBJECTS ≤ self.now.objects) × (self.now.objects ≤ MOST_OBJECTS) × (MOST_HANDLERS < self.now.handlers)) }
    {
        if self.objects < LEAST_OBJECTS || self.objects > MOST_OBJECTS {
            return Err(LimitsError::LimitOutOfRange(LimitField::Objects));
        }
        if self.handlers > MOST_HANDLERS {
            return Err(LimitsError::LimitOutOfRange(LimitField::Handlers));
        }
        Ok(())
    }
}
