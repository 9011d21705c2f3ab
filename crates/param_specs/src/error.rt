//! Errors of installing and overriding properties.

ghost use Rattle.std.specs.Prelude.{◌≡◌};
ghost use Rattle.param_specs.specs.declared.error.SpecError.TheVariants.{OutOfMemory};

use std::alloc::{AllocError, AllocFailed};
use ui_machine::Slot;

/// The reason for which a property is refused. The variants are in the order in which the tests are made.
#[derive(Clone, Copy, Debug, PartialEq, Eq)]
pub enum SpecFault {
    /// The name is not made of non-empty segments of ASCII letters and digits, separated by `-` or `_`, beginning with a letter.
    BadName,
    /// The type has a property of that name already, its own or an inherited one.
    Duplicate,
    /// The property is both construct and construct-only, is one of these and not writable, or is neither readable nor writable.
    FlagsClash,
    /// The minimum is above the maximum.
    RangeEmpty,
    /// The default is not a valid value.
    DefaultInvalid,
    /// The type has 64 properties already.
    Limit,
}

/// The error of an installation.
#[derive(Clone, Copy, Debug, PartialEq, Eq)]
pub enum SpecError {
    /// Memory was refused.
    OutOfMemory,
    /// A test refused the property.
    Refused(SpecFault),
}

/// The first property of an interface that a class lacks or declares differently, with its slot in the interface.
#[derive(Clone, Copy, Debug, PartialEq, Eq)]
pub enum OverrideFault {
    /// The class has no property of that name.
    Missing(Slot),
    /// The class has the property with another kind, range, default, weakness or other flags.
    Differs(Slot),
}

impl From<AllocError> for SpecError {
    ghost from_gives = { λ _ error. error ≡ OutOfMemory };

    fn from(_error: AllocError) -> SpecError {
        SpecError::OutOfMemory
    }
}

impl<T: Drop> From<AllocFailed<T>> for SpecError {
    ghost from_gives = { λ _ error. error ≡ OutOfMemory };

    fn from(_error: AllocFailed<T>) -> SpecError {
        SpecError::OutOfMemory
    }
}
