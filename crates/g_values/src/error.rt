//! Errors of transforming a value to another kind, and of reading a value from JSON.

ghost use Rattle.std.specs.Prelude.{◌≡◌};
ghost use Rattle.g_values.specs.declared.error.TransformError.TheVariants.{OutOfMemory};
ghost use Rattle.g_values.specs.declared.error.JsonError.TheVariants as json;

use std::alloc::AllocError;

/// The reason for which a value can't be transformed to another kind. The variants are in the order in which the tests are made.
#[derive(Clone, Copy, Debug, PartialEq, Eq)]
pub enum TransformFault {
    /// No value of the one kind can be transformed to the other.
    NoTransform,
    /// No member of the enum has the number, or the number is negative or has a bit that no member of the flags type has.
    NotAMember,
}

/// The error of a transformation.
#[derive(Clone, Copy, Debug, PartialEq, Eq)]
pub enum TransformError {
    /// Memory was refused.
    OutOfMemory,
    /// The value can't be transformed to the kind.
    Refused(TransformFault),
}

impl From<AllocError> for TransformError {
    ghost from_gives = { λ _ error. error ≡ OutOfMemory };

    fn from(_error: AllocError) -> TransformError {
        TransformError::OutOfMemory
    }
}

/// The reason for which JSON denotes no value of a kind.
#[derive(Clone, Copy, Debug, PartialEq, Eq)]
pub enum JsonFault {
    /// JSON of this type never denotes a value of the kind.
    WrongJson,
    /// The number is outside the range of the kind.
    OutOfRange,
    /// No member has the name, nick or number.
    UnknownMember,
    /// The text has more than 4,096 bytes.
    TextTooLong,
}

/// The error of reading a value from JSON.
#[derive(Clone, Copy, Debug, PartialEq, Eq)]
pub enum JsonError {
    /// Memory was refused.
    OutOfMemory,
    /// The JSON denotes no value of the kind.
    Refused(JsonFault),
}

impl From<AllocError> for JsonError {
    ghost from_gives = { λ _ error. error ≡ json.OutOfMemory };

    fn from(_error: AllocError) -> JsonError {
        JsonError::OutOfMemory
    }
}

impl From<JsonFault> for JsonError {
    ghost from_gives = { λ fault error. error ≡ json.Refused fault };

    fn from(fault: JsonFault) -> JsonError {
        JsonError::Refused(fault)
    }
}
