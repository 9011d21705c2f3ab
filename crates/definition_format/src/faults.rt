//! The reasons why bytes denote no definition.

ghost use Rattle.std.specs.Prelude.{◌≡◌};
ghost use Rattle.definition_format.specs.declared.faults.ReadError.TheVariants.{OutOfMemory};

use bytecode::ProgramFault;
use g_values::JsonFault;
use param_specs::SpecFault;
use signal_core::SignalFault;
use std::alloc::{AllocError, AllocFailed};
use type_tree::TypeLimit;

/// A limit that a definition exceeds.
#[derive(Clone, Copy, Debug, PartialEq, Eq)]
pub enum DefinitionLimit {
    /// More than 256 types, counting the two that always exist.
    Types,
    /// A class that would be more than 16 deep under `GObject`, which is 1 deep.
    Depth,
    /// More than 64 properties of one class, counting the inherited ones.
    Properties,
    /// More than 64 signals of one class with its ancestors, not counting `notify` and those of interfaces, or more than 64 of one
    /// interface.
    Signals,
    /// More than 256 programs.
    Programs,
    /// More than 512 objects and prototypes, which together are the places.
    Places,
    /// More objects than the definition allows to live at a time, or a limit of objects that is not from 1 to 4,096.
    Objects,
    /// A limit of handlers above 16.
    Handlers,
}

/// The cause for which a type is not added, in the order in which the tests are made.
#[derive(Debug, Drop)]
pub enum TypeCause {
    /// The name is not valid: it must have three characters or more, first an ASCII letter or `_`, then letters, digits, `-`, `_` and `+`.
    BadName,
    /// There is already a type of this name.
    Duplicate,
    /// A parent, interface or required type does not exist, or is of another sort.
    UnknownParent,
    /// The parent is final.
    FinalParent,
    /// An interface requires the type of this name, which the class would not be.
    Prerequisite(String),
    /// The tree is full, or the class would be too deep.
    Limit(TypeLimit),
    /// An object is of an abstract class.
    Abstract,
}

/// The cause for which a property is not installed, cannot be given a value or differs from that of an interface, or for which a signal is
/// not declared.
#[derive(Debug, Drop)]
pub enum SpecCause {
    /// The property fails a test of its installation.
    Install(SpecFault),
    /// The signal fails a test of its declaration.
    Declare(SignalFault),
    /// A value is given to a property that cannot be written.
    NotWritable,
    /// The class lacks the property of this name, which an interface of it has.
    OverrideMissing(String),
    /// The class has the property of this name with another kind, range, default, weakness or flags than its interface has.
    OverrideDiffers(String),
}

/// The reason why bytes denote no definition. A path is a JSON pointer (RFC 6901). Of several faults the first in document order is
/// reported, and of several at one path the first in this order.
#[derive(Debug, Drop)]
pub enum DefinitionFault {
    /// There are more than 4 MiB.
    TooLong,
    /// The bytes are not UTF-8.
    NotUtf8,
    /// The text is not JSON, or nests deeper than 127 values.
    NotJson,
    /// A member is missing, unknown or of the wrong sort.
    Shape(String),
    /// The name at the path names nothing.
    Unknown(String, String),
    /// The name is taken. An earlier entry of the section has it, an ancestor has the property, the object names the property twice, or a
    /// signal's name is declared more than once among a class, its ancestors and its interfaces.
    Duplicate(String),
    /// A type is not added, or can have no objects.
    BadType(String, TypeCause),
    /// A property is not installed, cannot be given a value or differs from that of an interface, or a signal is not declared.
    BadSpec(String, SpecCause),
    /// The value at the path is no program.
    BadProgram(String, ProgramFault),
    /// The value at the path is not one of the kind.
    ValueFault(String, JsonFault),
    /// A property that only constructions set is given an object that is not built yet.
    ForwardConstructOnly(String),
    /// A limit is exceeded.
    Limit(DefinitionLimit),
}

/// The reason why reading bytes gave no definition.
#[derive(Debug, Drop)]
pub enum ReadError {
    /// Memory was refused.
    OutOfMemory,
    /// The bytes denote no definition.
    Refused(DefinitionFault),
}

impl From<AllocError> for ReadError {
    ghost from_gives = { λ _ error. error ≡ OutOfMemory };

    fn from(_error: AllocError) -> ReadError {
        ReadError::OutOfMemory
    }
}

impl<T: Drop> From<AllocFailed<T>> for ReadError {
    ghost from_gives = { λ _ error. error ≡ OutOfMemory };

    fn from(_error: AllocFailed<T>) -> ReadError {
        ReadError::OutOfMemory
    }
}
