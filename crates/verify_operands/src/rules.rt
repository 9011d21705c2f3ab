//! The rules that an instruction may break, and the register that it writes if it breaks none.

ghost use Rattle.std.specs.Prelude.{◌≡◌};
ghost use Rattle.bytecode.specs.View.{register_kind_view};
ghost use Rattle.ui_machine.specs.Definition.Kinds as kinds;
ghost use Rattle.verify_operands.specs.declared.rules.TypingError.TheVariants as errors;

use bytecode::{Register, RegisterKind};
use g_values::Kind;
use std::alloc::{AllocError, AllocFailed};

/// A rule that an instruction breaks.
#[derive(Clone, Copy, Debug, PartialEq, Eq)]
pub enum Rule {
    /// A register that is read holds nothing.
    Unset,
    /// A register that is read has another kind, or there are too many or too few arguments.
    Kind,
    /// An object is needed, but the register may hold null.
    Null,
    /// A property, signal, program, id, method or binding does not exist.
    Unknown,
    /// A property is not readable, or not writable.
    Flags,
    /// A property is written that only constructions set.
    ConstructOnly,
    /// The signal does not take the detail.
    Detail,
    /// A program does not take what it is given.
    Signature,
    /// An emission has no result to be written, or a program returns something other than its result.
    Result,
    /// A register does not fit the block that is jumped to.
    Block,
}

/// A register that an instruction writes, and its kind after that.
#[derive(Clone, Copy, Debug)]
pub struct Written {
    pub to: Register,
    pub kind: RegisterKind,
}

impl Written {
    /// Returns the write of a truth value to a register.
    pub fn truth(to: Register) -> Written
        ensures to { result.to ≡ to }
        ensures truth { register_kind_view result.kind ≡ kinds.plain kinds.bool }
    {
        Written {
            to,
            kind: RegisterKind::Plain(Kind::Bool),
        }
    }
}

/// The reason why an instruction has no type.
#[derive(Clone, Copy, Debug, PartialEq, Eq)]
pub enum TypingError {
    /// Memory was refused.
    OutOfMemory,
    /// The instruction breaks a rule.
    Broken(Rule),
}

impl From<AllocError> for TypingError {
    ghost from_gives = { λ _ error. error ≡ errors.OutOfMemory };

    fn from(_error: AllocError) -> TypingError {
        TypingError::OutOfMemory
    }
}

impl<T: Drop> From<AllocFailed<T>> for TypingError {
    ghost from_gives = { λ _ error. error ≡ errors.OutOfMemory };

    fn from(_error: AllocFailed<T>) -> TypingError {
        TypingError::OutOfMemory
    }
}

impl From<Rule> for TypingError {
    ghost from_gives = { λ rule error. error ≡ errors.Broken rule };

    fn from(rule: Rule) -> TypingError {
        TypingError::Broken(rule)
    }
}
