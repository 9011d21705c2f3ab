//! The arms by which the machine can be stuck, and the reasons why code that follows it stops.

/// The reason why the first task of the machine can't act. No run of an accepted definition meets one (proved in `law_steps`), but a run
/// of a definition that was not verified may.
#[derive(Clone, Copy, Debug, PartialEq, Eq)]
pub enum Arm {
    /// A register is unset or of another kind.
    Register,
    /// A property would hold a value that is not valid.
    Value,
    /// A construct-only property would be set after its construction.
    ConstructOnly,
    /// A property would be read or set against its flags.
    Flags,
    /// An object operand is null or no longer lives.
    Operand,
    /// An argument of an emission does not fit.
    Argument,
    /// A program's parameters differ from what it is given.
    Parameters,
    /// A thaw without a freeze, or a freeze past the greatest count.
    Freeze,
    /// A call is on an object without a peer, of a method outside its shape, or with arguments of other kinds.
    Call,
    /// A jump is outside the program, code runs out, or a name means nothing.
    Code,
    /// A result is of another kind than is wanted.
    Result,
    /// An object of an abstract class would be made.
    Abstract,
    /// The dispatch has taken the greatest number of counted steps, and one more is due.
    Steps,
}

/// The reason why code that follows the machine stopped.
#[derive(Clone, Copy, Debug, PartialEq, Eq)]
pub enum Halt {
    OutOfMemory,
    Stuck(Arm),
}
