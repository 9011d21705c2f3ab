//! Computations on registers, and their results.

use g_values::{Kind, Value};

/// The number of a register of a program.
#[derive(Clone, Copy, Debug, PartialEq, Eq)]
pub struct Register(pub usize);

/// An operation on two integers of one kind. The result wraps around.
#[derive(Clone, Copy, Debug, PartialEq, Eq)]
pub enum Arithmetic {
    Add,
    Sub,
    Mul,
}

/// A comparison of two integers of one kind.
#[derive(Clone, Copy, Debug, PartialEq, Eq)]
pub enum Comparison {
    Equal,
    Less,
    AtMost,
}

/// An instruction that touches registers alone, without the register that it writes.
#[derive(Debug, Drop)]
pub enum Computation {
    /// `const d k v`: a constant value.
    Const(Value),
    /// `move d s`: the value of a register.
    Move(Register),
    /// `clear d`: unsets the register.
    Clear,
    /// `add d a b`, `sub` and `mul`: an arithmetic operation on two registers.
    Arithmetic(Arithmetic, Register, Register),
    /// `cmp d op a b`: a boolean, the result of a comparison.
    Compare(Comparison, Register, Register),
    /// `same d a b`: a boolean, whether two values of one kind are equal. Objects are compared by their identity.
    Same(Register, Register),
    /// `not d a`: the negation of a boolean.
    Not(Register),
    /// `and d a b`: the conjunction of two booleans.
    And(Register, Register),
    /// `or d a b`: the disjunction of two booleans.
    Or(Register, Register),
    /// `join d a b`: the concatenation of two texts. A null text counts as empty.
    Join(Register, Register),
    /// `convert d a k`: the value transformed to another kind (GObject manual, `g_value_transform`).
    Convert(Register, Kind),
}

/// The result of a computation for the register that it writes.
#[derive(Debug, Drop)]
pub enum Computed {
    Value(Value),
    /// The register is unset.
    Unset,
    /// The joined text would be too long. A line reports this, and the register gets the null text.
    TooLong,
}
