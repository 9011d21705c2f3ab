//! Evaluation of the computations of programs.

ghost use Rattle.std.specs.Prelude.{◌≡◌, ◌&&◌, ◌||◌, ◌++◌, not, true, false, None, Some, IfOk, IfSome, IsSome, OnErr};
ghost use Rattle.std.specs.Option.{option_map};
ghost use Rattle.ui_machine.specs.Seq.{read};
ghost use Rattle.ui_machine.specs.Definition.Values as values;
ghost use Rattle.ui_machine.specs.Rules.Sets.{has_kind};
ghost use Rattle.ui_machine.specs.Instructions.Arithmetic as instructions;
ghost use Rattle.ui_machine.specs.Instructions.Arithmetic.{is_object_kind};
ghost use Rattle.g_values.specs.Arithmetic.{calculated, compared};
ghost use Rattle.g_values.specs.View.{kind_view, value_view, IsKnown};
ghost use Rattle.bytecode.specs.Computing.{HasKnownKind, registers_of, instruction_of, operation_of, comparison_of};
ghost use Rattle.frames.specs.Computing.{Computes, IsValue, Joins, Reads, convertible_in, converted_or_zero, joined_in, makes_text, of_two, sameness_of, truth_in};

use crate::operands::{text_at, truth_at, value_at};
use bytecode::{Arithmetic, Comparison, Computation, Computed, Register};
use g_values::{
    Kind, TransformError, Value, is_at_most, is_equal, is_less, is_same, kind_of, transform,
    wrapping_difference, wrapping_product, wrapping_sum, zero_of,
};
use std::alloc::{AllocError, Global};
use std::rc::RcStr;
use type_tree::TypeTree;

/// The most bytes of a text that `join` makes.
pub const MOST_TEXT_BYTES: usize = 4096;

/// Computes the value for the register that is written, from the current registers. The registers that it reads are set, to values of the
/// kinds that the instruction asks for.
///
/// # Errors
///
/// `AllocError` if a text can't be made or shared, which only `const`, `move`, `join` and `convert` do. Nothing is changed then.
pub fn compute(
    alloc: Global,
    tree: &TypeTree,
    registers: &[Option<Value>],
    computation: &Computation,
) -> Result<Computed, AllocError>
    requires known { HasKnownKind tree.now computation.now }
    requires reads { Reads tree.now (registers_of registers.now) computation.now }
    ensures computed { IfOk result (λ c. Computes c tree.now (registers_of registers.now) (instruction_of computation.now)) }
    ensures memory { OnErr result (makes_text computation.now ≡ true) }
{
    match computation {
        Computation::Const(value) => Ok(Computed::Value(value.copied()?)),
        Computation::Move(from) => moved(registers, *from),
        Computation::Clear => Ok(Computed::Unset),
        Computation::Arithmetic(operation, a, b) => {
            Ok(known(reckoned(registers, *operation, *a, *b)))
        }
        Computation::Compare(comparison, a, b) => {
            Ok(known(truth_value(comparison_at(registers, *comparison, *a, *b))))
        }
        Computation::Same(a, b) => Ok(known(truth_value(sameness_at(registers, *a, *b)))),
        Computation::Not(a) => Ok(known(truth_value(negation_at(registers, *a)))),
        Computation::And(a, b) => Ok(known(truth_value(conjunction_at(registers, *a, *b)))),
        Computation::Or(a, b) => Ok(known(truth_value(disjunction_at(registers, *a, *b)))),
        Computation::Join(a, b) => joined(alloc, registers, *a, *b),
        Computation::Convert(a, kind) => converted(alloc, tree, registers, *a, kind),
    }
}

// Wraps a value that is always there, since the registers are as the instruction asks.
fn known(value: Option<Value>) -> Computed
    requires { IsSome value }
    ensures { IsValue (option_map value_view value) result }
{
    let Some(value) = value else { unreachable!() };
    Computed::Value(value)
}

fn truth_value(truth: Option<bool>) -> Option<Value>
    ensures { option_map value_view result ≡ option_map (λ b. values.bool b) truth }
{
    Some(Value::Bool(truth?))
}

// Copies the value of a register.
fn moved(registers: &[Option<Value>], from: Register) -> Result<Computed, AllocError>
    requires { IsSome (read None (registers_of registers.now) from.0) }
    ensures { IfOk result (IsValue (read None (registers_of registers.now) from.0)) }
{
    let Some(value) = value_at(registers, from) else {
        unreachable!()
    };
    Ok(Computed::Value(value.copied()?))
}

// Returns the sum, the difference or the product of two registers.
fn reckoned(
    registers: &[Option<Value>],
    operation: Arithmetic,
    a: Register,
    b: Register,
) -> Option<Value>
    ensures { option_map value_view result ≡ of_two (calculated (operation_of operation)) (read None (registers_of registers.now) a.0) (read None (registers_of registers.now) b.0) }
{
    let (Some(m), Some(n)) = (value_at(registers, a), value_at(registers, b)) else {
        return None;
    };
    match operation {
        Arithmetic::Add => wrapping_sum(m, n),
        Arithmetic::Sub => wrapping_difference(m, n),
        Arithmetic::Mul => wrapping_product(m, n),
    }
}

// Returns whether the comparison of two registers holds.
fn comparison_at(
    registers: &[Option<Value>],
    comparison: Comparison,
    a: Register,
    b: Register,
) -> Option<bool>
    ensures { result ≡ of_two (compared (comparison_of comparison)) (read None (registers_of registers.now) a.0) (read None (registers_of registers.now) b.0) }
{
    let (Some(m), Some(n)) = (value_at(registers, a), value_at(registers, b)) else {
        return None;
    };
    match comparison {
        Comparison::Equal => is_equal(m, n),
        Comparison::Less => is_less(m, n),
        Comparison::AtMost => is_at_most(m, n),
    }
}

// Returns whether two registers have the same value, or `None` if they are not of one kind.
fn sameness_at(registers: &[Option<Value>], a: Register, b: Register) -> Option<bool>
    ensures { result ≡ of_two sameness_of (read None (registers_of registers.now) a.0) (read None (registers_of registers.now) b.0) }
{
    let (Some(u), Some(v)) = (value_at(registers, a), value_at(registers, b)) else {
        return None;
    };
    if is_of_one_kind(u, v) {
        Some(is_same(u, v))
    } else {
        None
    }
}

// Returns whether two values are of one kind. All objects are of one kind.
fn is_of_one_kind(u: &Value, v: &Value) -> bool
    ensures { result ≡ has_kind (value_view v.now) (instructions.kind_of (value_view u.now)) }
{
    match (u, v) {
        (Value::Object(_, _), Value::Object(_, _)) => true,
        _ => kind_of(u) == kind_of(v),
    }
}

fn negation_at(registers: &[Option<Value>], a: Register) -> Option<bool>
    ensures { result ≡ option_map not (truth_in (registers_of registers.now) a.0) }
{
    Some(!truth_at(registers, a)?)
}

fn conjunction_at(registers: &[Option<Value>], a: Register, b: Register) -> Option<bool>
    ensures { result ≡ of_two (λ p q. Some (p && q)) (truth_in (registers_of registers.now) a.0) (truth_in (registers_of registers.now) b.0) }
{
    match (truth_at(registers, a), truth_at(registers, b)) {
        (Some(p), Some(q)) => Some(p && q),
        _ => None,
    }
}

fn disjunction_at(registers: &[Option<Value>], a: Register, b: Register) -> Option<bool>
    ensures { result ≡ of_two (λ p q. Some (p || q)) (truth_in (registers_of registers.now) a.0) (truth_in (registers_of registers.now) b.0) }
{
    match (truth_at(registers, a), truth_at(registers, b)) {
        (Some(p), Some(q)) => Some(p || q),
        _ => None,
    }
}

// Joins the texts of two registers, unless the result is too long.
fn joined(
    alloc: Global,
    registers: &[Option<Value>],
    a: Register,
    b: Register,
) -> Result<Computed, AllocError>
    requires { IsSome (joined_in (registers_of registers.now) a.0 b.0) }
    ensures { IfOk result (λ c. IfSome (joined_in (registers_of registers.now) a.0 b.0) (Joins c)) }
{
    let (Some(front), Some(back)) = (text_at(registers, a), text_at(registers, b)) else {
        unreachable!()
    };
    join(alloc, front, back)
}

// Joins two texts, unless the result is too long.
fn join(alloc: Global, front: &str, back: &str) -> Result<Computed, AllocError>
    ensures { IfOk result (λ c. Joins c (front.now ++ back.now)) }
{
    if front.len() + back.len() > MOST_TEXT_BYTES {
        return Ok(Computed::TooLong);
    }
    let mut text = String::with_capacity(alloc, front.len() + back.len())?;
    text.push_str(front)?;
    text.push_str(back)?;
    let joined = RcStr::from_str(alloc, text.as_str())?;
    Ok(Computed::Value(Value::Text(Some(joined))))
}

// Converts the value of a register to a kind.
fn converted(
    alloc: Global,
    tree: &TypeTree,
    registers: &[Option<Value>],
    a: Register,
    kind: &Kind,
) -> Result<Computed, AllocError>
    requires known { IsKnown tree.now kind.now }
    requires convertible { IsSome (convertible_in tree.now (kind_view kind.now) (read None (registers_of registers.now) a.0)) }
    ensures { IfOk result (IsValue (convertible_in tree.now (kind_view kind.now) (read None (registers_of registers.now) a.0))) }
{
    let Some(value) = value_at(registers, a) else {
        unreachable!()
    };
    Ok(Computed::Value(conversion(alloc, tree, value, kind)?))
}

// Converts a value to a kind, or returns the kind's zero value if the value can't be converted.
fn conversion(
    alloc: Global,
    tree: &TypeTree,
    value: &Value,
    kind: &Kind,
) -> Result<Value, AllocError>
    requires known { IsKnown tree.now kind.now }
    requires plain { is_object_kind (instructions.kind_of (value_view value.now)) ≡ false }
    ensures { IfOk result (λ v. value_view v ≡ converted_or_zero tree.now (value_view value.now) (kind_view kind.now)) }
{
    match transform(alloc, tree, value, *kind) {
        Ok(value) => Ok(value),
        Err(TransformError::Refused(_)) => Ok(zero_of(tree, *kind)),
        Err(TransformError::OutOfMemory) => Err(AllocError),
    }
}
