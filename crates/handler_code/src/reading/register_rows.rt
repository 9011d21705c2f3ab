//! Readers for the instructions that only use registers, one for each word.

ghost use Rattle.std.specs.Prelude.{IfOk};
ghost use Rattle.json_trees.specs.View.{view};
ghost use Rattle.bytecode.specs.View.{instruction_view};
ghost use Rattle.bytecode.specs.Known.{HasKnownKinds};
ghost use Rattle.bytecode.specs.Reading.Operands.{Gives};
ghost use Rattle.handler_code.specs.Reading.ReaderViews.{scope_view};
ghost use Rattle.bytecode.specs.Reading.RegisterRows.{const_row, move_row, clear_row, arithmetic_row, compare_row, same_row, not_row, and_row, or_row, join_row, convert_row};
ghost use Rattle.bytecode.specs.Computing.{operation_of};

use crate::reading::operand_shapes::{comparison_at, one_register, three_registers, two_registers};
use crate::reading::operand_words::{check_none, kind_at, register_at, value_at};
use crate::reading::scope::Scope;
use bytecode::{Arithmetic, Computation, Instruction, InstructionError};
use json_trees::Value;
use std::alloc::Global;

// Reads `const d k v`.
#[tactic(auto, unfolding(bytecode::specs::Reading::RegisterRows::const_row))]
pub(crate) fn read_const(
    alloc: Global,
    scope: &Scope<'_>,
    json: &Value,
) -> Result<Instruction, InstructionError>
    ensures read { Gives instruction_view result (const_row (scope_view scope.now) (view json.now)) }
    ensures known { IfOk result (λ i. HasKnownKinds scope.now.types.now i) }
{
    check_none(json, 4)?;
    let to = register_at(json, 1, scope.registers)?;
    let kind = kind_at(json, 2, scope.types)?;
    let value = value_at(alloc, json, 3, scope.types, kind)?;
    Ok(Instruction::Compute {
        to,
        computation: Computation::Const(value),
    })
}

// Reads `move d s`.
#[tactic(auto, unfolding(bytecode::specs::Reading::RegisterRows::move_row))]
pub(crate) fn read_move(scope: &Scope<'_>, json: &Value) -> Result<Instruction, InstructionError>
    ensures read { Gives instruction_view result (move_row (scope_view scope.now) (view json.now)) }
    ensures known { IfOk result (λ i. HasKnownKinds scope.now.types.now i) }
{
    let (to, a) = two_registers(scope, json)?;
    Ok(Instruction::Compute {
        to,
        computation: Computation::Move(a),
    })
}

// Reads `clear d`.
#[tactic(auto, unfolding(bytecode::specs::Reading::RegisterRows::clear_row))]
pub(crate) fn read_clear(scope: &Scope<'_>, json: &Value) -> Result<Instruction, InstructionError>
    ensures read { Gives instruction_view result (clear_row (scope_view scope.now) (view json.now)) }
    ensures known { IfOk result (λ i. HasKnownKinds scope.now.types.now i) }
{
    let to = one_register(scope, json)?;
    Ok(Instruction::Compute {
        to,
        computation: Computation::Clear,
    })
}

// Reads `add d a b`, or the same with `sub` or `mul`.
#[tactic(auto, unfolding(bytecode::specs::Reading::RegisterRows::arithmetic_row))]
pub(crate) fn read_arithmetic(
    operation: Arithmetic,
    scope: &Scope<'_>,
    json: &Value,
) -> Result<Instruction, InstructionError>
    ensures read { Gives instruction_view result (arithmetic_row (operation_of operation) (scope_view scope.now) (view json.now)) }
    ensures known { IfOk result (λ i. HasKnownKinds scope.now.types.now i) }
{
    let (to, a, b) = three_registers(scope, json)?;
    Ok(Instruction::Compute {
        to,
        computation: Computation::Arithmetic(operation, a, b),
    })
}

// Reads `cmp d op a b`.
#[tactic(auto, unfolding(bytecode::specs::Reading::RegisterRows::compare_row))]
pub(crate) fn read_compare(scope: &Scope<'_>, json: &Value) -> Result<Instruction, InstructionError>
    ensures read { Gives instruction_view result (compare_row (scope_view scope.now) (view json.now)) }
    ensures known { IfOk result (λ i. HasKnownKinds scope.now.types.now i) }
{
    check_none(json, 5)?;
    let to = register_at(json, 1, scope.registers)?;
    let comparison = comparison_at(json, 2)?;
    let a = register_at(json, 3, scope.registers)?;
    let b = register_at(json, 4, scope.registers)?;
    Ok(Instruction::Compute {
        to,
        computation: Computation::Compare(comparison, a, b),
    })
}

// Reads `same d a b`.
#[tactic(auto, unfolding(bytecode::specs::Reading::RegisterRows::same_row))]
pub(crate) fn read_same(scope: &Scope<'_>, json: &Value) -> Result<Instruction, InstructionError>
    ensures read { Gives instruction_view result (same_row (scope_view scope.now) (view json.now)) }
    ensures known { IfOk result (λ i. HasKnownKinds scope.now.types.now i) }
{
    let (to, a, b) = three_registers(scope, json)?;
    Ok(Instruction::Compute {
        to,
        computation: Computation::Same(a, b),
    })
}

// Reads `not d a`.
#[tactic(auto, unfolding(bytecode::specs::Reading::RegisterRows::not_row))]
pub(crate) fn read_not(scope: &Scope<'_>, json: &Value) -> Result<Instruction, InstructionError>
    ensures read { Gives instruction_view result (not_row (scope_view scope.now) (view json.now)) }
    ensures known { IfOk result (λ i. HasKnownKinds scope.now.types.now i) }
{
    let (to, a) = two_registers(scope, json)?;
    Ok(Instruction::Compute {
        to,
        computation: Computation::Not(a),
    })
}

// Reads `and d a b`.
#[tactic(auto, unfolding(bytecode::specs::Reading::RegisterRows::and_row))]
pub(crate) fn read_and(scope: &Scope<'_>, json: &Value) -> Result<Instruction, InstructionError>
    ensures read { Gives instruction_view result (and_row (scope_view scope.now) (view json.now)) }
    ensures known { IfOk result (λ i. HasKnownKinds scope.now.types.now i) }
{
    let (to, a, b) = three_registers(scope, json)?;
    Ok(Instruction::Compute {
        to,
        computation: Computation::And(a, b),
    })
}

// Reads `or d a b`.
#[tactic(auto, unfolding(bytecode::specs::Reading::RegisterRows::or_row))]
pub(crate) fn read_or(scope: &Scope<'_>, json: &Value) -> Result<Instruction, InstructionError>
    ensures read { Gives instruction_view result (or_row (scope_view scope.now) (view json.now)) }
    ensures known { IfOk result (λ i. HasKnownKinds scope.now.types.now i) }
{
    let (to, a, b) = three_registers(scope, json)?;
    Ok(Instruction::Compute {
        to,
        computation: Computation::Or(a, b),
    })
}

// Reads `join d a b`.
#[tactic(auto, unfolding(bytecode::specs::Reading::RegisterRows::join_row))]
pub(crate) fn read_join(scope: &Scope<'_>, json: &Value) -> Result<Instruction, InstructionError>
    ensures read { Gives instruction_view result (join_row (scope_view scope.now) (view json.now)) }
    ensures known { IfOk result (λ i. HasKnownKinds scope.now.types.now i) }
{
    let (to, a, b) = three_registers(scope, json)?;
    Ok(Instruction::Compute {
        to,
        computation: Computation::Join(a, b),
    })
}

// Reads `convert d a k`.
#[tactic(auto, unfolding(bytecode::specs::Reading::RegisterRows::convert_row))]
pub(crate) fn read_convert(scope: &Scope<'_>, json: &Value) -> Result<Instruction, InstructionError>
    ensures read { Gives instruction_view result (convert_row (scope_view scope.now) (view json.now)) }
    ensures known { IfOk result (λ i. HasKnownKinds scope.now.types.now i) }
{
    check_none(json, 4)?;
    let to = register_at(json, 1, scope.registers)?;
    let a = register_at(json, 2, scope.registers)?;
    let kind = kind_at(json, 3, scope.types)?;
    Ok(Instruction::Compute {
        to,
        computation: Computation::Convert(a, kind),
    })
}
