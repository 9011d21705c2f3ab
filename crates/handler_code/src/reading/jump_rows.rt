//! Readers for the instructions that end a block, one for each word.

ghost use Rattle.std.specs.Prelude.{IfOk};
ghost use Rattle.json_trees.specs.View.{view};
ghost use Rattle.bytecode.specs.View.{instruction_view};
ghost use Rattle.bytecode.specs.Known.{HasKnownKinds};
ghost use Rattle.bytecode.specs.Reading.Operands.{Gives};
ghost use Rattle.handler_code.specs.Reading.ReaderViews.{scope_view};
ghost use Rattle.bytecode.specs.Reading.JumpRows.{jump_row, branch_row, branch_null_row, return_row};

use crate::reading::operand_shapes::register_and_blocks;
use crate::reading::operand_words::{block_at, check_none, register_or_null_at};
use crate::reading::scope::Scope;
use bytecode::{ControlInstruction, Instruction, InstructionError};
use json_trees::Value;

// Reads `jump b`.
#[tactic(auto, unfolding(bytecode::specs::Reading::JumpRows::jump_row))]
pub(crate) fn read_jump(scope: &Scope<'_>, json: &Value) -> Result<Instruction, InstructionError>
    ensures read { Gives instruction_view result (jump_row (scope_view scope.now) (view json.now)) }
    ensures known { IfOk result (λ i. HasKnownKinds scope.now.types.now i) }
{
    check_none(json, 2)?;
    let to = block_at(json, 1, scope.blocks)?;
    Ok(Instruction::Control(ControlInstruction::Jump(to)))
}

// Reads `if a b b`.
#[tactic(auto, unfolding(bytecode::specs::Reading::JumpRows::branch_row))]
pub(crate) fn read_branch(scope: &Scope<'_>, json: &Value) -> Result<Instruction, InstructionError>
    ensures read { Gives instruction_view result (branch_row (scope_view scope.now) (view json.now)) }
    ensures known { IfOk result (λ i. HasKnownKinds scope.now.types.now i) }
{
    let (on, then_to, else_to) = register_and_blocks(scope, json)?;
    Ok(Instruction::Control(ControlInstruction::Branch {
        on,
        then_to,
        else_to,
    }))
}

// Reads `ifnull a b b`.
#[tactic(auto, unfolding(bytecode::specs::Reading::JumpRows::branch_null_row))]
pub(crate) fn read_branch_null(
    scope: &Scope<'_>,
    json: &Value,
) -> Result<Instruction, InstructionError>
    ensures read { Gives instruction_view result (branch_null_row (scope_view scope.now) (view json.now)) }
    ensures known { IfOk result (λ i. HasKnownKinds scope.now.types.now i) }
{
    let (on, then_to, else_to) = register_and_blocks(scope, json)?;
    Ok(Instruction::Control(ControlInstruction::BranchNull {
        on,
        then_to,
        else_to,
    }))
}

// Reads `return z`.
#[tactic(auto, unfolding(bytecode::specs::Reading::JumpRows::return_row))]
pub(crate) fn read_return(scope: &Scope<'_>, json: &Value) -> Result<Instruction, InstructionError>
    ensures read { Gives instruction_view result (return_row (scope_view scope.now) (view json.now)) }
    ensures known { IfOk result (λ i. HasKnownKinds scope.now.types.now i) }
{
    check_none(json, 2)?;
    let from = register_or_null_at(json, 1, scope.registers)?;
    Ok(Instruction::Control(ControlInstruction::Return(from)))
}
