//! Readers for the instructions on sources and peers, one for each word.

ghost use Rattle.std.specs.Prelude.{IfOk};
ghost use Rattle.json_trees.specs.View.{view};
ghost use Rattle.bytecode.specs.View.{instruction_view};
ghost use Rattle.bytecode.specs.Known.{HasKnownKinds};
ghost use Rattle.bytecode.specs.Reading.Operands.{Gives};
ghost use Rattle.handler_code.specs.Reading.ReaderViews.{scope_view};
ghost use Rattle.bytecode.specs.Reading.SourceRows.{idle_row, timeout_row, remove_row, call_row};

use crate::reading::operand_lists::registers_at;
use crate::reading::operand_shapes::one_name;
use crate::reading::operand_words::{
    check_none, interval_at, name_at, priority_at, register_at, register_or_null_at,
};
use crate::reading::scope::Scope;
use bytecode::{Call, Instruction, InstructionError, SourceInstruction};
use json_trees::Value;
use std::alloc::Global;

// Reads `idle d p n z`.
#[tactic(auto, unfolding(bytecode::specs::Reading::SourceRows::idle_row))]
pub(crate) fn read_idle(
    alloc: Global,
    scope: &Scope<'_>,
    json: &Value,
) -> Result<Instruction, InstructionError>
    ensures read { Gives instruction_view result (idle_row (scope_view scope.now) (view json.now)) }
    ensures known { IfOk result (λ i. HasKnownKinds scope.now.types.now i) }
{
    check_none(json, 5)?;
    let to = register_at(json, 1, scope.registers)?;
    let program = name_at(alloc, json, 2)?;
    let priority = priority_at(json, 3)?;
    let with = register_or_null_at(json, 4, scope.registers)?;
    Ok(Instruction::Source(SourceInstruction::Idle {
        to,
        program,
        priority,
        with,
    }))
}

// Reads `timeout d p n i z`.
#[tactic(auto, unfolding(bytecode::specs::Reading::SourceRows::timeout_row))]
pub(crate) fn read_timeout(
    alloc: Global,
    scope: &Scope<'_>,
    json: &Value,
) -> Result<Instruction, InstructionError>
    ensures read { Gives instruction_view result (timeout_row (scope_view scope.now) (view json.now)) }
    ensures known { IfOk result (λ i. HasKnownKinds scope.now.types.now i) }
{
    check_none(json, 6)?;
    let to = register_at(json, 1, scope.registers)?;
    let program = name_at(alloc, json, 2)?;
    let priority = priority_at(json, 3)?;
    let interval = interval_at(json, 4)?;
    let with = register_or_null_at(json, 5, scope.registers)?;
    Ok(Instruction::Source(SourceInstruction::Timeout {
        to,
        program,
        priority,
        interval,
        with,
    }))
}

// Reads `remove p`.
#[tactic(auto, unfolding(bytecode::specs::Reading::SourceRows::remove_row))]
pub(crate) fn read_remove(
    alloc: Global,
    scope: &Scope<'_>,
    json: &Value,
) -> Result<Instruction, InstructionError>
    ensures read { Gives instruction_view result (remove_row (scope_view scope.now) (view json.now)) }
    ensures known { IfOk result (λ i. HasKnownKinds scope.now.types.now i) }
{
    let program = one_name(alloc, json)?;
    Ok(Instruction::Source(SourceInstruction::Remove(program)))
}

// Reads `call d o m [a..]`.
#[tactic(auto, unfolding(bytecode::specs::Reading::SourceRows::call_row))]
pub(crate) fn read_call(
    alloc: Global,
    scope: &Scope<'_>,
    json: &Value,
) -> Result<Instruction, InstructionError>
    ensures read { Gives instruction_view result (call_row (scope_view scope.now) (view json.now)) }
    ensures known { IfOk result (λ i. HasKnownKinds scope.now.types.now i) }
{
    check_none(json, 5)?;
    let to = register_at(json, 1, scope.registers)?;
    let object = register_at(json, 2, scope.registers)?;
    let method = name_at(alloc, json, 3)?;
    let args = registers_at(alloc, json, 4, scope.registers)?;
    Ok(Instruction::Peer(Call {
        to,
        object,
        method,
        args,
    }))
}
