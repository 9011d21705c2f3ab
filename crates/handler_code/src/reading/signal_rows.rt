//! Readers for the instructions on signals, handlers and bindings, one for each word.

ghost use Rattle.std.specs.Prelude.{IfOk};
ghost use Rattle.json_trees.specs.View.{view};
ghost use Rattle.bytecode.specs.View.{instruction_view};
ghost use Rattle.bytecode.specs.Known.{HasKnownKinds};
ghost use Rattle.bytecode.specs.Reading.Operands.{Gives};
ghost use Rattle.handler_code.specs.Reading.ReaderViews.{scope_view};
ghost use Rattle.bytecode.specs.Reading.SignalRows.{emit_row, connect_row, disconnect_row, block_row, unblock_row, stop_row, unbind_row};

use crate::reading::operand_lists::registers_at;
use crate::reading::operand_shapes::{connection_at, one_name, register_and_name};
use crate::reading::operand_words::{
    check_none, name_at, register_at, register_or_null_at, shared_detail_at,
};
use crate::reading::scope::Scope;
use bytecode::{Instruction, InstructionError, SignalInstruction, SourceInstruction};
use json_trees::Value;
use std::alloc::Global;

// Reads `emit z o s D [a..]`.
#[tactic(auto, unfolding(bytecode::specs::Reading::SignalRows::emit_row))]
pub(crate) fn read_emit(
    alloc: Global,
    scope: &Scope<'_>,
    json: &Value,
) -> Result<Instruction, InstructionError>
    ensures read { Gives instruction_view result (emit_row (scope_view scope.now) (view json.now)) }
    ensures known { IfOk result (λ i. HasKnownKinds scope.now.types.now i) }
{
    check_none(json, 6)?;
    let into = register_or_null_at(json, 1, scope.registers)?;
    let object = register_at(json, 2, scope.registers)?;
    let signal = name_at(alloc, json, 3)?;
    let detail = shared_detail_at(alloc, json, 4)?;
    let args = registers_at(alloc, json, 5, scope.registers)?;
    Ok(Instruction::Signal(SignalInstruction::Emit {
        into,
        object,
        signal,
        detail,
        args,
    }))
}

// Reads `connect d o s D p [options] z`.
#[tactic(auto, unfolding(bytecode::specs::Reading::SignalRows::connect_row))]
pub(crate) fn read_connect(
    alloc: Global,
    scope: &Scope<'_>,
    json: &Value,
) -> Result<Instruction, InstructionError>
    ensures read { Gives instruction_view result (connect_row (scope_view scope.now) (view json.now)) }
    ensures known { IfOk result (λ i. HasKnownKinds scope.now.types.now i) }
{
    check_none(json, 8)?;
    let to = register_at(json, 1, scope.registers)?;
    let object = register_at(json, 2, scope.registers)?;
    let connection = connection_at(alloc, scope, json)?;
    Ok(Instruction::Signal(SignalInstruction::Connect {
        to,
        object,
        connection,
    }))
}

// Reads `disconnect o p`.
#[tactic(auto, unfolding(bytecode::specs::Reading::SignalRows::disconnect_row))]
pub(crate) fn read_disconnect(
    alloc: Global,
    scope: &Scope<'_>,
    json: &Value,
) -> Result<Instruction, InstructionError>
    ensures read { Gives instruction_view result (disconnect_row (scope_view scope.now) (view json.now)) }
    ensures known { IfOk result (λ i. HasKnownKinds scope.now.types.now i) }
{
    let (object, program) = register_and_name(alloc, scope, json)?;
    Ok(Instruction::Signal(SignalInstruction::Disconnect { object, program }))
}

// Reads `block o p`.
#[tactic(auto, unfolding(bytecode::specs::Reading::SignalRows::block_row))]
pub(crate) fn read_block(
    alloc: Global,
    scope: &Scope<'_>,
    json: &Value,
) -> Result<Instruction, InstructionError>
    ensures read { Gives instruction_view result (block_row (scope_view scope.now) (view json.now)) }
    ensures known { IfOk result (λ i. HasKnownKinds scope.now.types.now i) }
{
    let (object, program) = register_and_name(alloc, scope, json)?;
    Ok(Instruction::Signal(SignalInstruction::Block { object, program }))
}

// Reads `unblock o p`.
#[tactic(auto, unfolding(bytecode::specs::Reading::SignalRows::unblock_row))]
pub(crate) fn read_unblock(
    alloc: Global,
    scope: &Scope<'_>,
    json: &Value,
) -> Result<Instruction, InstructionError>
    ensures read { Gives instruction_view result (unblock_row (scope_view scope.now) (view json.now)) }
    ensures known { IfOk result (λ i. HasKnownKinds scope.now.types.now i) }
{
    let (object, program) = register_and_name(alloc, scope, json)?;
    Ok(Instruction::Signal(SignalInstruction::Unblock { object, program }))
}

// Reads `stop`.
#[tactic(auto, unfolding(bytecode::specs::Reading::SignalRows::stop_row))]
pub(crate) fn read_stop(scope: &Scope<'_>, json: &Value) -> Result<Instruction, InstructionError>
    ensures read { Gives instruction_view result (stop_row (scope_view scope.now) (view json.now)) }
    ensures known { IfOk result (λ i. HasKnownKinds scope.now.types.now i) }
{
    check_none(json, 1)?;
    Ok(Instruction::Signal(SignalInstruction::Stop))
}

// Reads `unbind name`.
#[tactic(auto, unfolding(bytecode::specs::Reading::SignalRows::unbind_row))]
pub(crate) fn read_unbind(
    alloc: Global,
    scope: &Scope<'_>,
    json: &Value,
) -> Result<Instruction, InstructionError>
    ensures read { Gives instruction_view result (unbind_row (scope_view scope.now) (view json.now)) }
    ensures known { IfOk result (λ i. HasKnownKinds scope.now.types.now i) }
{
    let name = one_name(alloc, json)?;
    Ok(Instruction::Source(SourceInstruction::Unbind(name)))
}
