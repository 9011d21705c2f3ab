//! Readers for the instructions on properties and objects, one for each word.

ghost use Rattle.std.specs.Prelude.{IfOk};
ghost use Rattle.json_trees.specs.View.{view};
ghost use Rattle.bytecode.specs.View.{instruction_view};
ghost use Rattle.bytecode.specs.Known.{HasKnownKinds};
ghost use Rattle.bytecode.specs.Reading.Operands.{Gives};
ghost use Rattle.handler_code.specs.Reading.ReaderViews.{scope_view};
ghost use Rattle.bytecode.specs.Reading.ObjectRows.{get_row, set_row, object_row, new_row, sink_row, orphan_row, dispose_row, freeze_row, thaw_row, adopt_row, notify_row};

use crate::reading::operand_shapes::{one_register, register_and_name, three_registers};
use crate::reading::operand_words::{check_none, name_at, register_at};
use crate::reading::scope::Scope;
use bytecode::{Instruction, InstructionError, ObjectInstruction, PropertyInstruction};
use json_trees::Value;
use std::alloc::Global;

// Reads `get d o p`.
#[tactic(auto, unfolding(bytecode::specs::Reading::ObjectRows::get_row))]
pub(crate) fn read_get(
    alloc: Global,
    scope: &Scope<'_>,
    json: &Value,
) -> Result<Instruction, InstructionError>
    ensures read { Gives instruction_view result (get_row (scope_view scope.now) (view json.now)) }
    ensures known { IfOk result (λ i. HasKnownKinds scope.now.types.now i) }
{
    check_none(json, 4)?;
    let to = register_at(json, 1, scope.registers)?;
    let object = register_at(json, 2, scope.registers)?;
    let property = name_at(alloc, json, 3)?;
    Ok(Instruction::Property(PropertyInstruction::Get {
        to,
        object,
        property,
    }))
}

// Reads `set o p s`.
#[tactic(auto, unfolding(bytecode::specs::Reading::ObjectRows::set_row))]
pub(crate) fn read_set(
    alloc: Global,
    scope: &Scope<'_>,
    json: &Value,
) -> Result<Instruction, InstructionError>
    ensures read { Gives instruction_view result (set_row (scope_view scope.now) (view json.now)) }
    ensures known { IfOk result (λ i. HasKnownKinds scope.now.types.now i) }
{
    check_none(json, 4)?;
    let object = register_at(json, 1, scope.registers)?;
    let property = name_at(alloc, json, 2)?;
    let from = register_at(json, 3, scope.registers)?;
    Ok(Instruction::Property(PropertyInstruction::Set {
        object,
        property,
        from,
    }))
}

// Reads `object d id`.
#[tactic(auto, unfolding(bytecode::specs::Reading::ObjectRows::object_row))]
pub(crate) fn read_object(
    alloc: Global,
    scope: &Scope<'_>,
    json: &Value,
) -> Result<Instruction, InstructionError>
    ensures read { Gives instruction_view result (object_row (scope_view scope.now) (view json.now)) }
    ensures known { IfOk result (λ i. HasKnownKinds scope.now.types.now i) }
{
    let (to, id) = register_and_name(alloc, scope, json)?;
    Ok(Instruction::Object(ObjectInstruction::LookUp { to, id }))
}

// Reads `new d c`.
#[tactic(auto, unfolding(bytecode::specs::Reading::ObjectRows::new_row))]
pub(crate) fn read_new(
    alloc: Global,
    scope: &Scope<'_>,
    json: &Value,
) -> Result<Instruction, InstructionError>
    ensures read { Gives instruction_view result (new_row (scope_view scope.now) (view json.now)) }
    ensures known { IfOk result (λ i. HasKnownKinds scope.now.types.now i) }
{
    let (to, id) = register_and_name(alloc, scope, json)?;
    Ok(Instruction::Object(ObjectInstruction::New { to, id }))
}

// Reads `sink o`.
#[tactic(auto, unfolding(bytecode::specs::Reading::ObjectRows::sink_row))]
pub(crate) fn read_sink(scope: &Scope<'_>, json: &Value) -> Result<Instruction, InstructionError>
    ensures read { Gives instruction_view result (sink_row (scope_view scope.now) (view json.now)) }
    ensures known { IfOk result (λ i. HasKnownKinds scope.now.types.now i) }
{
    let object = one_register(scope, json)?;
    Ok(Instruction::Object(ObjectInstruction::Sink(object)))
}

// Reads `orphan o`.
#[tactic(auto, unfolding(bytecode::specs::Reading::ObjectRows::orphan_row))]
pub(crate) fn read_orphan(scope: &Scope<'_>, json: &Value) -> Result<Instruction, InstructionError>
    ensures read { Gives instruction_view result (orphan_row (scope_view scope.now) (view json.now)) }
    ensures known { IfOk result (λ i. HasKnownKinds scope.now.types.now i) }
{
    let object = one_register(scope, json)?;
    Ok(Instruction::Object(ObjectInstruction::Orphan(object)))
}

// Reads `dispose o`.
#[tactic(auto, unfolding(bytecode::specs::Reading::ObjectRows::dispose_row))]
pub(crate) fn read_dispose(scope: &Scope<'_>, json: &Value) -> Result<Instruction, InstructionError>
    ensures read { Gives instruction_view result (dispose_row (scope_view scope.now) (view json.now)) }
    ensures known { IfOk result (λ i. HasKnownKinds scope.now.types.now i) }
{
    let object = one_register(scope, json)?;
    Ok(Instruction::Object(ObjectInstruction::Dispose(object)))
}

// Reads `freeze o`.
#[tactic(auto, unfolding(bytecode::specs::Reading::ObjectRows::freeze_row))]
pub(crate) fn read_freeze(scope: &Scope<'_>, json: &Value) -> Result<Instruction, InstructionError>
    ensures read { Gives instruction_view result (freeze_row (scope_view scope.now) (view json.now)) }
    ensures known { IfOk result (λ i. HasKnownKinds scope.now.types.now i) }
{
    let object = one_register(scope, json)?;
    Ok(Instruction::Property(PropertyInstruction::Freeze(object)))
}

// Reads `thaw o`.
#[tactic(auto, unfolding(bytecode::specs::Reading::ObjectRows::thaw_row))]
pub(crate) fn read_thaw(scope: &Scope<'_>, json: &Value) -> Result<Instruction, InstructionError>
    ensures read { Gives instruction_view result (thaw_row (scope_view scope.now) (view json.now)) }
    ensures known { IfOk result (λ i. HasKnownKinds scope.now.types.now i) }
{
    let object = one_register(scope, json)?;
    Ok(Instruction::Property(PropertyInstruction::Thaw(object)))
}

// Reads `adopt d o o`.
#[tactic(auto, unfolding(bytecode::specs::Reading::ObjectRows::adopt_row))]
pub(crate) fn read_adopt(scope: &Scope<'_>, json: &Value) -> Result<Instruction, InstructionError>
    ensures read { Gives instruction_view result (adopt_row (scope_view scope.now) (view json.now)) }
    ensures known { IfOk result (λ i. HasKnownKinds scope.now.types.now i) }
{
    let (to, a, b) = three_registers(scope, json)?;
    Ok(Instruction::Object(ObjectInstruction::Adopt {
        to,
        parent: a,
        child: b,
    }))
}

// Reads `notify o p`.
#[tactic(auto, unfolding(bytecode::specs::Reading::ObjectRows::notify_row))]
pub(crate) fn read_notify(
    alloc: Global,
    scope: &Scope<'_>,
    json: &Value,
) -> Result<Instruction, InstructionError>
    ensures read { Gives instruction_view result (notify_row (scope_view scope.now) (view json.now)) }
    ensures known { IfOk result (λ i. HasKnownKinds scope.now.types.now i) }
{
    let (object, property) = register_and_name(alloc, scope, json)?;
    Ok(Instruction::Property(PropertyInstruction::Notify { object, property }))
}
