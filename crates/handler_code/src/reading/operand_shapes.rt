//! Readers for combinations of operands that several words share.

ghost use Rattle.std.specs.Prelude.{◌≡◌, option_map, string_bytes};
ghost use Rattle.json_trees.specs.View.{view};
ghost use Rattle.bytecode.specs.View.{number_of, connect_view};
ghost use Rattle.bytecode.specs.Computing.{comparison_of};
ghost use Rattle.bytecode.specs.Reading.Operands.{Gives};
ghost use Rattle.handler_code.specs.Reading.ReaderViews.{scope_view};
ghost use Rattle.bytecode.specs.Reading.OperandShapes.{one_register, two_registers, three_registers, register_and_name, one_name, register_and_blocks, comparison_named, comparison_at, connect_at};

use crate::reading::operand_lists::options_at;
use crate::reading::operand_words::{
    block_at, check_none, detail_at, name_at, register_at, register_or_null_at, text_at,
};
use crate::reading::scope::Scope;
use bytecode::{BlockNumber, Comparison, Connection, InstructionError, Register};
use json_trees::Value;
use std::alloc::Global;

// Reads the operands of an instruction that has one register.
#[tactic(auto, unfolding(bytecode::specs::Reading::OperandShapes::one_register))]
pub(crate) fn one_register(scope: &Scope<'_>, json: &Value) -> Result<Register, InstructionError>
    ensures { Gives number_of result (one_register (scope_view scope.now) (view json.now)) }
{
    check_none(json, 2)?;
    let register = register_at(json, 1, scope.registers)?;
    Ok(register)
}

// Reads the operands of an instruction that has two registers.
#[tactic(auto, unfolding(bytecode::specs::Reading::OperandShapes::two_registers))]
pub(crate) fn two_registers(
    scope: &Scope<'_>,
    json: &Value,
) -> Result<(Register, Register), InstructionError>
    ensures { Gives (λ r. (r.0.0, r.1.0)) result (two_registers (scope_view scope.now) (view json.now)) }
{
    check_none(json, 3)?;
    let a = register_at(json, 1, scope.registers)?;
    let b = register_at(json, 2, scope.registers)?;
    Ok((a, b))
}

// Reads the operands of an instruction that has three registers.
#[tactic(auto, unfolding(bytecode::specs::Reading::OperandShapes::three_registers))]
pub(crate) fn three_registers(
    scope: &Scope<'_>,
    json: &Value,
) -> Result<(Register, Register, Register), InstructionError>
    ensures { Gives (λ r. (r.0.0, r.1.0, r.2.0)) result (three_registers (scope_view scope.now) (view json.now)) }
{
    check_none(json, 4)?;
    let a = register_at(json, 1, scope.registers)?;
    let b = register_at(json, 2, scope.registers)?;
    let c = register_at(json, 3, scope.registers)?;
    Ok((a, b, c))
}

// Reads the operands of an instruction that has a register and a name.
#[tactic(auto, unfolding(bytecode::specs::Reading::OperandShapes::register_and_name))]
pub(crate) fn register_and_name(
    alloc: Global,
    scope: &Scope<'_>,
    json: &Value,
) -> Result<(Register, String), InstructionError>
    ensures { Gives (λ r. (r.0.0, string_bytes r.1)) result (register_and_name (scope_view scope.now) (view json.now)) }
{
    check_none(json, 3)?;
    let register = register_at(json, 1, scope.registers)?;
    let name = name_at(alloc, json, 2)?;
    Ok((register, name))
}

// Reads the operand of an instruction that has one name.
#[tactic(auto, unfolding(bytecode::specs::Reading::OperandShapes::one_name))]
pub(crate) fn one_name(alloc: Global, json: &Value) -> Result<String, InstructionError>
    ensures { Gives string_bytes result (one_name (view json.now)) }
{
    check_none(json, 2)?;
    let name = name_at(alloc, json, 1)?;
    Ok(name)
}

// Reads the operands of an instruction that has a register and two blocks.
#[tactic(auto, unfolding(bytecode::specs::Reading::OperandShapes::register_and_blocks))]
pub(crate) fn register_and_blocks(
    scope: &Scope<'_>,
    json: &Value,
) -> Result<(Register, BlockNumber, BlockNumber), InstructionError>
    ensures { Gives (λ r. (r.0.0, r.1.0, r.2.0)) result (register_and_blocks (scope_view scope.now) (view json.now)) }
{
    check_none(json, 4)?;
    let register = register_at(json, 1, scope.registers)?;
    let first = block_at(json, 2, scope.blocks)?;
    let second = block_at(json, 3, scope.blocks)?;
    Ok((register, first, second))
}

// Returns the comparison that a word names: `eq`, `lt` or `le`.
fn comparison_named(word: &str) -> Option<Comparison>
    ensures { option_map comparison_of result ≡ comparison_named word.now }
{
    if word == "eq" {
        Some(Comparison::Equal)
    } else if word == "lt" {
        Some(Comparison::Less)
    } else if word == "le" {
        Some(Comparison::AtMost)
    } else {
        None
    }
}

// Reads the comparison at entry `at`.
pub(crate) fn comparison_at(json: &Value, at: usize) -> Result<Comparison, InstructionError>
    ensures { Gives comparison_of result (comparison_at (view json.now) at) }
{
    match comparison_named(text_at(json, at)?) {
        Some(comparison) => Ok(comparison),
        None => Err(InstructionError::BadInstruction),
    }
}

// Reads the operands of `connect` that come after the object.
#[tactic(auto, unfolding(bytecode::specs::Reading::OperandShapes::connect_at))]
pub(crate) fn connection_at(
    alloc: Global,
    scope: &Scope<'_>,
    json: &Value,
) -> Result<Connection, InstructionError>
    ensures { Gives connect_view result (connect_at (scope_view scope.now) (view json.now)) }
{
    let signal = name_at(alloc, json, 3)?;
    let detail = detail_at(alloc, json, 4)?;
    let program = name_at(alloc, json, 5)?;
    let options = options_at(json, 6)?;
    let with = register_or_null_at(json, 7, scope.registers)?;
    Ok(Connection {
        signal,
        detail,
        program,
        after: options.after,
        swapped: options.swapped,
        with,
    })
}
