//! Reads a whole program.

ghost use Rattle.std.specs.Prelude.{◌≡◌, All, IfOk, IfSome, None};
ghost use Rattle.json_trees.specs.View.{view};
ghost use Rattle.serde_json.specs.View as serde_json;
ghost use Rattle.bytecode.specs.View.{program_view};
ghost use Rattle.g_values.specs.View.{IsKnown};
ghost use Rattle.bytecode.specs.Known.{HasKnownBlocks, IsKnownRegister};
ghost use Rattle.handler_code.specs.Reading.ReaderViews.{names_view, outline_view};
ghost use Rattle.bytecode.specs.Reading.Outline.{IsWellFormed, outline_in};
ghost use Rattle.bytecode.specs.Reading.Outline as outlines;
ghost use Rattle.bytecode.specs.Reading.Programs.{Gives, program_of};
ghost use Rattle.bytecode.specs.Shape.{shape_fault};

use crate::reading::code::blocks_of;
use crate::reading::names::Names;
use crate::reading::outline::Outline;
use crate::reading::outlines::read_outline;
use crate::reading::scope::Scope;
use bytecode::{OutlineError, Program, ProgramError};
use json_trees::Value;
use std::alloc::Global;

// Reads the instructions of an outline, then checks the shape of the blocks and the limits.
#[tactic(auto, unfolding(bytecode::specs::Reading::Programs::program_of))]
fn program_of(
    alloc: Global,
    outline: Outline<'_>,
    names: &Names<'_>,
) -> Result<Program, ProgramError>
    requires params { All (λ k. IsKnownRegister names.now.types.now k) outline.params.items }
    requires result { IfSome outline.result (λ k. IsKnown names.now.types.now k) }
    ensures read { Gives program_view result (program_of (names_view names.now) (outline_view outline.entry)) }
    ensures known { IfOk result (λ p. HasKnownBlocks names.now.types.now p) }
    ensures shaped { IfOk result (λ p. shape_fault (program_view p) ≡ None) }
{
    let scope = Scope {
        types: names.types,
        registers: outline.registers,
        blocks: outline.blocks.len(),
    };
    let blocks = blocks_of(alloc, &scope, outline.blocks.as_slice())?;
    let name = String::from_str(alloc, outline.name)?;
    let program = Program {
        name,
        params: outline.params,
        registers: outline.registers,
        result: outline.result,
        blocks,
    };
    match program.shape_fault() {
        Some(fault) => Err(ProgramError::Refused(fault)),
        None => Ok(program),
    }
}

/// Reads the program that a JSON value denotes.
///
/// The value must have passed [`check_outline`](crate::check_outline) with the same names, so its members are not checked here. The first
/// block begins with the parameters in the first registers, each other block with the kinds of its `in`. The other registers are unset. It
/// is not checked here whether the names in instructions denote something, or whether registers have the right kinds.
///
/// # Errors
///
/// Returns the first of these that applies, in this order:
///
/// 1. `BadInstruction` with the block and the instruction, if it is no instruction, uses a register or a block that does not exist, or
///    comes after one that ends the block. If there are several, the first one in document order is reported.
/// 2. `BackwardJump` with the first block that leads to itself or to an earlier block.
/// 3. `NoReturn` with the first block that does not end with a jump or a return.
/// 4. `Limit` if there are more than 32 registers, or else more than 64 blocks, or else more than 512 instructions in all blocks together.
/// 5. `BadRepeat` with the first block that has a `repeat` outside of 1 to 65,535 or no jump at its end.
///
/// Returns `OutOfMemory` instead of any of them if a list or a text can't be allocated.
pub fn read_program(alloc: Global, json: &Value, names: &Names<'_>) -> Result<Program, ProgramError>
    requires { IsWellFormed (names_view names.now) (view json.now) }
    ensures read { (o : outlines.Outline) → outline_in (names_view names.now) (view json.now) ≡ Ok o → Gives program_view result (program_of (names_view names.now) o) }
    ensures known { IfOk result (λ p. HasKnownBlocks names.now.types.now p) }
    ensures shaped { IfOk result (λ p. shape_fault (program_view p) ≡ None) }
{
    match read_outline(alloc, json, names) {
        Ok(outline) => program_of(alloc, outline, names),
        Err(OutlineError::OutOfMemory) => Err(ProgramError::OutOfMemory),
        Err(OutlineError::Refused(_)) => unreachable!(),
    }
}

/// Reads the program that a value of `serde_json` denotes, which must have passed `check_outline` as a [`Value`] of the same data.
///
/// # Errors
///
/// Those of [`read_program`](crate::read_program), and `OutOfMemory` if a copy of the value can't be allocated.
pub fn read_json_program(
    alloc: Global,
    json: &serde_json::Value,
    names: &Names<'_>,
) -> Result<Program, ProgramError>
    requires { IsWellFormed (names_view names.now) (serde_json.view json.now) }
    ensures read { (o : outlines.Outline) → outline_in (names_view names.now) (serde_json.view json.now) ≡ Ok o → Gives program_view result (program_of (names_view names.now) o) }
    ensures known { IfOk result (λ p. HasKnownBlocks names.now.types.now p) }
    ensures shaped { IfOk result (λ p. shape_fault (program_view p) ≡ None) }
{
    let json = Value::copied(alloc, json)?;
    read_program(alloc, &json, names)
}
