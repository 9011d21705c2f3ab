//! Reads the instructions of a program's blocks.

ghost use Rattle.std.specs.Prelude.{◌≡◌, All, IfOk, map};
ghost use Rattle.json_trees.specs.View.{view};
ghost use Rattle.bytecode.specs.View.{block_view, instruction_view, register_kind_view};
ghost use Rattle.bytecode.specs.Known.{HasKnownKinds, HasKnownCode};
ghost use Rattle.handler_code.specs.Reading.ReaderViews.{scope_view, block_outline_view};
ghost use Rattle.bytecode.specs.Reading.Programs.{Gives, blocks_in, code_in, filled, instruction_behind};

use crate::reading::instructions::read_instruction;
use crate::reading::outline::BlockOutline;
use crate::reading::scope::Scope;
use bytecode::{
    Block, BlockNumber, Instruction, InstructionError, MOST_REGISTERS, ProgramError, ProgramFault,
    RegisterKind, is_ended,
};
use json_trees::Value;
use std::alloc::{AllocError, Global};

// Reads instruction number `at` of a block. Refuses it if `code`, which comes before it, has already ended the block.
fn instruction_behind(
    alloc: Global,
    scope: &Scope<'_>,
    block: usize,
    at: usize,
    code: &[Instruction],
    json: &Value,
) -> Result<Instruction, ProgramError>
    ensures read { Gives instruction_view result (instruction_behind (scope_view scope.now) block at (map instruction_view code.now) (view json.now)) }
    ensures known { IfOk result (λ i. HasKnownKinds scope.now.types.now i) }
{
    let refused = ProgramFault::BadInstruction(BlockNumber(block), at);
    if is_ended(code) {
        return Err(ProgramError::Refused(refused));
    }
    match read_instruction(alloc, scope, json) {
        Ok(instruction) => Ok(instruction),
        Err(InstructionError::OutOfMemory) => Err(ProgramError::OutOfMemory),
        Err(InstructionError::BadInstruction) => Err(ProgramError::Refused(refused)),
    }
}

// Reads the instructions of a block.
fn code_of(
    alloc: Global,
    scope: &Scope<'_>,
    block: usize,
    items: &[Value],
) -> Result<Vec<Instruction>, ProgramError>
    ensures read { Gives (λ v. map instruction_view v.items) result (code_in (scope_view scope.now) block (map view items.now)) }
    ensures known { IfOk result (λ v. All (λ i. HasKnownKinds scope.now.types.now i) v.items) }
{
    let mut code = Vec::new(alloc);
    'items: for (at, item) in items.iter().enumerate() {
        let instruction = instruction_behind(alloc, scope, block, at, code.as_slice(), item)?;
        code.push(instruction)?;
    }
    Ok(code)
}

// Copies `kinds` and adds unset ones until there are as many as registers.
fn filled(
    alloc: Global,
    registers: usize,
    kinds: &[RegisterKind],
) -> Result<Vec<RegisterKind>, AllocError>
    ensures { IfOk result (λ v. map register_kind_view v.items ≡ filled registers (map register_kind_view kinds.now)) }
{
    let missing = registers.saturating_sub(kinds.len()).min(MOST_REGISTERS);
    let mut entry = Vec::from_slice(alloc, kinds)?;
    'filling: for _added in 0..missing {
        entry.push(RegisterKind::Unset)?;
    }
    Ok(entry)
}

// Reads the blocks of a program from their outlines.
pub(crate) fn blocks_of(
    alloc: Global,
    scope: &Scope<'_>,
    outlines: &[BlockOutline<'_>],
) -> Result<Vec<Block>, ProgramError>
    ensures read { Gives (λ v. map block_view v.items) result (blocks_in (scope_view scope.now) (map block_outline_view outlines.now)) }
    ensures known { IfOk result (λ v. All (λ b. HasKnownCode scope.now.types.now b) v.items) }
{
    let mut blocks = Vec::new(alloc);
    'outlines: for (number, outline) in outlines.iter().enumerate() {
        let code = code_of(alloc, scope, number, outline.code)?;
        let entry = filled(alloc, scope.registers, outline.entry.as_slice())?;
        blocks.push(Block {
            entry,
            repeat: outline.repeat,
            code,
        })?;
    }
    Ok(blocks)
}
