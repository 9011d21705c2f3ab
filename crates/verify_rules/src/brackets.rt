//! Checks that freezes and thaws match within each block. What a register freezes is thawed in the same block by the same register, which
//! is not written in between.
//!
//! A block is read from its end, so that the brackets that are open at an instruction are known from the code after it.

ghost use Rattle.std.specs.Prelude.{◌≡◌, map, option_map, slice_get, IfOk};
ghost use Rattle.bytecode.specs.View.{block_view, instruction_view, program_view};
ghost use Rattle.law_typing.specs.Rules.Brackets.{balance_faults, bracket_faults, is_balanced};
ghost use Rattle.verify_rules.specs.Faults.{unbalanced_view};

use crate::open_brackets::{are_closed, bracket_step, go_before};
use bytecode::{Block, BlockNumber, Program};
use std::alloc::{AllocError, Global};
use ui_machine::ProgramId;
use verify_operands::Lookups;

/// A block whose freezes and thaws do not match.
#[derive(Clone, Copy, Debug, PartialEq, Eq)]
pub struct Unbalanced {
    pub program: ProgramId,
    pub block: BlockNumber,
}

/// Returns whether the freezes and thaws of a block match.
///
/// # Errors
///
/// `AllocError` if memory is refused.
pub fn is_balanced(alloc: Global, block: &Block) -> Result<bool, AllocError>
    ensures { IfOk result (λ r. r ≡ is_balanced (block_view block.now).code) }
{
    let mut open = Vec::new(alloc);
    let count = block.code.len();
    for behind in 0..count {
        let step = bracket_step(&block.code[count - 1 - behind]);
        let kept = go_before(&mut open, &step)?;
        if !kept {
            return Ok(false);
        }
    }
    Ok(are_closed(open.as_slice()))
}

// Returns the first block of a program whose freezes and thaws do not match.
fn program_fault(
    alloc: Global,
    number: ProgramId,
    program: &Program,
) -> Result<Option<Unbalanced>, AllocError>
    ensures { IfOk result (λ r. option_map unbalanced_view r ≡ slice_get (balance_faults number 0 (program_view program.now).blocks) 0) }
{
    for block in 0..program.blocks.len() {
        let balanced = is_balanced(alloc, &program.blocks[block])?;
        if !balanced {
            return Ok(Some(Unbalanced {
                program: number,
                block: BlockNumber(block),
            }));
        }
    }
    Ok(None)
}

/// Returns the first block of a definition whose freezes and thaws do not match. It does not matter whether its program is ever run.
///
/// # Errors
///
/// `AllocError` if memory is refused.
pub fn bracket_fault(alloc: Global, lookups: &Lookups<'_>) -> Result<Option<Unbalanced>, AllocError>
    ensures { IfOk result (λ r. option_map unbalanced_view r ≡ slice_get (bracket_faults lookups.now) 0) }
{
    for number in 0..lookups.most_programs() {
        let Some(program) = lookups.program(number) else {
            return Ok(None);
        };
        if let Some(fault) = program_fault(alloc, number, program)? {
            return Ok(Some(fault));
        }
    }
    Ok(None)
}
