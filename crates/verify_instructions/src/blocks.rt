//! Types blocks and programs up to the first instruction that breaks a rule.

ghost use Rattle.std.specs.Prelude.{◌≡◌, option_map, slice_get, IfOk};
ghost use Rattle.bytecode.specs.View.{block_view, instruction_view, program_view};
ghost use Rattle.law_typing.specs.Rules.Sites.{block_faults, typing_faults};
ghost use Rattle.law_typing.specs.Rules.Typing.{again, block_broken, typed_in};
ghost use Rattle.verify_instructions.specs.CodeSteps.{Goes, is_jump, is_unfit};
ghost use Rattle.verify_instructions.specs.Faults.{broken_view, fault_view};
ghost use Rattle.verify_operands.specs.Views.{Leaves, kinds_of};

use crate::instructions::typed;
use bytecode::{Block, BlockNumber, ControlInstruction, Instruction, Program, RegisterKind};
use std::alloc::{AllocError, Global};
use ui_machine::ProgramId;
use verify_operands::fits::kinds_fit;
use verify_operands::lists::{copy, write};
use verify_operands::{Lookups, Rule, TypingError, Written};

/// The first instruction of a block that breaks a rule.
#[derive(Clone, Copy, Debug, PartialEq, Eq)]
pub struct BrokenRule {
    /// The number of the instruction in its block.
    pub at: usize,
    pub rule: Rule,
}

/// The first instruction of a definition that breaks a rule.
#[derive(Clone, Copy, Debug, PartialEq, Eq)]
pub struct IllTyped {
    pub program: ProgramId,
    pub block: BlockNumber,
    /// The number of the instruction in its block.
    pub at: usize,
    pub rule: Rule,
}

// Returns whether an instruction is a jump.
fn is_jump(instruction: &Instruction) -> bool
    ensures { result ≡ is_jump (instruction_view instruction.now) }
{
    matches!(
        instruction,
        Instruction::Control(ControlInstruction::Jump(_))
    )
}

// Returns whether an instruction is the jump of a repeated block, and the registers do not fit the kinds that this block begins with.
fn is_unfit(
    lookups: &Lookups<'_>,
    block: &Block,
    kinds: &[RegisterKind],
    instruction: &Instruction,
) -> bool
    ensures { result ≡ is_unfit lookups.now (again (block_view block.now)) (kinds_of kinds.now) (instruction_view instruction.now) }
{
    block.repeat.is_some()
        && is_jump(instruction)
        && !kinds_fit(lookups, kinds, block.entry.as_slice())
}

// Types an instruction of a block.
#[tactic(auto, using(crate::proofs::CodeSteps::unfit, crate::proofs::CodeSteps::fit))]
fn typed_in(
    alloc: Global,
    lookups: &Lookups<'_>,
    program: &Program,
    block: &Block,
    kinds: &[RegisterKind],
    instruction: &Instruction,
) -> Result<Option<Written>, TypingError>
    ensures { Leaves (kinds_of kinds.now) result (typed_in lookups.now (program_view program.now) (again (block_view block.now)) (kinds_of kinds.now) (instruction_view instruction.now)) }
{
    if is_unfit(lookups, block, kinds, instruction) {
        return Err(TypingError::Broken(Rule::Block));
    }
    typed(alloc, lookups, program, kinds, instruction)
}

// Types an instruction of a block. Returns the rule that it breaks, or writes the kind that it leaves in a register.
#[tactic(auto, using(verify_operands::proofs::Filled::write_seen))]
fn go_through(
    alloc: Global,
    lookups: &Lookups<'_>,
    program: &Program,
    block: &Block,
    kinds: &mut Vec<RegisterKind>,
    instruction: &Instruction,
) -> Result<Option<Rule>, AllocError>
    ensures { IfOk result (λ r. Goes r (kinds_of kinds.new.items) (typed_in lookups.now (program_view program.now) (again (block_view block.now)) (kinds_of kinds.old.items) (instruction_view instruction.now))) }
{
    match typed_in(
        alloc,
        lookups,
        program,
        block,
        kinds.as_slice(),
        instruction,
    ) {
        Ok(None) => Ok(None),
        Ok(Some(written)) => {
            write(kinds, written.to.0, written.kind, RegisterKind::Unset)?;
            Ok(None)
        }
        Err(TypingError::Broken(rule)) => Ok(Some(rule)),
        Err(TypingError::OutOfMemory) => Err(AllocError),
    }
}

/// Returns the first instruction of a block that breaks a rule, and the rule.
///
/// # Errors
///
/// `AllocError` if memory is refused.
pub fn block_fault(
    alloc: Global,
    lookups: &Lookups<'_>,
    program: &Program,
    block: &Block,
) -> Result<Option<BrokenRule>, AllocError>
    ensures { IfOk result (λ r. option_map broken_view r ≡ block_broken lookups.now (program_view program.now) (block_view block.now)) }
{
    let mut kinds = copy(alloc, block.entry.as_slice())?;
    for at in 0..block.code.len() {
        if let Some(rule) = go_through(
            alloc,
            lookups,
            program,
            block,
            &mut kinds,
            &block.code[at],
        )? {
            return Ok(Some(BrokenRule { at, rule }));
        }
    }
    Ok(None)
}

/// Returns the first instruction of a program that breaks a rule.
///
/// # Errors
///
/// `AllocError` if memory is refused.
pub fn program_fault(
    alloc: Global,
    lookups: &Lookups<'_>,
    number: ProgramId,
    program: &Program,
) -> Result<Option<IllTyped>, AllocError>
    ensures { IfOk result (λ r. option_map fault_view r ≡ slice_get (block_faults lookups.now (program_view program.now) number 0 (program_view program.now).blocks) 0) }
{
    for block in 0..program.blocks.len() {
        if let Some(broken) = block_fault(alloc, lookups, program, &program.blocks[block])? {
            return Ok(Some(IllTyped {
                program: number,
                block: BlockNumber(block),
                at: broken.at,
                rule: broken.rule,
            }));
        }
    }
    Ok(None)
}

/// Returns the first instruction of a definition that breaks a rule. It does not matter whether its program is ever run.
///
/// # Errors
///
/// `AllocError` if memory is refused.
pub fn typing_fault(alloc: Global, lookups: &Lookups<'_>) -> Result<Option<IllTyped>, AllocError>
    ensures { IfOk result (λ r. option_map fault_view r ≡ slice_get (typing_faults lookups.now) 0) }
{
    for number in 0..lookups.most_programs() {
        let Some(program) = lookups.program(number) else {
            return Ok(None);
        };
        if let Some(fault) = program_fault(alloc, lookups, number, program)? {
            return Ok(Some(fault));
        }
    }
    Ok(None)
}
