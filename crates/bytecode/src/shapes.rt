//! Tests that the blocks of a program fit together.
//!
//! Blocks lead only to later blocks, and each ends with a jump or a return. So a program ends, and the number of its steps is bounded.

ghost use Rattle.std.specs.Prelude.{◌≡◌, not, map, length, nat_lt};
ghost use Rattle.std.specs.List.{list_any, enumerate_from, position_from};
ghost use Rattle.ui_machine.specs.Seq.{total};
ghost use Rattle.bytecode.specs.View.{control_view, instruction_view, block_view, program_view};
ghost use Rattle.bytecode.specs.Shape.{ends_block, leads_back, is_ended, first_backward, first_open, is_jump, ends_in_jump, may_repeat, first_bad_repeat, first_limit, instructions_in, shape_fault};

use crate::faults::{ProgramFault, ProgramLimit};
use crate::instructions::{BlockNumber, ControlInstruction, Instruction};
use crate::programs::{Block, Program};

/// The most registers of a program.
pub const MOST_REGISTERS: usize = 32;

/// The most blocks of a program.
pub const MOST_BLOCKS: usize = 64;

/// The most passes over the instructions of a block.
pub const MOST_PASSES: u32 = 65_535;

/// The most instructions of a program, in all its blocks together.
pub const MOST_INSTRUCTIONS: usize = 512;

impl Program {
    /// Returns why the blocks of the program don't fit together, or `None` if they do.
    ///
    /// The fault is `BackwardJump` with the first block that leads to itself or to an earlier one, else `NoReturn` with the first block
    /// that does not end with a jump or a return, else `Limit` with the first limit that is exceeded, of registers, blocks and instructions
    /// in this order, else `BadRepeat` with the first block that says that it is repeated, but other than 1 to 65,535 times or without a
    /// jump at its end.
    pub fn shape_fault(&self) -> Option<ProgramFault>
        ensures { result ≡ shape_fault (program_view self.now) }
    {
        let blocks = self.blocks.as_slice();
        if let Some(block) = first_backward(blocks) {
            return Some(ProgramFault::BackwardJump(BlockNumber(block)));
        }
        if let Some(block) = first_open(blocks) {
            return Some(ProgramFault::NoReturn(BlockNumber(block)));
        }
        if let Some(limit) = first_limit(self) {
            return Some(ProgramFault::Limit(limit));
        }
        first_bad_repeat(blocks).map(|block| ProgramFault::BadRepeat(BlockNumber(block)))
    }
}

// Returns whether an instruction leads away from its block.
#[tactic(auto, using(crate::proofs::BlockShapes::stays, crate::proofs::BlockShapes::ends, crate::proofs::BlockShapes::property_stays, crate::proofs::BlockShapes::object_stays, crate::proofs::BlockShapes::signal_stays, crate::proofs::BlockShapes::source_stays))]
fn ends_block(instruction: &Instruction) -> bool
    ensures { result ≡ ends_block (instruction_view instruction.now) }
{
    matches!(instruction, Instruction::Control(_))
}

// Returns whether a control instruction of block `from` leads to this block or to an earlier one.
fn control_leads_back(control: &ControlInstruction, from: usize) -> bool
    ensures { result ≡ leads_back from (control_view control.now) }
{
    match control {
        ControlInstruction::Jump(to) => to.0 <= from,
        ControlInstruction::Branch {
            then_to,
            else_to,
            ..
        } => then_to.0 <= from || else_to.0 <= from,
        ControlInstruction::BranchNull {
            then_to,
            else_to,
            ..
        } => then_to.0 <= from || else_to.0 <= from,
        ControlInstruction::Return(_) => false,
    }
}

// Returns whether an instruction of block `from` leads to this block or to an earlier one.
#[tactic(auto, using(crate::proofs::BlockShapes::leads_nowhere, crate::proofs::BlockShapes::property_leads_nowhere, crate::proofs::BlockShapes::object_leads_nowhere, crate::proofs::BlockShapes::signal_leads_nowhere, crate::proofs::BlockShapes::source_leads_nowhere))]
fn leads_back(instruction: &Instruction, from: usize) -> bool
    ensures { result ≡ leads_back from (instruction_view instruction.now) }
{
    match instruction {
        Instruction::Control(control) => control_leads_back(control, from),
        Instruction::Compute { .. }
        | Instruction::Property(_)
        | Instruction::Object(_)
        | Instruction::Signal(_)
        | Instruction::Source(_)
        | Instruction::Peer(_) => false,
    }
}

// Returns whether one of a block's instructions leads to this block or to an earlier one.
fn has_backward(block: &Block, number: usize) -> bool
    ensures { result ≡ list_any (λ i. leads_back number (instruction_view i)) block.now.code.items }
{
    block
        .code
        .iter()
        .any(|instruction| leads_back(instruction, number))
}

fn backward_in(blocks: &[Block]) -> Option<usize>
    ensures { result ≡ position_from (λ e. list_any (λ i. leads_back e.0 (instruction_view i)) (e.1).code.items) 0 (enumerate_from 0 blocks.now) }
{
    blocks
        .iter()
        .enumerate()
        .position(|(number, block)| has_backward(block, number))
}

// Returns the first block that leads to itself or to an earlier one.
#[tactic(auto, using(crate::proofs::BlockShapes::backward_viewed))]
fn first_backward(blocks: &[Block]) -> Option<usize>
    ensures { result ≡ first_backward (map block_view blocks.now) }
{
    backward_in(blocks)
}

/// Returns whether the last instruction leads away from the block. False if there are no instructions.
pub fn is_ended(code: &[Instruction]) -> bool
    ensures { result ≡ is_ended (map instruction_view code.now) }
{
    match code.last() {
        Some(last) => ends_block(last),
        None => false,
    }
}

fn open_in(blocks: &[Block]) -> Option<usize>
    ensures { result ≡ position_from (λ b. not (is_ended (map instruction_view b.code.items))) 0 blocks.now }
{
    blocks
        .iter()
        .position(|block| !is_ended(block.code.as_slice()))
}

// Returns the first block that does not end with an instruction that leads away.
#[tactic(auto, using(crate::proofs::BlockShapes::open_viewed))]
fn first_open(blocks: &[Block]) -> Option<usize>
    ensures { result ≡ first_open (map block_view blocks.now) }
{
    open_in(blocks)
}

// Returns whether an instruction is a jump.
#[tactic(auto, using(crate::proofs::BlockShapes::is_none, crate::proofs::BlockShapes::property_is_none, crate::proofs::BlockShapes::object_is_none, crate::proofs::BlockShapes::signal_is_none, crate::proofs::BlockShapes::source_is_none))]
fn is_jump(instruction: &Instruction) -> bool
    ensures { result ≡ is_jump (instruction_view instruction.now) }
{
    matches!(
        instruction,
        Instruction::Control(ControlInstruction::Jump(_))
    )
}

// Returns whether the last instruction is a jump. False if there are no instructions.
fn ends_in_jump(code: &[Instruction]) -> bool
    ensures { result ≡ ends_in_jump (map instruction_view code.now) }
{
    match code.last() {
        Some(last) => is_jump(last),
        None => false,
    }
}

// Returns whether a block may be repeated as often as it says. True if it does not say so.
fn may_repeat(block: &Block) -> bool
    ensures { result ≡ may_repeat block.now.repeat (map instruction_view block.now.code.items) }
{
    match block.repeat {
        Some(passes) => {
            (1..=MOST_PASSES).contains(&passes) && ends_in_jump(block.code.as_slice())
        }
        None => true,
    }
}

fn bad_repeat_in(blocks: &[Block]) -> Option<usize>
    ensures { result ≡ position_from (λ b. not (may_repeat b.repeat (map instruction_view b.code.items))) 0 blocks.now }
{
    blocks.iter().position(|block| !may_repeat(block))
}

// Returns the first block that may not be repeated as often as it says.
#[tactic(auto, using(crate::proofs::BlockShapes::repeat_viewed))]
fn first_bad_repeat(blocks: &[Block]) -> Option<usize>
    ensures { result ≡ first_bad_repeat (map block_view blocks.now) }
{
    bad_repeat_in(blocks)
}

// Returns whether blocks have more instructions than a program may have.
fn has_too_many(blocks: &[Block]) -> bool
    ensures { result ≡ nat_lt 512 (total (λ b. length b.code.items) blocks.now) }
{
    let mut room = MOST_INSTRUCTIONS;
    for block in blocks {
        let taken = block.code.len();
        if taken > room {
            return true;
        }
        room -= taken;
    }
    false
}

// Like `has_too_many`, but its contract speaks of the blocks as the machine sees them.
#[tactic(auto, using(crate::proofs::BlockShapes::counted_viewed))]
fn has_too_many_instructions(blocks: &[Block]) -> bool
    ensures { result ≡ nat_lt 512 (instructions_in (map block_view blocks.now)) }
{
    has_too_many(blocks)
}

// Returns the first limit that a program exceeds, or `None` if it exceeds none.
#[tactic(auto, using(crate::proofs::BlockShapes::length_viewed))]
fn first_limit(program: &Program) -> Option<ProgramLimit>
    ensures { result ≡ first_limit (program_view program.now) }
{
    if program.registers > MOST_REGISTERS {
        return Some(ProgramLimit::Registers);
    }
    if program.blocks.len() > MOST_BLOCKS {
        return Some(ProgramLimit::Blocks);
    }
    if has_too_many_instructions(program.blocks.as_slice()) {
        return Some(ProgramLimit::Instructions);
    }
    None
}
