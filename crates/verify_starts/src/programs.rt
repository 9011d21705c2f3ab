//! Sketches the programs of a definition: what each instruction may start, how often each block is passed, and which blocks come next.

ghost use Rattle.std.specs.Prelude.{◌≡◌, ◌++◌, ◌+◌, ◌≤◌, length, map, IfOk, OnOk};
ghost use Rattle.std.specs.List.{flat_map};
ghost use Rattle.bytecode.specs.Shape.{instructions_in};
ghost use Rattle.bytecode.specs.View.{block_view, control_view, instruction_view, program_view};
ghost use Rattle.law_typing.specs.Graph.{next_of};
ghost use Rattle.verify_sketches.specs.View.{block_view as sketched_view, start_view};
ghost use Rattle.verify_starts.specs.Sizes.{AreSmall};
ghost use Rattle.verify_starts.specs.SketchedCode.{AreBlocks, AreNumbersOf, ArePrograms, IsBlock, sketched_code};
ghost use Rattle.verify_starts.specs.Tables.{AreOfSome, GoesOn, IsTable, starts_in};

use crate::kind_steps::go_after;
use crate::sketched_starts::SketchedStarts;
use crate::triggers::trigger_of;
use bytecode::{Block, ControlInstruction, Instruction, Program};
use std::alloc::{AllocError, Global};
use verify_graph::ChannelNumbers;
use verify_operands::Lookups;
use verify_operands::lists::copy;
use verify_sketches::{SketchedBlock, SketchedStart};

/// The sketched blocks of each program of a definition, and what instructions may start.
#[derive(Debug, Drop)]
pub struct SketchedPrograms {
    pub programs: Vec<Vec<SketchedBlock>>,
    pub starts: Vec<SketchedStart>,
}

// Adds the blocks that an instruction at the end of a block may go to.
fn add_targets(next: &mut Vec<usize>, control: &ControlInstruction) -> Result<(), AllocError>
    ensures { OnOk result (next.new.items ≡ next.old.items ++ next_of (control_view control.now)) }
{
    match control {
        ControlInstruction::Jump(to) => next.push(to.0)?,
        ControlInstruction::Branch {
            then_to,
            else_to,
            ..
        } => {
            next.push(then_to.0)?;
            next.push(else_to.0)?;
        }
        ControlInstruction::BranchNull {
            then_to,
            else_to,
            ..
        } => {
            next.push(then_to.0)?;
            next.push(else_to.0)?;
        }
        ControlInstruction::Return(_) => {}
    }
    Ok(())
}

// Adds the blocks that an instruction may go to.
#[tactic(auto, using(crate::proofs::NextBlocks::computed, crate::proofs::NextBlocks::of_property, crate::proofs::NextBlocks::of_object, crate::proofs::NextBlocks::of_signal, crate::proofs::NextBlocks::of_source))]
fn add_next(next: &mut Vec<usize>, instruction: &Instruction) -> Result<(), AllocError>
    ensures { OnOk result (next.new.items ≡ next.old.items ++ next_of (instruction_view instruction.now)) }
{
    match instruction {
        Instruction::Control(control) => add_targets(next, control),
        Instruction::Compute { .. }
        | Instruction::Property(_)
        | Instruction::Object(_)
        | Instruction::Signal(_)
        | Instruction::Source(_)
        | Instruction::Peer(_) => Ok(()),
    }
}

// Returns the blocks that may come after a block.
fn next_blocks(alloc: Global, block: &Block) -> Result<Vec<usize>, AllocError>
    ensures { IfOk result (λ next. next.items ≡ flat_map next_of (block_view block.now).code) }
{
    let mut next = Vec::new(alloc);
    for at in 0..block.code.len() {
        add_next(&mut next, &block.code[at])?;
    }
    Ok(next)
}

// Returns the number of what each instruction of a block may start.
fn block_starts(
    alloc: Global,
    lookups: &Lookups<'_>,
    numbers: &ChannelNumbers,
    starts: &mut SketchedStarts,
    program: &Program,
    block: &Block,
) -> Result<Vec<u32>, AllocError>
    requires table { IsTable lookups.now numbers.now starts.old }
    requires few { length starts.old.starts.items + length block.now.code.items ≤ 131073 }
    ensures goes_on { IfOk result (λ s. GoesOn lookups.now numbers.now starts.old starts.new) }
    ensures few { IfOk result (λ s. length starts.new.starts.items ≤ length starts.old.starts.items + length block.now.code.items) }
    ensures starts { IfOk result (λ s. AreNumbersOf (starts_in starts.new) s.items
        (sketched_code lookups.now numbers.now (program_view program.now) (block_view block.now).entry (block_view block.now).code)) }
{
    let mut found = Vec::new(alloc);
    let mut kinds = copy(alloc, block.entry.as_slice())?;
    for at in 0..block.code.len() {
        let instruction = &block.code[at];
        let trigger = trigger_of(lookups, kinds.as_slice(), instruction);
        let number = starts.number(alloc, lookups, numbers, &trigger)?;
        found.push(number)?;
        go_after(alloc, lookups, program, &mut kinds, instruction)?;
    }
    Ok(found)
}

// Sketches a block.
fn sketched_block(
    alloc: Global,
    lookups: &Lookups<'_>,
    numbers: &ChannelNumbers,
    starts: &mut SketchedStarts,
    program: &Program,
    block: &Block,
) -> Result<SketchedBlock, AllocError>
    requires table { IsTable lookups.now numbers.now starts.old }
    requires few { length starts.old.starts.items + length block.now.code.items ≤ 131073 }
    ensures goes_on { IfOk result (λ s. GoesOn lookups.now numbers.now starts.old starts.new) }
    ensures few { IfOk result (λ s. length starts.new.starts.items ≤ length starts.old.starts.items + length block.now.code.items) }
    ensures block { IfOk result (λ s. IsBlock lookups.now numbers.now (starts_in starts.new) (program_view program.now) (sketched_view s) (block_view block.now)) }
{
    let found = block_starts(alloc, lookups, numbers, starts, program, block)?;
    let next = next_blocks(alloc, block)?;
    Ok(SketchedBlock {
        starts: found,
        passes: block.passes(),
        next,
    })
}

// Sketches the blocks of a program.
fn sketched_blocks(
    alloc: Global,
    lookups: &Lookups<'_>,
    numbers: &ChannelNumbers,
    starts: &mut SketchedStarts,
    program: &Program,
) -> Result<Vec<SketchedBlock>, AllocError>
    requires table { IsTable lookups.now numbers.now starts.old }
    requires few { length starts.old.starts.items + instructions_in (program_view program.now).blocks ≤ 131073 }
    ensures goes_on { IfOk result (λ s. GoesOn lookups.now numbers.now starts.old starts.new) }
    ensures few { IfOk result (λ s. length starts.new.starts.items ≤ length starts.old.starts.items + instructions_in (program_view program.now).blocks) }
    ensures sketched { IfOk result (λ s. AreBlocks lookups.now numbers.now (starts_in starts.new) (map sketched_view s.items) (program_view program.now)) }
{
    let mut blocks = Vec::new(alloc);
    for number in 0..program.blocks.len() {
        let block = sketched_block(
            alloc,
            lookups,
            numbers,
            starts,
            program,
            &program.blocks[number],
        )?;
        blocks.push(block)?;
    }
    Ok(blocks)
}

// Sketches all programs of a definition.
fn all_programs(
    alloc: Global,
    lookups: &Lookups<'_>,
    numbers: &ChannelNumbers,
    starts: &mut SketchedStarts,
) -> Result<Vec<Vec<SketchedBlock>>, AllocError>
    requires table { IsTable lookups.now numbers.now starts.old }
    requires first { length starts.old.starts.items ≡ 1 }
    ensures programs { IfOk result (λ s. ArePrograms lookups.now numbers.now (starts_in starts.new) (map (λ v. map sketched_view v.items) s.items) lookups.now.programs) }
    ensures each { IfOk result (λ s. AreOfSome lookups.now numbers.now (starts_in starts.new)) }
    ensures few { IfOk result (λ s. AreSmall (starts_in starts.new) (map (λ v. map sketched_view v.items) s.items)) }
{
    // For the proof: there are few programs, and each of them is short.
    let _types = lookups.definition().types();
    let mut programs = Vec::new(alloc);
    for number in 0..lookups.most_programs() {
        let Some(program) = lookups.program(number) else {
            return Ok(programs);
        };
        let sketched = sketched_blocks(alloc, lookups, numbers, starts, program)?;
        programs.push(sketched)?;
    }
    Ok(programs)
}

/// Sketches the programs of a definition.
///
/// # Errors
///
/// `AllocError` if memory is refused.
pub fn sketched_programs(
    alloc: Global,
    lookups: &Lookups<'_>,
    numbers: &ChannelNumbers,
) -> Result<SketchedPrograms, AllocError>
    ensures programs { IfOk result (λ s. ArePrograms lookups.now numbers.now (map start_view s.starts.items) (map (λ v. map sketched_view v.items) s.programs.items) lookups.now.programs) }
    ensures each { IfOk result (λ s. AreOfSome lookups.now numbers.now (map start_view s.starts.items)) }
    ensures few { IfOk result (λ s. AreSmall (map start_view s.starts.items) (map (λ v. map sketched_view v.items) s.programs.items)) }
{
    let mut starts = SketchedStarts::new(alloc, lookups, numbers)?;
    let programs = all_programs(alloc, lookups, numbers, &mut starts)?;
    Ok(SketchedPrograms {
        programs,
        starts: starts.starts,
    })
}
