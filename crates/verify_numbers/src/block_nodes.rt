//! Adds the nodes of blocks.

ghost use Rattle.std.specs.Prelude.{◌≡◌, ◌<◌, ◌≤◌, ◌-◌, length, take, drop, map, OnOk};
ghost use Rattle.std.specs.List.{AllByRecursion};
ghost use Rattle.verify_sketches.specs.Numbered.{block_node, next_node, passes_node};
ghost use Rattle.verify_sketches.specs.Sizes.{IsSmall};
ghost use Rattle.verify_sketches.specs.View.{block_view, sketch_view};
ghost use Rattle.verify_numbers.specs.Columns.{with_node, with_nodes};
ghost use Rattle.verify_numbers.specs.Counts.{at_in, counts_of};
ghost use Rattle.verify_numbers.specs.Laid.{block_nodes, block_part_node, nodes_in_program};

use crate::layouts::Layout;
use crate::links::{link_next, link_starts};
use crate::nodes::{Nodes, greatest_of, sum_of};
use std::alloc::AllocError;
use verify_sketches::{Sketch, SketchedBlock};

/// A part of a block that has a node of its own.
#[derive(Clone, Copy, Debug, PartialEq, Eq)]
pub enum BlockPart {
    /// The block with its last instruction and what comes after it.
    Block,
    /// The instructions before the last, which are taken in each pass.
    Passes,
    /// The blocks that come after the block.
    Next,
}

// Returns all entries but the last.
fn before_last(starts: &[u32]) -> &[u32]
    ensures { result.now ≡ take (length starts.now - 1) starts.now }
{
    if starts.is_empty() {
        return starts;
    }
    &starts[..starts.len() - 1]
}

// Returns the last entry alone, if there is one.
fn only_last(starts: &[u32]) -> &[u32]
    ensures { result.now ≡ drop (length starts.now - 1) starts.now }
{
    if starts.is_empty() {
        return starts;
    }
    &starts[starts.len() - 1..]
}

// Adds the node of a block, with its last instruction.
fn add_whole(
    nodes: &mut Nodes,
    sketch: &Sketch,
    layout: &Layout,
    program: usize,
    number: usize,
    block: &SketchedBlock,
) -> Result<(), AllocError>
    requires counted { layout.now ≡ counts_of (sketch_view sketch.now) }
    requires small { IsSmall (sketch_view sketch.now) }
    requires few { number < 64 }
    ensures { OnOk result (nodes.new ≡ with_node nodes.old (block_node (sketch_view sketch.now) (at_in (sketch_view sketch.now)) program number (block_view block.now))) }
{
    let last = only_last(block.starts.as_slice());
    nodes.add(sum_of(1, last.len() as u64), greatest_of(1, 0), false)?;
    nodes.link(layout.passes(program, number))?;
    nodes.link(layout.next(program, number))?;
    link_starts(nodes, sketch, layout, last)?;
    Ok(())
}

// Adds the node of the instructions that a block takes in each pass.
fn add_passes(
    nodes: &mut Nodes,
    sketch: &Sketch,
    layout: &Layout,
    program: usize,
    number: usize,
    block: &SketchedBlock,
) -> Result<(), AllocError>
    requires counted { layout.now ≡ counts_of (sketch_view sketch.now) }
    requires small { IsSmall (sketch_view sketch.now) }
    requires short { length block.now.starts.items ≤ 512 }
    ensures { OnOk result (nodes.new ≡ with_node nodes.old (passes_node (sketch_view sketch.now) (at_in (sketch_view sketch.now)) program number (block_view block.now))) }
{
    // For the proof: which node it is does not matter.
    let _ = program;
    let _ = number;
    let starts = before_last(block.starts.as_slice());
    let more = u64::from(block.passes) * starts.len() as u64;
    nodes.add(sum_of(block.passes, more), greatest_of(1, 0), false)?;
    link_starts(nodes, sketch, layout, starts)?;
    Ok(())
}

// Adds the node of the blocks after a block of a program that has `count` blocks.
fn add_next(
    nodes: &mut Nodes,
    sketch: &Sketch,
    layout: &Layout,
    program: usize,
    count: usize,
    number: usize,
    block: &SketchedBlock,
) -> Result<(), AllocError>
    requires counted { layout.now ≡ counts_of (sketch_view sketch.now) }
    requires small { IsSmall (sketch_view sketch.now) }
    requires few { count ≤ 64 }
    requires there { number < count }
    ensures { OnOk result (nodes.new ≡ with_node nodes.old (next_node (at_in (sketch_view sketch.now)) program count number (block_view block.now))) }
{
    nodes.add(greatest_of(1, 0), greatest_of(1, 0), false)?;
    link_next(
        nodes,
        sketch,
        layout,
        program,
        count,
        number,
        block.next.as_slice(),
    )?;
    Ok(())
}

// Adds the node of a part of a block of a program that has `count` blocks.
fn add_part(
    nodes: &mut Nodes,
    sketch: &Sketch,
    layout: &Layout,
    part: BlockPart,
    program: usize,
    count: usize,
    number: usize,
    block: &SketchedBlock,
) -> Result<(), AllocError>
    requires counted { layout.now ≡ counts_of (sketch_view sketch.now) }
    requires small { IsSmall (sketch_view sketch.now) }
    requires short { length block.now.starts.items ≤ 512 }
    requires few { count ≤ 64 }
    requires there { number < count }
    ensures { OnOk result (nodes.new ≡ with_node nodes.old (block_part_node (sketch_view sketch.now) part program count number (block_view block.now))) }
{
    match part {
        BlockPart::Block => add_whole(nodes, sketch, layout, program, number, block),
        BlockPart::Passes => add_passes(nodes, sketch, layout, program, number, block),
        BlockPart::Next => add_next(nodes, sketch, layout, program, count, number, block),
    }
}

// Adds the node of this part of each block of a program.
fn add_parts(
    nodes: &mut Nodes,
    sketch: &Sketch,
    layout: &Layout,
    part: BlockPart,
    program: usize,
    blocks: &[SketchedBlock],
) -> Result<(), AllocError>
    requires counted { layout.now ≡ counts_of (sketch_view sketch.now) }
    requires small { IsSmall (sketch_view sketch.now) }
    requires few { length blocks.now ≤ 64 }
    requires short { AllByRecursion (λ b. length b.starts ≤ 512) (map block_view blocks.now) }
    ensures { OnOk result (nodes.new ≡ with_nodes nodes.old (nodes_in_program (sketch_view sketch.now) part program (map block_view blocks.now))) }
{
    for number in 0..blocks.len() {
        add_part(
            nodes,
            sketch,
            layout,
            part,
            program,
            blocks.len(),
            number,
            &blocks[number],
        )?;
    }
    Ok(())
}

/// Adds the node of this part of each block of each program.
///
/// # Errors
///
/// `AllocError` if memory is refused.
pub fn add_block_parts(
    nodes: &mut Nodes,
    sketch: &Sketch,
    layout: &Layout,
    part: BlockPart,
) -> Result<(), AllocError>
    requires counted { layout.now ≡ counts_of (sketch_view sketch.now) }
    requires small { IsSmall (sketch_view sketch.now) }
    ensures { OnOk result (nodes.new ≡ with_nodes nodes.old (block_nodes (sketch_view sketch.now) part)) }
{
    let programs = sketch.programs.as_slice();
    for number in 0..programs.len() {
        add_parts(
            nodes,
            sketch,
            layout,
            part,
            number,
            programs[number].as_slice(),
        )?;
    }
    Ok(())
}
