//! Adds the nodes of groups, programs, places and starts.

ghost use Rattle.std.specs.Prelude.{◌≡◌, ◌<◌, ◌≤◌, length, map, OnOk};
ghost use Rattle.verify_sketches.specs.Numbered.{blocks_node, group_node, place_node, program_node, start_cost, start_depth, start_edges, start_node};
ghost use Rattle.verify_sketches.specs.Sizes.{IsSmall};
ghost use Rattle.verify_sketches.specs.View.{block_view, sketch_view, start_view};
ghost use Rattle.verify_numbers.specs.Columns.{linked, with_node, with_nodes};
ghost use Rattle.verify_numbers.specs.Counts.{at_in, counts_of};
ghost use Rattle.verify_numbers.specs.Laid.{group_nodes, place_nodes, program_nodes, program_part_node, start_nodes};

use crate::layouts::Layout;
use crate::links::{link_blocks, link_channels, link_if, link_places, link_programs};
use crate::nodes::{Nodes, greatest_of, sum_of};
use std::alloc::AllocError;
use ui_machine::ProgramId;
use verify_order::Rule;
use verify_sketches::{Sketch, SketchedBlock, SketchedStart};

/// A part of a program that has a node of its own.
#[derive(Clone, Copy, Debug, PartialEq, Eq)]
pub enum ProgramPart {
    /// The program, from its first block on.
    Program,
    /// All blocks of the program.
    Blocks,
}

// Adds the node of a group of programs.
fn add_group(
    nodes: &mut Nodes,
    sketch: &Sketch,
    layout: &Layout,
    number: usize,
    programs: &[ProgramId],
) -> Result<(), AllocError>
    requires counted { layout.now ≡ counts_of (sketch_view sketch.now) }
    requires small { IsSmall (sketch_view sketch.now) }
    ensures { OnOk result (nodes.new ≡ with_node nodes.old (group_node (sketch_view sketch.now) (at_in (sketch_view sketch.now)) number programs.now)) }
{
    // For the proof: which node it is does not matter.
    let _ = number;
    nodes.add(greatest_of(1, 0), greatest_of(1, 0), false)?;
    link_programs(nodes, sketch, layout, programs)?;
    Ok(())
}

// Adds the node of a program, from its first block on.
fn add_program(
    nodes: &mut Nodes,
    sketch: &Sketch,
    layout: &Layout,
    number: usize,
    blocks: &[SketchedBlock],
) -> Result<(), AllocError>
    requires counted { layout.now ≡ counts_of (sketch_view sketch.now) }
    requires small { IsSmall (sketch_view sketch.now) }
    requires there { number < layout.now.programs }
    ensures { OnOk result (nodes.new ≡ with_node nodes.old (program_node (at_in (sketch_view sketch.now)) number (map block_view blocks.now))) }
{
    // For the proof: the layout is that of the sketch.
    let _ = sketch;
    nodes.add(sum_of(1, 0), greatest_of(1, 1), false)?;
    link_if(nodes, !blocks.is_empty(), layout.block(number, 0))?;
    nodes.link(layout.blocks(number))?;
    Ok(())
}

// Adds the node of all blocks of a program.
fn add_blocks(
    nodes: &mut Nodes,
    sketch: &Sketch,
    layout: &Layout,
    number: usize,
    blocks: &[SketchedBlock],
) -> Result<(), AllocError>
    requires counted { layout.now ≡ counts_of (sketch_view sketch.now) }
    requires small { IsSmall (sketch_view sketch.now) }
    requires few { length blocks.now ≤ 64 }
    ensures { OnOk result (nodes.new ≡ with_node nodes.old (blocks_node (at_in (sketch_view sketch.now)) number (map block_view blocks.now))) }
{
    nodes.add(greatest_of(0, 0), greatest_of(1, 0), false)?;
    link_blocks(nodes, sketch, layout, number, blocks.len())?;
    Ok(())
}

// Adds the node of a part of a program.
fn add_program_part(
    nodes: &mut Nodes,
    sketch: &Sketch,
    layout: &Layout,
    part: ProgramPart,
    number: usize,
    blocks: &[SketchedBlock],
) -> Result<(), AllocError>
    requires counted { layout.now ≡ counts_of (sketch_view sketch.now) }
    requires small { IsSmall (sketch_view sketch.now) }
    requires there { number < layout.now.programs }
    requires few { length blocks.now ≤ 64 }
    ensures { OnOk result (nodes.new ≡ with_node nodes.old (program_part_node (sketch_view sketch.now) part number (map block_view blocks.now))) }
{
    match part {
        ProgramPart::Program => add_program(nodes, sketch, layout, number, blocks),
        ProgramPart::Blocks => add_blocks(nodes, sketch, layout, number, blocks),
    }
}

// Adds the node of a place's paired properties.
fn add_place(
    nodes: &mut Nodes,
    sketch: &Sketch,
    layout: &Layout,
    number: usize,
    channels: &[u32],
) -> Result<(), AllocError>
    requires counted { layout.now ≡ counts_of (sketch_view sketch.now) }
    ensures { OnOk result (nodes.new ≡ with_node nodes.old (place_node (sketch_view sketch.now) (at_in (sketch_view sketch.now)) number channels.now)) }
{
    // For the proof: which node it is does not matter.
    let _ = number;
    nodes.add(sum_of(1, 0), greatest_of(1, 0), false)?;
    link_channels(nodes, sketch, layout, channels)?;
    Ok(())
}

// Returns the rule that gives the cost of a start from the costs of what it leads to.
fn start_cost(start: &SketchedStart) -> Rule
    ensures { result ≡ start_cost (start_view start.now) }
{
    match start {
        SketchedStart::Makes(_) => sum_of(1, 1),
        SketchedStart::Nothing | SketchedStart::Raises(_) | SketchedStart::Thaws(_) => greatest_of(
            1, 0,
        ),
    }
}

// Returns the rule that gives the depth of a start from the depths of what it leads to.
fn start_depth(start: &SketchedStart) -> Rule
    ensures { result ≡ start_depth (start_view start.now) }
{
    match start {
        SketchedStart::Makes(_) => greatest_of(1, 1),
        SketchedStart::Nothing | SketchedStart::Raises(_) | SketchedStart::Thaws(_) => greatest_of(
            1, 0,
        ),
    }
}

// Adds edges to what a start leads to.
fn link_start(
    nodes: &mut Nodes,
    sketch: &Sketch,
    layout: &Layout,
    start: &SketchedStart,
) -> Result<(), AllocError>
    requires counted { layout.now ≡ counts_of (sketch_view sketch.now) }
    requires small { IsSmall (sketch_view sketch.now) }
    requires node { 0 < length nodes.old.graph }
    ensures { OnOk result (nodes.new ≡ linked nodes.old (start_edges (sketch_view sketch.now) (at_in (sketch_view sketch.now)) (start_view start.now))) }
{
    match start {
        SketchedStart::Nothing => Ok(()),
        SketchedStart::Raises(channels) => link_channels(
            nodes,
            sketch,
            layout,
            channels.as_slice(),
        ),
        SketchedStart::Makes(channels) => link_channels(nodes, sketch, layout, channels.as_slice()),
        SketchedStart::Thaws(places) => link_places(nodes, sketch, layout, places.as_slice()),
    }
}

// Adds the node of a start.
fn add_start(
    nodes: &mut Nodes,
    sketch: &Sketch,
    layout: &Layout,
    number: usize,
    start: &SketchedStart,
) -> Result<(), AllocError>
    requires counted { layout.now ≡ counts_of (sketch_view sketch.now) }
    requires small { IsSmall (sketch_view sketch.now) }
    ensures { OnOk result (nodes.new ≡ with_node nodes.old (start_node (sketch_view sketch.now) (at_in (sketch_view sketch.now)) number (start_view start.now))) }
{
    // For the proof: which node it is does not matter.
    let _ = number;
    nodes.add(start_cost(start), start_depth(start), false)?;
    link_start(nodes, sketch, layout, start)?;
    Ok(())
}

/// Adds the nodes of all groups.
///
/// # Errors
///
/// `AllocError` if memory is refused.
pub fn add_groups(nodes: &mut Nodes, sketch: &Sketch, layout: &Layout) -> Result<(), AllocError>
    requires counted { layout.now ≡ counts_of (sketch_view sketch.now) }
    requires small { IsSmall (sketch_view sketch.now) }
    ensures { OnOk result (nodes.new ≡ with_nodes nodes.old (group_nodes (sketch_view sketch.now))) }
{
    let groups = sketch.groups.as_slice();
    for number in 0..groups.len() {
        add_group(nodes, sketch, layout, number, groups[number].as_slice())?;
    }
    Ok(())
}

/// Adds the node of this part of each program.
///
/// # Errors
///
/// `AllocError` if memory is refused.
pub fn add_programs(
    nodes: &mut Nodes,
    sketch: &Sketch,
    layout: &Layout,
    part: ProgramPart,
) -> Result<(), AllocError>
    requires counted { layout.now ≡ counts_of (sketch_view sketch.now) }
    requires small { IsSmall (sketch_view sketch.now) }
    ensures { OnOk result (nodes.new ≡ with_nodes nodes.old (program_nodes (sketch_view sketch.now) part)) }
{
    let programs = sketch.programs.as_slice();
    for number in 0..programs.len() {
        add_program_part(
            nodes,
            sketch,
            layout,
            part,
            number,
            programs[number].as_slice(),
        )?;
    }
    Ok(())
}

/// Adds the nodes of all places.
///
/// # Errors
///
/// `AllocError` if memory is refused.
pub fn add_places(nodes: &mut Nodes, sketch: &Sketch, layout: &Layout) -> Result<(), AllocError>
    requires counted { layout.now ≡ counts_of (sketch_view sketch.now) }
    ensures { OnOk result (nodes.new ≡ with_nodes nodes.old (place_nodes (sketch_view sketch.now))) }
{
    let paired = sketch.paired.as_slice();
    for number in 0..paired.len() {
        add_place(nodes, sketch, layout, number, paired[number].as_slice())?;
    }
    Ok(())
}

/// Adds the nodes of all starts.
///
/// # Errors
///
/// `AllocError` if memory is refused.
pub fn add_starts(nodes: &mut Nodes, sketch: &Sketch, layout: &Layout) -> Result<(), AllocError>
    requires counted { layout.now ≡ counts_of (sketch_view sketch.now) }
    requires small { IsSmall (sketch_view sketch.now) }
    ensures { OnOk result (nodes.new ≡ with_nodes nodes.old (start_nodes (sketch_view sketch.now))) }
{
    let starts = sketch.starts.as_slice();
    for number in 0..starts.len() {
        add_start(nodes, sketch, layout, number, &starts[number])?;
    }
    Ok(())
}
