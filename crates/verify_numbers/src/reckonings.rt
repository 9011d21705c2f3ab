//! Computes ranks, costs and depths node by node.

ghost use Rattle.std.specs.Prelude.{◌≡◌, ◌<◌, ℕ, All, length, slice_index_or, IfOk, OnOk};
ghost use Rattle.verify_order.specs.Graphs.{IsOrder};
ghost use Rattle.law_typing.specs.Graph.{Graph};
ghost use Rattle.verify_sketches.specs.Sketches.{IsSketch};
ghost use Rattle.verify_numbers.specs.Reckonings.{AreFewNumbers, AreNodeNumbers, Reckons};
ghost use Rattle.verify_numbers.specs.Links.{ComesOfCycle, NamesBelow};
ghost use Rattle.verify_sketches.specs.Sizes.{IsSmall};
ghost use Rattle.verify_sketches.specs.View.{sketch_view};
ghost use Rattle.verify_numbers.specs.Columns.{no_columns, with_nodes};
ghost use Rattle.verify_numbers.specs.Counts.{counts_of};
ghost use Rattle.verify_numbers.specs.Ends.{EndsAreThere};
ghost use Rattle.verify_order.specs.Numbers.{AreWithin};
ghost use Rattle.verify_numbers.specs.Laid.{all_of_blocks, all_of_channels, all_of_programs, laid};

use crate::block_nodes::{BlockPart, add_block_parts};
use crate::channel_nodes::{ChannelPart, add_channel_parts};
use crate::cycle_links::{SketchedLink, first_channel, links_of, rest_of};
use crate::layouts::Layout;
use crate::nodes::Nodes;
use crate::program_nodes::{ProgramPart, add_groups, add_places, add_programs, add_starts};
use std::alloc::{AllocError, Global};
use verify_order::{Sorted, sort};
use verify_sketches::Sketch;

// Adds the nodes of channels.
fn add_channels(
    nodes: &mut Nodes,
    sketch: &Sketch,
    layout: &Layout,
    handlers: u32,
) -> Result<(), AllocError>
    requires counted { layout.now ≡ counts_of (sketch_view sketch.now) }
    requires small { IsSmall (sketch_view sketch.now) }
    requires ends { EndsAreThere (sketch_view sketch.now) }
    ensures { OnOk result (nodes.new ≡ with_nodes nodes.old (all_of_channels (sketch_view sketch.now) handlers)) }
{
    add_channel_parts(nodes, sketch, layout, handlers, ChannelPart::Whole)?;
    add_channel_parts(nodes, sketch, layout, handlers, ChannelPart::Own)?;
    add_channel_parts(nodes, sketch, layout, handlers, ChannelPart::Stages)?;
    add_channel_parts(nodes, sketch, layout, handlers, ChannelPart::Connected)?;
    Ok(())
}

// Adds the nodes of groups, programs, places and starts.
fn add_others(nodes: &mut Nodes, sketch: &Sketch, layout: &Layout) -> Result<(), AllocError>
    requires counted { layout.now ≡ counts_of (sketch_view sketch.now) }
    requires small { IsSmall (sketch_view sketch.now) }
    ensures { OnOk result (nodes.new ≡ with_nodes nodes.old (all_of_programs (sketch_view sketch.now))) }
{
    add_groups(nodes, sketch, layout)?;
    add_programs(nodes, sketch, layout, ProgramPart::Program)?;
    add_programs(nodes, sketch, layout, ProgramPart::Blocks)?;
    add_places(nodes, sketch, layout)?;
    add_starts(nodes, sketch, layout)?;
    Ok(())
}

// Adds the nodes of blocks.
fn add_blocks(nodes: &mut Nodes, sketch: &Sketch, layout: &Layout) -> Result<(), AllocError>
    requires counted { layout.now ≡ counts_of (sketch_view sketch.now) }
    requires small { IsSmall (sketch_view sketch.now) }
    ensures { OnOk result (nodes.new ≡ with_nodes nodes.old (all_of_blocks (sketch_view sketch.now))) }
{
    add_block_parts(nodes, sketch, layout, BlockPart::Block)?;
    add_block_parts(nodes, sketch, layout, BlockPart::Passes)?;
    add_block_parts(nodes, sketch, layout, BlockPart::Next)?;
    Ok(())
}

// Returns all nodes of a sketch, where bytecode may connect `handlers` handlers.
fn nodes_of(
    alloc: Global,
    sketch: &Sketch,
    layout: &Layout,
    handlers: u32,
) -> Result<Nodes, AllocError>
    requires counted { layout.now ≡ counts_of (sketch_view sketch.now) }
    requires small { IsSmall (sketch_view sketch.now) }
    requires ends { EndsAreThere (sketch_view sketch.now) }
    ensures { IfOk result (λ nodes. nodes ≡ with_nodes no_columns (laid (sketch_view sketch.now) handlers)) }
{
    let mut nodes = Nodes::new(alloc);
    add_channels(&mut nodes, sketch, layout, handlers)?;
    add_others(&mut nodes, sketch, layout)?;
    add_blocks(&mut nodes, sketch, layout)?;
    Ok(nodes)
}

// The cap of costs, which is one above the greatest bound.
const MOST_COST: u64 = 1_000_000_000_001;

// The cap of depths, which is more than any depth.
const MOST_DEPTH: u64 = 2_147_483_648;

/// The numbers of the nodes of a graph without a cycle.
#[derive(Debug, Drop)]
pub struct NodeNumbers {
    /// The cost of each node, capped at one above the greatest bound.
    pub costs: Vec<u64>,
    /// The number of frames that each node may need.
    pub depths: Vec<u64>,
    /// The number of channels' nodes that come before each node on the longest chain that ends in it.
    pub ranks: Vec<u64>,
}

// Computes the costs, depths and ranks of nodes, in this order of the nodes. No rank is above the number of nodes.
fn numbers_of(alloc: Global, nodes: &Nodes, order: &[usize]) -> Result<NodeNumbers, AllocError>
    requires costs { length nodes.now.costs ≡ length nodes.now.graph }
    requires depths { length nodes.now.depths ≡ length nodes.now.graph }
    requires counts { length nodes.now.counts ≡ length nodes.now.graph }
    requires order { IsOrder nodes.now.graph order.now }
    ensures reckoned { IfOk result (λ numbers. AreNodeNumbers nodes.now numbers) }
    ensures few { IfOk result (λ numbers. AreWithin numbers.ranks.items (length nodes.now.graph)) }
{
    let costs = verify_order::numbers(
        alloc,
        nodes.costs.as_slice(),
        &nodes.dependencies,
        order,
        MOST_COST,
    )?;
    let depths = verify_order::numbers(
        alloc,
        nodes.depths.as_slice(),
        &nodes.dependencies,
        order,
        MOST_DEPTH,
    )?;
    let ranks = verify_order::ranks(alloc, nodes.counts.as_slice(), &nodes.dependencies, order)?;
    Ok(NodeNumbers {
        costs,
        depths,
        ranks,
    })
}

/// The result for a graph: its numbers, or a cycle.
#[derive(Debug, Drop)]
pub enum Reckoned {
    Numbers(NodeNumbers),
    /// Channels that each lead to the next one, and the last one to the first. None of them comes twice.
    Cycle(Vec<SketchedLink>),
}

// Returns the links of a cycle of nodes, from the first node of a channel on.
fn reckon_cycle(
    alloc: Global,
    layout: &Layout,
    cycle: &[usize],
) -> Result<Vec<SketchedLink>, AllocError>
    requires channel { (i : ℕ) × (i < length cycle.now) × (slice_index_or cycle.now i 0 < layout.now.channels) }
    ensures comes { IfOk result (λ links. ComesOfCycle layout.now cycle.now links.items) }
    ensures few { IfOk result (λ links. All (NamesBelow layout.now.programs) links.items) }
{
    let Some(first) = first_channel(layout, cycle) else {
        unreachable!();
    };
    let rest = rest_of(alloc, cycle, first)?;
    let links = links_of(alloc, layout, cycle[first], rest.as_slice())?;
    Ok(links)
}

/// Returns the numbers of the nodes of a sketch, where bytecode may connect `handlers` handlers, or else a cycle of its channels. The
/// sketch must be small, so that there are fewer than 2^28 nodes.
///
/// # Errors
///
/// `AllocError` if memory is refused.
pub fn reckon(
    alloc: Global,
    sketch: &Sketch,
    layout: &Layout,
    handlers: u32,
) -> Result<Reckoned, AllocError>
    requires counted { layout.now ≡ counts_of (sketch_view sketch.now) }
    requires small { IsSmall (sketch_view sketch.now) }
    requires sketched { (g : Graph) × IsSketch g (sketch_view sketch.now) }
    ensures few { IfOk result AreFewNumbers }
    ensures reckoned { IfOk result (λ reckoned. (g : Graph) → IsSketch g (sketch_view sketch.now) → g.most_handlers ≡ handlers
        → Reckons g (sketch_view sketch.now) reckoned) }
{
    let nodes = nodes_of(alloc, sketch, layout, handlers)?;
    match sort(alloc, &nodes.dependencies)? {
        Sorted::Order(order) => {
            let numbers = numbers_of(alloc, &nodes, order.as_slice())?;
            Ok(Reckoned::Numbers(numbers))
        }
        Sorted::Cycle(cycle) => {
            let links = reckon_cycle(alloc, layout, cycle.as_slice())?;
            Ok(Reckoned::Cycle(links))
        }
    }
}
