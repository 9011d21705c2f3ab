//! Computes the numbers that are reported of a definition.

ghost use Rattle.std.specs.Prelude.{◌≡◌, ◌+◌, ℕ, length, map, max, IfOk};
ghost use Rattle.ui_machine.specs.Seq.{listed};
ghost use Rattle.law_idle.specs.Idle.{busy_channels, busy_graph};
ghost use Rattle.law_typing.specs.Graph.Channels as law;
ghost use Rattle.ui_verifier.specs.ByChannel.{Gives, makings_depth};
ghost use Rattle.law_typing.specs.Graph.Tables.{greatest};
ghost use Rattle.law_typing.specs.Laws.Capped.{capped};
ghost use Rattle.verify_numbers.specs.Tables.{cost_tables, depth_tables, rank_table};
ghost use Rattle.verify_order.specs.Numbers.{AreWithin, of_node};
ghost use Rattle.verify_sketches.specs.Numbered as part;
ghost use Rattle.verify_sketches.specs.Sketches.{IsSketch};
ghost use Rattle.verify_sketches.specs.View.{sketch_view};
ghost use Rattle.verify_numbers.specs.Counts.{at, at_in, counts_of};
ghost use Rattle.verify_numbers.specs.Reckonings.{AreGraphNumbers, HaveFew};
ghost use Rattle.verified.specs.Told.{source_view};
ghost use Rattle.ui_verifier.specs.Bounds.{AreCappedIn, with_objects};

use crate::{build_bound, capped_sum, makings_depth, source_programs};
use std::alloc::{AllocError, Global};
use ui_machine::ProgramId;
use verified::{Numbers, SourceBound};
use verify_graph::ChannelNumbers;
use verify_numbers::{Layout, NodeNumbers, channel_values, program_value};
use verify_operands::Lookups;
use verify_sketches::Sketch;

// Returns the costs, each with a finalisation added for each of `objects` objects.
fn bounds_of(alloc: Global, costs: &[u64], objects: u32) -> Result<Vec<u64>, AllocError>
    ensures { IfOk result (λ bounds. bounds.items ≡ with_objects objects costs.now) }
{
    let mut bounds = Vec::new(alloc);
    for cost in costs {
        bounds.push(capped_sum(*cost, u64::from(objects)))?;
    }
    Ok(bounds)
}

// Converts ranks to numbers of 32 bits. There are fewer than 2^32 channels.
fn ranks_of(alloc: Global, values: &[u64]) -> Result<Vec<u32>, AllocError>
    requires { AreWithin values.now 4294967294 }
    ensures { IfOk result (λ ranks. ranks.items ≡ values.now) }
{
    let mut ranks = Vec::new(alloc);
    for value in values {
        ranks.push(*value as u32)?;
    }
    Ok(ranks)
}

// Returns the bound of a source that runs a program.
fn source_bound(layout: &Layout, costs: &[u64], objects: u32, program: ProgramId) -> SourceBound
    ensures { source_view result ≡ (program, capped (of_node costs.now (at layout.now (part.program program)) + objects)) }
{
    let cost = program_value(layout, costs, program);
    SourceBound {
        program,
        bound: capped_sum(cost, u64::from(objects)),
    }
}

// Returns the bounds of the sources that run these programs.
fn source_bounds(
    alloc: Global,
    layout: &Layout,
    costs: &[u64],
    objects: u32,
    programs: &[ProgramId],
) -> Result<Vec<SourceBound>, AllocError>
    ensures { IfOk result (λ bounds. map source_view bounds.items
        ≡ map (λ (p : ℕ). (p, capped (of_node costs.now (at layout.now (part.program p)) + objects))) programs.now) }
{
    let mut bounds = Vec::new(alloc);
    for program in programs {
        bounds.push(source_bound(layout, costs, objects, *program))?;
    }
    Ok(bounds)
}

// Returns the greatest of some numbers, or 0 if there are none.
fn greatest(values: &[u64]) -> u64
    ensures { result ≡ greatest (λ (n : ℕ). n) values.now }
{
    let mut most: u64 = 0;
    for value in values {
        most = most.max(*value);
    }
    most
}

// Returns the number of each program's node.
fn program_values(
    alloc: Global,
    lookups: &Lookups<'_>,
    layout: &Layout,
    values: &[u64],
) -> Result<Vec<u64>, AllocError>
    ensures { IfOk result (λ numbers. numbers.items ≡ listed (λ p. of_node values.now (at layout.now (part.program p))) (length lookups.now.programs)) }
{
    let mut numbers = Vec::new(alloc);
    for number in 0..lookups.most_programs() {
        let Some(_program) = lookups.program(number) else {
            return Ok(numbers);
        };
        numbers.push(program_value(layout, values, number))?;
    }
    Ok(numbers)
}

// Returns the greatest number of frames of any configuration, from the depths of channels and of programs.
fn depth_of(
    alloc: Global,
    lookups: &Lookups<'_>,
    channels: &ChannelNumbers,
    values: &[u64],
    programs: &[u64],
) -> Result<u32, AllocError>
    requires count { length values.now ≡ length channels.now }
    requires few { AreWithin values.now 2147483648 }
    requires programs { AreWithin programs.now 2147483648 }
    ensures { IfOk result (λ depth. (f : law.Channel → ℕ) → Gives channels.now values.now f
        → depth ≡ max (greatest (λ (n : ℕ). n) values.now) (max (greatest (λ (n : ℕ). n) programs.now) (makings_depth lookups.now f))) }
{
    let makings = makings_depth(alloc, lookups, channels, values)?;
    let most = greatest(values).max(greatest(programs).max(makings));
    Ok(most as u32)
}

/// Returns the numbers of a definition, and of its busy channels. Each bound is capped at one above the greatest.
///
/// # Errors
///
/// `AllocError` if memory is refused.
pub(crate) fn told_numbers(
    alloc: Global,
    lookups: &Lookups<'_>,
    channels: &ChannelNumbers,
    sketch: &Sketch,
    layout: &Layout,
    nodes: &NodeNumbers,
) -> Result<Numbers, AllocError>
    requires known { channels.now ≡ busy_channels lookups.now }
    requires counted { layout.now ≡ counts_of (sketch_view sketch.now) }
    requires sketched { IsSketch (busy_graph lookups.now) (sketch_view sketch.now) }
    requires reckoned { AreGraphNumbers (busy_graph lookups.now) (sketch_view sketch.now) nodes.now }
    requires few { HaveFew nodes.now }
    ensures capped { IfOk result (λ numbers. AreCappedIn (busy_graph lookups.now) (busy_channels lookups.now) numbers
        (rank_table (busy_graph lookups.now) (sketch_view sketch.now) (at_in (sketch_view sketch.now)) nodes.now.ranks.items)
        (cost_tables (busy_graph lookups.now) (at_in (sketch_view sketch.now)) nodes.now.costs.items)
        (depth_tables (busy_graph lookups.now) (sketch_view sketch.now) (at_in (sketch_view sketch.now)) nodes.now.depths.items)) }
    ensures idle { IfOk result (λ numbers. numbers.idle ≡ capped (1 + lookups.now.most_objects)) }
{
    let objects = lookups.definition().limits().objects;
    let costs = channel_values(alloc, sketch, layout, nodes.costs.as_slice())?;
    let ranks = channel_values(alloc, sketch, layout, nodes.ranks.as_slice())?;
    let depths = channel_values(alloc, sketch, layout, nodes.depths.as_slice())?;
    let programs = program_values(alloc, lookups, layout, nodes.depths.as_slice())?;
    let named = source_programs(alloc, lookups)?;
    let ranks = ranks_of(alloc, ranks.as_slice())?;
    let bounds = bounds_of(alloc, costs.as_slice(), objects)?;
    let build = build_bound(alloc, lookups, channels, costs.as_slice(), objects)?;
    let sources = source_bounds(
        alloc,
        layout,
        nodes.costs.as_slice(),
        objects,
        named.as_slice(),
    )?;
    let depth = depth_of(
        alloc,
        lookups,
        channels,
        depths.as_slice(),
        programs.as_slice(),
    )?;
    Ok(Numbers {
        ranks,
        bounds,
        idle: capped_sum(1, u64::from(objects)),
        build,
        sources,
        depth,
    })
}
