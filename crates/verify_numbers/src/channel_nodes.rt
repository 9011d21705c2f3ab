//! Adds the nodes of channels.

ghost use Rattle.std.specs.Prelude.{◌≡◌, ◌<◌, ◌∷◌, [], cond, length, IfSome, OnOk};
ghost use Rattle.verify_sketches.specs.Sizes.{IsSmall};
ghost use Rattle.verify_sketches.specs.View.{channel_view, sketch_view};
ghost use Rattle.law_typing.specs.Graph.{listed_if};
ghost use Rattle.verify_numbers.specs.Columns.{linked, with_node, with_nodes};
ghost use Rattle.verify_numbers.specs.Counts.{at_in, counts_of};
ghost use Rattle.verify_numbers.specs.Laid.{channel_node, channel_nodes};
ghost use Rattle.verify_numbers.specs.Ends.{EndsAreThere};
ghost use Rattle.verify_sketches.specs.Numbered.{connected_node, end_of, frames_of, one_if, own, own_node, programs_of, stages_node, transfer_if, whole_node};

use crate::layouts::Layout;
use crate::links::{link_channels, link_groups, link_programs};
use crate::nodes::{Nodes, greatest_of, sum_of};
use std::alloc::AllocError;
use ui_machine::ProgramId;
use verify_sketches::{Sketch, SketchedChannel};

/// A part of a channel that has a node of its own.
#[derive(Clone, Copy, Debug, PartialEq, Eq)]
pub enum ChannelPart {
    /// The channel as it is raised, together with the other end if it is in a pair.
    Whole,
    /// The emission at the channel.
    Own,
    /// The class handler of the channel.
    Stages,
    /// The handlers that bytecode may connect at the channel.
    Connected,
}

// Returns 1 if an emission begins, or else 0.
fn one_if(emits: bool) -> u64
    ensures { result ≡ one_if emits }
{
    if emits { 1 } else { 0 }
}

// Returns 1 for the transfer between the ends of a pair, or 0 if there is no pair.
fn transfer_if(other: Option<u32>) -> u64
    ensures { result ≡ transfer_if other }
{
    match other {
        Some(_) => 1,
        None => 0,
    }
}

// Returns the number of frames, which is one for each emission.
fn frames_of(emits: bool, other: Option<u32>) -> u64
    ensures { result ≡ frames_of emits other }
{
    match other {
        Some(_) => 2,
        None => one_if(emits),
    }
}

// Adds an edge to the emission of the other end, if there is one.
fn link_other(
    nodes: &mut Nodes,
    sketch: &Sketch,
    layout: &Layout,
    other: Option<u32>,
) -> Result<(), AllocError>
    requires counted { layout.now ≡ counts_of (sketch_view sketch.now) }
    requires small { IsSmall (sketch_view sketch.now) }
    requires other { IfSome other (λ n. n < layout.now.channels) }
    requires node { 0 < length nodes.old.graph }
    ensures { OnOk result (nodes.new ≡ linked nodes.old (end_of (at_in (sketch_view sketch.now)) other)) }
{
    // For the proof: the layout is that of the sketch.
    let _ = sketch;
    match other {
        Some(number) => nodes.link(layout.own(number as usize)),
        None => Ok(()),
    }
}

// Adds edges to the emissions of a channel and of the other end.
fn link_ends(
    nodes: &mut Nodes,
    sketch: &Sketch,
    layout: &Layout,
    number: usize,
    other: Option<u32>,
) -> Result<(), AllocError>
    requires counted { layout.now ≡ counts_of (sketch_view sketch.now) }
    requires small { IsSmall (sketch_view sketch.now) }
    requires there { number < layout.now.channels }
    requires other { IfSome other (λ n. n < layout.now.channels) }
    requires node { 0 < length nodes.old.graph }
    ensures { OnOk result (nodes.new ≡ linked nodes.old (at_in (sketch_view sketch.now) (own number) ∷ end_of (at_in (sketch_view sketch.now)) other)) }
{
    nodes.link(layout.own(number))?;
    link_other(nodes, sketch, layout, other)?;
    Ok(())
}

// Adds edges to both emissions if the channel is the first end of a pair, and none otherwise.
fn link_ends_if(
    nodes: &mut Nodes,
    sketch: &Sketch,
    layout: &Layout,
    is_first: bool,
    number: usize,
    other: Option<u32>,
) -> Result<(), AllocError>
    requires counted { layout.now ≡ counts_of (sketch_view sketch.now) }
    requires small { IsSmall (sketch_view sketch.now) }
    requires there { number < layout.now.channels }
    requires other { IfSome other (λ n. n < layout.now.channels) }
    requires node { 0 < length nodes.old.graph }
    ensures { OnOk result (nodes.new ≡ linked nodes.old (cond is_first (at_in (sketch_view sketch.now) (own number) ∷ end_of (at_in (sketch_view sketch.now)) other) [])) }
{
    if is_first {
        return link_ends(nodes, sketch, layout, number, other);
    }
    Ok(())
}

// Adds the node of a channel as it is raised. The second end of a pair has no edges of its own.
fn add_whole(
    nodes: &mut Nodes,
    sketch: &Sketch,
    layout: &Layout,
    number: usize,
    channel: &SketchedChannel,
) -> Result<(), AllocError>
    requires counted { layout.now ≡ counts_of (sketch_view sketch.now) }
    requires small { IsSmall (sketch_view sketch.now) }
    requires there { number < layout.now.channels }
    requires other { IfSome channel.now.other (λ n. n < layout.now.channels) }
    ensures { OnOk result (nodes.new ≡ with_node nodes.old (whole_node (at_in (sketch_view sketch.now)) number (channel_view channel.now))) }
{
    let frames = frames_of(channel.emits, channel.other);
    nodes.add(
        sum_of(1, transfer_if(channel.other)),
        greatest_of(1, frames),
        true,
    )?;
    let is_first = channel.first as usize == number;
    link_ends_if(nodes, sketch, layout, is_first, number, channel.other)?;
    Ok(())
}

// Adds the node of a channel's emission or construction.
fn add_own(
    nodes: &mut Nodes,
    sketch: &Sketch,
    layout: &Layout,
    number: usize,
    channel: &SketchedChannel,
) -> Result<(), AllocError>
    requires counted { layout.now ≡ counts_of (sketch_view sketch.now) }
    requires small { IsSmall (sketch_view sketch.now) }
    requires there { number < layout.now.channels }
    ensures { OnOk result (nodes.new ≡ with_node nodes.old (own_node (sketch_view sketch.now) (at_in (sketch_view sketch.now)) number (channel_view channel.now))) }
{
    let more = one_if(channel.emits) + u64::from(channel.transfers);
    nodes.add(sum_of(1, more), greatest_of(1, 0), false)?;
    nodes.link(layout.stages(number))?;
    nodes.link(layout.connected(number))?;
    link_programs(nodes, sketch, layout, channel.handlers.as_slice())?;
    link_channels(nodes, sketch, layout, channel.targets.as_slice())?;
    Ok(())
}

// Adds an edge to a class handler's program, if there is one.
fn link_handler(
    nodes: &mut Nodes,
    sketch: &Sketch,
    layout: &Layout,
    program: Option<ProgramId>,
) -> Result<(), AllocError>
    requires counted { layout.now ≡ counts_of (sketch_view sketch.now) }
    requires small { IsSmall (sketch_view sketch.now) }
    requires node { 0 < length nodes.old.graph }
    ensures { OnOk result (nodes.new ≡ linked nodes.old (programs_of (sketch_view sketch.now) (at_in (sketch_view sketch.now)) (listed_if program))) }
{
    match program {
        Some(program) => link_programs(nodes, sketch, layout, &[program]),
        None => Ok(()),
    }
}

// Adds the node of a channel's class handler, at all stages.
fn add_stages(
    nodes: &mut Nodes,
    sketch: &Sketch,
    layout: &Layout,
    number: usize,
    channel: &SketchedChannel,
) -> Result<(), AllocError>
    requires counted { layout.now ≡ counts_of (sketch_view sketch.now) }
    requires small { IsSmall (sketch_view sketch.now) }
    ensures { OnOk result (nodes.new ≡ with_node nodes.old (stages_node (sketch_view sketch.now) (at_in (sketch_view sketch.now)) number (channel_view channel.now))) }
{
    // For the proof: which node it is does not matter.
    let _ = number;
    nodes.add(sum_of(channel.stages, 0), greatest_of(1, 0), false)?;
    link_handler(nodes, sketch, layout, channel.class_handler)?;
    Ok(())
}

// Adds the node of the handlers that bytecode may connect at a channel. It counts the costliest of them `handlers` times.
fn add_connected(
    nodes: &mut Nodes,
    sketch: &Sketch,
    layout: &Layout,
    handlers: u32,
    number: usize,
    channel: &SketchedChannel,
) -> Result<(), AllocError>
    requires counted { layout.now ≡ counts_of (sketch_view sketch.now) }
    requires small { IsSmall (sketch_view sketch.now) }
    ensures { OnOk result (nodes.new ≡ with_node nodes.old (connected_node (sketch_view sketch.now) (at_in (sketch_view sketch.now)) handlers number (channel_view channel.now))) }
{
    // For the proof: which node it is does not matter.
    let _ = number;
    nodes.add(greatest_of(handlers, 0), greatest_of(1, 0), false)?;
    link_groups(nodes, sketch, layout, channel.groups.as_slice())?;
    Ok(())
}

// Adds the node of a part of a channel.
fn add_part(
    nodes: &mut Nodes,
    sketch: &Sketch,
    layout: &Layout,
    handlers: u32,
    part: ChannelPart,
    number: usize,
    channel: &SketchedChannel,
) -> Result<(), AllocError>
    requires counted { layout.now ≡ counts_of (sketch_view sketch.now) }
    requires small { IsSmall (sketch_view sketch.now) }
    requires there { number < layout.now.channels }
    requires other { IfSome channel.now.other (λ n. n < layout.now.channels) }
    ensures { OnOk result (nodes.new ≡ with_node nodes.old (channel_node (sketch_view sketch.now) handlers part number (channel_view channel.now))) }
{
    match part {
        ChannelPart::Whole => add_whole(nodes, sketch, layout, number, channel),
        ChannelPart::Own => add_own(nodes, sketch, layout, number, channel),
        ChannelPart::Stages => add_stages(nodes, sketch, layout, number, channel),
        ChannelPart::Connected => add_connected(nodes, sketch, layout, handlers, number, channel),
    }
}

/// Adds the node of this part of each channel.
///
/// # Errors
///
/// `AllocError` if memory is refused.
pub fn add_channel_parts(
    nodes: &mut Nodes,
    sketch: &Sketch,
    layout: &Layout,
    handlers: u32,
    part: ChannelPart,
) -> Result<(), AllocError>
    requires counted { layout.now ≡ counts_of (sketch_view sketch.now) }
    requires small { IsSmall (sketch_view sketch.now) }
    requires ends { EndsAreThere (sketch_view sketch.now) }
    ensures { OnOk result (nodes.new ≡ with_nodes nodes.old (channel_nodes (sketch_view sketch.now) handlers part)) }
{
    let channels = sketch.channels.as_slice();
    for number in 0..channels.len() {
        add_part(
            nodes,
            sketch,
            layout,
            handlers,
            part,
            number,
            &channels[number],
        )?;
    }
    Ok(())
}
