//! Adds edges from the node that was added last, one for each entry of a list.

ghost use Rattle.std.specs.Prelude.{◌≡◌, ◌<◌, ◌≤◌, ◌+◌, ◌-◌, ◌∷◌, [], true, suc, cond, length, map, slice_get, OnOk};
ghost use Rattle.ui_machine.specs.Seq.{listed};
ghost use Rattle.verify_sketches.specs.Numbered.{block, first_of, group, next_blocks, nodes_of, place, programs_of, start};
ghost use Rattle.verify_sketches.specs.Pointwise.{inside};
ghost use Rattle.verify_sketches.specs.Sizes.{IsSmall};
ghost use Rattle.verify_sketches.specs.View.{sketch_view};
ghost use Rattle.verify_numbers.specs.Columns.{linked};
ghost use Rattle.verify_numbers.specs.Counts.{at_in, counts_of};

use crate::layouts::Layout;
use crate::nodes::Nodes;
use std::alloc::AllocError;
use ui_machine::ProgramId;
use verify_sketches::Sketch;

// Returns the first end of the pair of a channel, or the channel itself if it is in none.
fn first_of(sketch: &Sketch, channel: u32) -> usize
    ensures few { result ≤ 4294967295 }
    ensures first { result ≡ first_of (slice_get (sketch_view sketch.now).channels channel) channel }
{
    match sketch.channels.get(channel as usize) {
        Some(found) => found.first as usize,
        None => channel as usize,
    }
}

/// Adds an edge to the node `to` from the node that was added last, if `is_there`.
///
/// # Errors
///
/// `AllocError` if memory is refused.
pub fn link_if(nodes: &mut Nodes, is_there: bool, to: u128) -> Result<(), AllocError>
    requires node { 0 < length nodes.old.graph }
    requires fits { is_there ≡ true → to ≤ 4294967295 }
    ensures { OnOk result (nodes.new ≡ linked nodes.old (cond is_there (to ∷ []) [])) }
{
    if is_there {
        return nodes.link(to);
    }
    Ok(())
}

/// Adds edges to the nodes of these programs, except for those that do not exist.
///
/// # Errors
///
/// `AllocError` if memory is refused.
pub fn link_programs(
    nodes: &mut Nodes,
    sketch: &Sketch,
    layout: &Layout,
    programs: &[ProgramId],
) -> Result<(), AllocError>
    requires counted { layout.now ≡ counts_of (sketch_view sketch.now) }
    requires small { IsSmall (sketch_view sketch.now) }
    requires node { 0 < length nodes.old.graph }
    ensures { OnOk result (nodes.new ≡ linked nodes.old (programs_of (sketch_view sketch.now) (at_in (sketch_view sketch.now)) programs.now)) }
{
    for number in 0..programs.len() {
        let program = programs[number];
        let is_there = (program as usize) < layout.program_count();
        link_if(nodes, is_there, layout.program(program))?;
    }
    // For the proof: the layout is that of the sketch.
    let _ = sketch;
    Ok(())
}

/// Adds edges to the nodes of these channels. A channel of a pair has the node of the pair's first end.
///
/// # Errors
///
/// `AllocError` if memory is refused.
pub fn link_channels(
    nodes: &mut Nodes,
    sketch: &Sketch,
    layout: &Layout,
    channels: &[u32],
) -> Result<(), AllocError>
    requires counted { layout.now ≡ counts_of (sketch_view sketch.now) }
    requires node { 0 < length nodes.old.graph }
    ensures { OnOk result (nodes.new ≡ linked nodes.old (nodes_of (sketch_view sketch.now) (at_in (sketch_view sketch.now)) channels.now)) }
{
    for number in 0..channels.len() {
        let first = first_of(sketch, channels[number]);
        nodes.link(layout.whole(first))?;
    }
    Ok(())
}

/// Adds edges to the nodes of these groups, except for those that do not exist.
///
/// # Errors
///
/// `AllocError` if memory is refused.
pub fn link_groups(
    nodes: &mut Nodes,
    sketch: &Sketch,
    layout: &Layout,
    groups: &[u32],
) -> Result<(), AllocError>
    requires counted { layout.now ≡ counts_of (sketch_view sketch.now) }
    requires small { IsSmall (sketch_view sketch.now) }
    requires node { 0 < length nodes.old.graph }
    ensures { OnOk result (nodes.new ≡ linked nodes.old (map (λ g. at_in (sketch_view sketch.now) (group g)) (inside (length (sketch_view sketch.now).groups) groups.now))) }
{
    for number in 0..groups.len() {
        let one = groups[number] as usize;
        let is_there = one < layout.group_count();
        link_if(nodes, is_there, layout.group(one))?;
    }
    // For the proof: the layout is that of the sketch.
    let _ = sketch;
    Ok(())
}

/// Adds edges to the nodes of these places, except for those that do not exist.
///
/// # Errors
///
/// `AllocError` if memory is refused.
pub fn link_places(
    nodes: &mut Nodes,
    sketch: &Sketch,
    layout: &Layout,
    places: &[u32],
) -> Result<(), AllocError>
    requires counted { layout.now ≡ counts_of (sketch_view sketch.now) }
    requires small { IsSmall (sketch_view sketch.now) }
    requires node { 0 < length nodes.old.graph }
    ensures { OnOk result (nodes.new ≡ linked nodes.old (map (λ p. at_in (sketch_view sketch.now) (place p)) (inside (length (sketch_view sketch.now).paired) places.now))) }
{
    for number in 0..places.len() {
        let one = places[number] as usize;
        let is_there = one < layout.place_count();
        link_if(nodes, is_there, layout.place(one))?;
    }
    // For the proof: the layout is that of the sketch.
    let _ = sketch;
    Ok(())
}

/// Adds edges to the nodes of these starts, except for those that do not exist.
///
/// # Errors
///
/// `AllocError` if memory is refused.
pub fn link_starts(
    nodes: &mut Nodes,
    sketch: &Sketch,
    layout: &Layout,
    starts: &[u32],
) -> Result<(), AllocError>
    requires counted { layout.now ≡ counts_of (sketch_view sketch.now) }
    requires small { IsSmall (sketch_view sketch.now) }
    requires node { 0 < length nodes.old.graph }
    ensures { OnOk result (nodes.new ≡ linked nodes.old (map (λ s. at_in (sketch_view sketch.now) (start s)) (inside (length (sketch_view sketch.now).starts) starts.now))) }
{
    for number in 0..starts.len() {
        let one = starts[number] as usize;
        let is_there = one < layout.start_count();
        link_if(nodes, is_there, layout.start(one))?;
    }
    // For the proof: the layout is that of the sketch.
    let _ = sketch;
    Ok(())
}

/// Adds edges to the nodes of the first `count` blocks of a program.
///
/// # Errors
///
/// `AllocError` if memory is refused.
pub fn link_blocks(
    nodes: &mut Nodes,
    sketch: &Sketch,
    layout: &Layout,
    program: usize,
    count: usize,
) -> Result<(), AllocError>
    requires counted { layout.now ≡ counts_of (sketch_view sketch.now) }
    requires small { IsSmall (sketch_view sketch.now) }
    requires few { count ≤ 64 }
    requires node { 0 < length nodes.old.graph }
    ensures { OnOk result (nodes.new ≡ linked nodes.old (listed (λ b. at_in (sketch_view sketch.now) (block program b)) count)) }
{
    for number in 0..count {
        nodes.link(layout.block(program, number))?;
    }
    // For the proof: the layout is that of the sketch.
    let _ = sketch;
    Ok(())
}

// Returns the block `to` if it comes after the block `after`, or else the block right after that one.
fn later(after: usize, to: usize) -> usize
    requires { after < usize.MAX }
    ensures { result ≡ suc after + (to - suc after) }
{
    to.max(after + 1)
}

/// Adds edges to the nodes of these blocks of a program that has `count` of them. If one does not come after the block `after`, the edge
/// leads to the block right after that one. There is no edge to a block past the last one.
///
/// # Errors
///
/// `AllocError` if memory is refused.
pub fn link_next(
    nodes: &mut Nodes,
    sketch: &Sketch,
    layout: &Layout,
    program: usize,
    count: usize,
    after: usize,
    next: &[usize],
) -> Result<(), AllocError>
    requires counted { layout.now ≡ counts_of (sketch_view sketch.now) }
    requires small { IsSmall (sketch_view sketch.now) }
    requires few { count ≤ 64 }
    requires node { 0 < length nodes.old.graph }
    requires there { after < count }
    ensures { OnOk result (nodes.new ≡ linked nodes.old (next_blocks (at_in (sketch_view sketch.now)) program count after next.now)) }
{
    for number in 0..next.len() {
        let to = later(after, next[number]);
        let is_there = to < count;
        link_if(nodes, is_there, layout.block(program, to))?;
    }
    // For the proof: the layout is that of the sketch.
    let _ = sketch;
    Ok(())
}
