//! Converts cycles of nodes to cycles of channels.

ghost use Rattle.std.specs.Prelude.{◌≡◌, ◌++◌, ◌+◌, ◌<◌, ◌≤◌, ◌∷◌, ℕ, List, All, drop, length, take, slice_index_or, IfOk, IfNone, IfSome};
ghost use Rattle.law_typing.specs.Graph.{Graph};
ghost use Rattle.verify_numbers.specs.Cycles.{links_after, links_of};
ghost use Rattle.verify_sketches.specs.Numbered.{Part};
ghost use Rattle.verify_sketches.specs.Sketches.{Sketch};
ghost use Rattle.verify_numbers.specs.Counts.{counts_of};
ghost use Rattle.verify_numbers.specs.Laid.{laid};
ghost use Rattle.verify_numbers.specs.Links.{Describes, NamesBelow, PartBelow, link_view, links_view, part_at, parts_at};

use crate::layouts::Layout;
use std::alloc::{AllocError, Global};

/// A channel of a cycle, and what leads from it to the next one.
#[derive(Clone, Copy, Debug, PartialEq, Eq)]
pub struct SketchedLink {
    /// The number of the channel.
    pub from: usize,
    /// The program that starts the next channel, or `None` if a binding leads to it.
    pub by: Option<usize>,
}

/// The part of a sketch that a node is for.
#[derive(Clone, Copy, Debug, PartialEq, Eq)]
pub enum NodePart {
    Channel(usize),
    Program(usize),
    Other,
}

// Returns the part of a sketch that a node is for.
fn part_of(layout: &Layout, node: usize) -> NodePart
    ensures few { PartBelow layout.now.programs result }
    ensures described { (s : Sketch) (handlers : ℕ) → layout.now ≡ counts_of s → Describes result (part_at (laid s handlers) node) }
{
    if node < layout.channel_count() {
        return NodePart::Channel(node);
    }
    let begin = 4 * layout.channel_count() as u128 + layout.group_count() as u128;
    let node = node as u128;
    if node >= begin && node - begin < layout.program_count() as u128 {
        return NodePart::Program((node - begin) as usize);
    }
    NodePart::Other
}

// Returns the link that the next node of a path leads to. A channel begins a new link, and the last one is added to `links`. A program
// becomes what leads on from the last link. Any other node changes nothing.
fn next_link(
    links: &mut Vec<SketchedLink>,
    last: SketchedLink,
    part: NodePart,
) -> Result<SketchedLink, AllocError>
    ensures few { IfOk result (λ next. (count : ℕ) → All (NamesBelow count) links.old.items → NamesBelow count last → PartBelow count part
        → All (NamesBelow count) links.new.items × NamesBelow count next) }
    ensures linked { IfOk result (λ next. (g : Graph) (x : Part) (more : List Part) → Describes part x
        → links_view g links.new.items ++ links_after g (link_view g next) more ≡ links_view g links.old.items ++ links_after g (link_view g last) (x ∷ more)) }
{
    match part {
        NodePart::Channel(from) => {
            links.push(last)?;
            Ok(SketchedLink { from, by: None })
        }
        NodePart::Program(program) => Ok(SketchedLink {
            from: last.from,
            by: Some(program),
        }),
        NodePart::Other => Ok(last),
    }
}

/// Returns the links of a path of nodes that begins with a channel. Each link names a program of the layout, or none.
///
/// # Errors
///
/// `AllocError` if memory is refused.
pub fn links_of(
    alloc: Global,
    layout: &Layout,
    channel: usize,
    nodes: &[usize],
) -> Result<Vec<SketchedLink>, AllocError>
    ensures few { IfOk result (λ links. All (NamesBelow layout.now.programs) links.items) }
    ensures linked { IfOk result (λ links. (g : Graph) (s : Sketch) (handlers : ℕ) → layout.now ≡ counts_of s
        → links_view g links.items ≡ links_of g channel (parts_at (laid s handlers) nodes.now)) }
{
    let mut links = Vec::new(alloc);
    let mut last = SketchedLink {
        from: channel,
        by: None,
    };
    for number in 0..nodes.len() {
        last = next_link(&mut links, last, part_of(layout, nodes[number]))?;
    }
    links.push(last)?;
    Ok(links)
}

/// Returns the nodes of a cycle that come after the node at index `first`, all the way around to that one.
///
/// # Errors
///
/// `AllocError` if memory is refused.
pub fn rest_of(alloc: Global, cycle: &[usize], first: usize) -> Result<Vec<usize>, AllocError>
    requires { first < length cycle.now }
    ensures { IfOk result (λ nodes. nodes.items ≡ drop (first + 1) cycle.now ++ take first cycle.now) }
{
    let mut nodes = Vec::new(alloc);
    nodes.extend_from_slice(&cycle[first + 1..])?;
    nodes.extend_from_slice(&cycle[..first])?;
    Ok(nodes)
}

/// Returns the index in a cycle of nodes of the first one that is a channel's, if there is one.
pub fn first_channel(layout: &Layout, cycle: &[usize]) -> Option<usize>
    ensures found { IfSome result (λ i. (i < length cycle.now) × (slice_index_or cycle.now i 0 < layout.now.channels)) }
    ensures none { IfNone result ((i : ℕ) → i < length cycle.now → layout.now.channels ≤ slice_index_or cycle.now i 0) }
{
    for number in 0..cycle.len() {
        if cycle[number] < layout.channel_count() {
            return Some(number);
        }
    }
    None
}
