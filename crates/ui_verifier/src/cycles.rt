//! Cycles of channels, each of which begins with the channel that is first in the report.

ghost use Rattle.std.specs.Prelude.{◌≡◌, ◌<◌, ◌≤◌, ◌++◌, ℕ, All, Some, drop, length, map, slice_get, take, IfOk, IfSome};
ghost use Rattle.law_typing.specs.Graph.{Graph};
ghost use Rattle.verify_sketches.specs.Sketches.{channels_in};
ghost use Rattle.verify_numbers.specs.Links.{NamesBelow, links_view};
ghost use Rattle.verify_numbers.specs.Reckonings.{IsCycleOnce};
ghost use Rattle.verify_numbers.specs.Cycles.{channel_numbered};
ghost use Rattle.law_typing.specs.Verdict.Judges.{IsToldCycle};
ghost use Rattle.verify_numbers.specs.Links as sketched;
ghost use Rattle.verify_graph.specs.ChannelView.{channel_of};
ghost use Rattle.ui_verifier.specs.Cycles.{IsFirst, line_among, lines};
ghost use Rattle.ui_verifier.specs.Verdicts.{link_view};

use crate::faults::CycleLink;
use std::alloc::{AllocError, Global};
use ui_machine::{Channel, Member, Place, ProgramId};
use verify_graph::ChannelNumbers;
use verify_numbers::SketchedLink;

// Converts the program of a link to a `ProgramId`. There are at most 256 programs.
fn program_of(by: Option<usize>) -> Option<ProgramId>
    requires { IfSome by (λ program. program < 256) }
    ensures { result ≡ by }
{
    match by {
        Some(program) => Some(program as ProgramId),
        None => None,
    }
}

// Returns the channel with this number, or the construction at place 0 if there is none.
fn channel_at(channels: &ChannelNumbers, number: usize) -> Channel
    ensures { (g : Graph) → channels.now ≡ channels_in g → channel_of result ≡ channel_numbered g number }
{
    if number < channels.count() {
        return channels.channel(number);
    }
    Channel {
        place: Place(0),
        member: Member::Constructed,
    }
}

// Returns the link of a cycle with its channel in place of the number.
fn cycle_link(channels: &ChannelNumbers, link: SketchedLink) -> CycleLink
    requires { NamesBelow 256 link }
    ensures { (g : Graph) → channels.now ≡ channels_in g → link_view result ≡ sketched.link_view g link }
{
    let by = program_of(link.by);
    let from = channel_at(channels, link.from);
    CycleLink { from, by }
}

// Returns the links of a cycle with their channels in place of the numbers.
fn cycle_links(
    alloc: Global,
    channels: &ChannelNumbers,
    links: &[SketchedLink],
) -> Result<Vec<CycleLink>, AllocError>
    requires { All (NamesBelow 256) links.now }
    ensures { IfOk result (λ all. (g : Graph) → channels.now ≡ channels_in g → map link_view all.items ≡ links_view g links.now) }
{
    let mut all = Vec::new(alloc);
    for link in links {
        all.push(cycle_link(channels, *link))?;
    }
    Ok(all)
}

// Returns how many channels come before this one in the report.
fn line_of(channels: &ChannelNumbers, channel: &Channel) -> usize
    ensures { result ≡ line_among channels.now (channel_of channel.now) }
{
    match channels.number(channel) {
        Some(number) => number as usize,
        None => channels.count(),
    }
}

// Returns the lines in the report of the links' channels.
fn lines_of(
    alloc: Global,
    channels: &ChannelNumbers,
    links: &[CycleLink],
) -> Result<Vec<usize>, AllocError>
    ensures { IfOk result (λ all. all.items ≡ lines channels.now links.now) }
{
    let mut all = Vec::new(alloc);
    for link in links {
        all.push(line_of(channels, &link.from))?;
    }
    Ok(all)
}

// Returns the index of the first of the least numbers, or 0 if there are none.
fn least(values: &[usize]) -> usize
    ensures { IsFirst values.now result }
{
    let mut first = 0;
    for number in 0..values.len() {
        if values[number] < values[first] {
            first = number;
        }
    }
    first
}

// Returns the links from number `first` on, followed by those before it.
fn turned(alloc: Global, links: &[CycleLink], first: usize) -> Result<Vec<CycleLink>, AllocError>
    requires { first ≤ length links.now }
    ensures { IfOk result (λ all. all.items ≡ drop first links.now ++ take first links.now) }
{
    let mut all = Vec::new(alloc);
    all.extend_from_slice(&links[first..])?;
    all.extend_from_slice(&links[..first])?;
    Ok(all)
}

/// Returns a cycle from its first channel in the report. Its links name busy channels by their numbers.
///
/// # Errors
///
/// `AllocError` if memory is refused.
pub(crate) fn cycle_from_first(
    alloc: Global,
    channels: &ChannelNumbers,
    busy: &ChannelNumbers,
    links: &[SketchedLink],
) -> Result<Vec<CycleLink>, AllocError>
    requires { All (NamesBelow 256) links.now }
    ensures { IfOk result (λ all. (g less : Graph) → channels.now ≡ channels_in g → busy.now ≡ channels_in less
        → IsCycleOnce g (links_view less links.now) → IsToldCycle g (map link_view all.items)) }
{
    let all = cycle_links(alloc, busy, links)?;
    let lines = lines_of(alloc, channels, all.as_slice())?;
    let first = least(lines.as_slice());
    let told = turned(alloc, all.as_slice(), first)?;
    Ok(told)
}
