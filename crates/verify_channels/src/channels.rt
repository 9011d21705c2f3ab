//! Sketches what runs at each channel of a definition.

ghost use Rattle.std.specs.Prelude.{◌≡◌, ◌<◌, ◌≤◌, length, map, IfOk};
ghost use Rattle.law_typing.specs.Graph.{handlers_for};
ghost use Rattle.verify_sketches.specs.Sketches.{emits_at};
ghost use Rattle.verify_sketches.specs.View.{channel_view};
ghost use Rattle.verify_graph.specs.ChannelView.{channel_of};
ghost use Rattle.verify_channels.specs.Attached.{AreAttached};
ghost use Rattle.verify_channels.specs.Connected.{AreConnected, groups_for, programs_of};
ghost use Rattle.verify_channels.specs.ConnectedCode.{connections_if};
ghost use Rattle.verify_channels.specs.Raised.{AreParts, AreRaised, AreSketched, IsRaised};
ghost use Rattle.verify_channels.specs.Transfers.{AreTargets};

use crate::attached_handlers::{AttachedHandler, attached_for, attached_handlers};
use crate::class_handlers::{class_handler, constructed_at, stages};
use crate::connections::{Connects, PlacedGroup, connections, groups_for};
use crate::meanings::signal_of;
use crate::signal_lists::SignalLists;
use crate::transfers::{known, transfers};
use std::alloc::{AllocError, Global};
use ui_machine::{Channel, Member, ProgramId};
use verify_graph::{ChannelNumbers, PairedNumbers};
use verify_operands::Lookups;
use verify_sketches::SketchedChannel;

/// The programs and bindings that run at the channels of a definition, and the groups of programs that bytecode may connect alike.
#[derive(Debug, Drop)]
pub struct RaisedChannels {
    pub channels: Vec<SketchedChannel>,
    pub groups: Vec<Vec<ProgramId>>,
}

// The parts from which the channels of a definition are put together.
#[derive(Drop)]
struct ChannelParts {
    attached: Vec<SignalLists<AttachedHandler>>,
    transfers: Vec<Vec<Option<u32>>>,
    connects: Connects,
}

// Returns whether an emission begins at a channel.
fn emits(channel: &Channel) -> bool
    ensures { result ≡ emits_at (channel_of channel.now) }
{
    match channel.member {
        Member::Constructed => false,
        Member::Property(_) | Member::Signal(_) => true,
    }
}

// Returns the programs of the objects' handlers at a channel, or for a construction those of its classes.
fn handlers_for(
    alloc: Global,
    lookups: &Lookups<'_>,
    attached: &[SignalLists<AttachedHandler>],
    channel: &Channel,
) -> Result<Vec<ProgramId>, AllocError>
    requires { AreAttached lookups.now attached.now }
    ensures { IfOk result (λ programs. programs.items ≡ handlers_for lookups.now (channel_of channel.now)) }
{
    match channel.member {
        Member::Constructed => constructed_at(alloc, lookups, channel.place),
        Member::Property(_) | Member::Signal(_) => attached_for(alloc, lookups, attached, channel),
    }
}

// Returns the groups that may be connected at a channel.
fn groups_at(
    alloc: Global,
    at: &[SignalLists<PlacedGroup>],
    channel: &Channel,
) -> Result<Vec<u32>, AllocError>
    ensures { IfOk result (λ groups. groups.items ≡ groups_for at.now (channel_of channel.now)) }
{
    let place = usize::from(channel.place.0);
    if place >= at.len() {
        return Ok(Vec::new(alloc));
    }
    let groups = groups_for(alloc, at[place].list(signal_of(channel)), channel)?;
    Ok(groups)
}

// Sketches what runs at the channel with this number.
fn raised_channel(
    alloc: Global,
    lookups: &Lookups<'_>,
    numbers: &ChannelNumbers,
    paired: &PairedNumbers,
    parts: &ChannelParts,
    number: usize,
) -> Result<SketchedChannel, AllocError>
    requires within { number < length numbers.now }
    requires targets { length parts.now.transfers.items ≡ length numbers.now }
    requires firsts { length paired.now.firsts.items ≡ length numbers.now }
    requires others { length paired.now.others.items ≡ length numbers.now }
    requires attached { AreAttached lookups.now parts.now.attached.items }
    requires transfers { AreTargets numbers.now parts.now.transfers.items lookups.now.bindings }
    ensures { IfOk result (λ k. IsRaised lookups.now numbers.now paired.now parts.now number (channel_view k)) }
{
    // For the proof: a definition has few bindings.
    law_reading::lengths();
    let _types = lookups.definition().types();
    let channel = numbers.channel(number);
    let targets = parts.transfers[number].as_slice();
    Ok(SketchedChannel {
        emits: emits(&channel),
        class_handler: class_handler(lookups, &channel),
        stages: stages(lookups, &channel),
        handlers: handlers_for(alloc, lookups, parts.attached.as_slice(), &channel)?,
        groups: groups_at(alloc, parts.connects.at.as_slice(), &channel)?,
        transfers: targets.len() as u32,
        targets: known(alloc, targets)?,
        first: paired.firsts[number],
        other: paired.others[number],
    })
}

// Collects the parts of a definition's channels.
fn parts_of(
    alloc: Global,
    lookups: &Lookups<'_>,
    numbers: &ChannelNumbers,
) -> Result<ChannelParts, AllocError>
    ensures parts { IfOk result (λ parts. AreParts lookups.now numbers.now parts) }
    ensures few { IfOk result (λ parts. length parts.connects.groups.items ≤ 131072) }
{
    Ok(ChannelParts {
        attached: attached_handlers(alloc, lookups)?,
        transfers: transfers(alloc, lookups, numbers)?,
        connects: connections_if(alloc, lookups)?,
    })
}

// Returns the connections of a definition's programs. There are none if its limits allow no handlers to be connected.
fn connections_if(alloc: Global, lookups: &Lookups<'_>) -> Result<Connects, AllocError>
    ensures connected { IfOk result (λ x. AreConnected lookups.now x (connections_if lookups.now)) }
    ensures few { IfOk result (λ x. length x.groups.items ≤ 131072) }
{
    if lookups.definition().limits().handlers == 0 {
        return Connects::new(alloc, lookups);
    }
    connections(alloc, lookups)
}

// Sketches what runs at all channels.
fn all_channels(
    alloc: Global,
    lookups: &Lookups<'_>,
    numbers: &ChannelNumbers,
    paired: &PairedNumbers,
    parts: &ChannelParts,
) -> Result<Vec<SketchedChannel>, AllocError>
    requires parts { AreParts lookups.now numbers.now parts.now }
    requires firsts { length paired.now.firsts.items ≡ length numbers.now }
    requires others { length paired.now.others.items ≡ length numbers.now }
    ensures { IfOk result (λ channels. AreRaised lookups.now numbers.now paired.now parts.now (map channel_view channels.items)) }
{
    let mut channels = Vec::new(alloc);
    for number in 0..numbers.count() {
        let channel = raised_channel(alloc, lookups, numbers, paired, parts, number)?;
        channels.push(channel)?;
    }
    Ok(channels)
}

/// Sketches what runs at the channels of a definition, in the order of the report.
///
/// # Errors
///
/// `AllocError` if memory is refused.
pub fn raised_channels(
    alloc: Global,
    lookups: &Lookups<'_>,
    numbers: &ChannelNumbers,
    paired: &PairedNumbers,
) -> Result<RaisedChannels, AllocError>
    requires firsts { length paired.now.firsts.items ≡ length numbers.now }
    requires others { length paired.now.others.items ≡ length numbers.now }
    ensures sketched { IfOk result (λ s. AreSketched lookups.now numbers.now paired.now (programs_of s.groups.items) (map channel_view s.channels.items)) }
    ensures few { IfOk result (λ s. length s.groups.items ≤ 131072) }
{
    let parts = parts_of(alloc, lookups, numbers)?;
    let channels = all_channels(alloc, lookups, numbers, paired, &parts)?;
    let connects = parts.connects;
    let groups = connects.groups;
    Ok(RaisedChannels { channels, groups })
}
