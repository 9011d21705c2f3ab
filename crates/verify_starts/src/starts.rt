//! Finds what triggers may start, by the numbers of channels.

ghost use Rattle.std.specs.Prelude.{◌≡◌, ◌++◌, ◌<◌, ◌∷◌, [], length, slice_get, Some, IfOk, OnOk};
ghost use Rattle.std.specs.List.{filter, filter_map};
ghost use Rattle.ui_machine.specs.Definition.Lookups.{slot_of};
ghost use Rattle.ui_machine.specs.Rules.Connections.{signal_number};
ghost use Rattle.bytecode.specs.View.{register_kind_view};
ghost use Rattle.definition_format.specs.Meaning.{place_number};
ghost use Rattle.law_typing.specs.Graph.{channel_over, making_of};
ghost use Rattle.law_typing.specs.Graph.Channels.{property, signal};
ghost use Rattle.law_typing.specs.Rules.RegisterKinds.{covers};
ghost use Rattle.verify_sketches.specs.View.{start_view};
ghost use Rattle.verify_graph.specs.ChannelView.{channel_of, channels_of};
ghost use Rattle.verify_graph.specs.Numbers.{numbers_of};
ghost use Rattle.verify_starts.specs.Triggers.{numbers_over, start_for, trigger_view};

use crate::places_covered::{is_covered, places_covered};
use crate::triggers::Trigger;
use bytecode::RegisterKind;
use std::alloc::{AllocError, Global};
use ui_machine::{Channel, Member, Place};
use verify_graph::{ChannelNumbers, making};
use verify_operands::Lookups;
use verify_sketches::SketchedStart;

// Adds the number of a channel, if the definition has this channel.
fn add_number(
    found: &mut Vec<u32>,
    numbers: &ChannelNumbers,
    channel: &Channel,
) -> Result<(), AllocError>
    ensures { OnOk result (found.new.items ≡ found.old.items ++ numbers_of numbers.now (channels_of (channel.now ∷ []))) }
{
    let Some(number) = numbers.number(channel) else {
        return Ok(());
    };
    found.push(number)?;
    Ok(())
}

// Returns the channel at an index of a slice.
fn channel_at(channels: &[Channel], number: usize) -> Channel
    requires { number < length channels.now }
    ensures { Some (channel_of result) ≡ slice_get (channels_of channels.now) number }
{
    channels[number]
}

// Returns the numbers of those channels that the definition has.
fn numbers_of(
    alloc: Global,
    numbers: &ChannelNumbers,
    channels: &[Channel],
) -> Result<Vec<u32>, AllocError>
    ensures { IfOk result (λ found. found.items ≡ numbers_of numbers.now (channels_of channels.now)) }
{
    let mut found = Vec::new(alloc);
    for number in 0..channels.len() {
        add_number(&mut found, numbers, &channel_at(channels, number))?;
    }
    Ok(found)
}

// Adds the property with this name of a place, if the kind covers the place.
fn add_property(
    found: &mut Vec<u32>,
    lookups: &Lookups<'_>,
    numbers: &ChannelNumbers,
    kind: &RegisterKind,
    name: &str,
    place: Place,
) -> Result<(), AllocError>
    ensures { OnOk result (found.new.items ≡ found.old.items ++ numbers_of numbers.now
        (filter_map (channel_over lookups.now (λ class. slot_of lookups.now class name.now) property) (filter (covers lookups.now (register_kind_view kind.now)) (place.0 ∷ [])))) }
{
    if !is_covered(lookups, kind, place) {
        return Ok(());
    }
    let Some(class) = lookups.class_at(place) else {
        return Ok(());
    };
    let Some(slot) = lookups.slot(class, name) else {
        return Ok(());
    };
    let member = Member::Property(slot);
    add_number(found, numbers, &Channel { place, member })
}

// Adds the signal with this name of a place, if the kind covers the place.
fn add_signal(
    found: &mut Vec<u32>,
    lookups: &Lookups<'_>,
    numbers: &ChannelNumbers,
    kind: &RegisterKind,
    name: &str,
    place: Place,
) -> Result<(), AllocError>
    ensures { OnOk result (found.new.items ≡ found.old.items ++ numbers_of numbers.now
        (filter_map (channel_over lookups.now (λ class. signal_number lookups.now class name.now) signal) (filter (covers lookups.now (register_kind_view kind.now)) (place.0 ∷ [])))) }
{
    if !is_covered(lookups, kind, place) {
        return Ok(());
    }
    let Some(class) = lookups.class_at(place) else {
        return Ok(());
    };
    let Some(number) = lookups.signal_number(class, name) else {
        return Ok(());
    };
    let member = Member::Signal(number);
    add_number(found, numbers, &Channel { place, member })
}

// Returns the properties with this name of the places that a kind covers.
fn properties_over(
    alloc: Global,
    lookups: &Lookups<'_>,
    numbers: &ChannelNumbers,
    kind: &RegisterKind,
    name: &str,
) -> Result<Vec<u32>, AllocError>
    ensures { IfOk result (λ found. found.items ≡ numbers_over lookups.now numbers.now (λ class. slot_of lookups.now class name.now) property (register_kind_view kind.now)) }
{
    let mut found = Vec::new(alloc);
    for place in 0..lookups.definition().place_count() {
        add_property(
            &mut found,
            lookups,
            numbers,
            kind,
            name,
            Place(place as u16),
        )?;
    }
    Ok(found)
}

// Returns the signals with this name of the places that a kind covers.
fn signals_over(
    alloc: Global,
    lookups: &Lookups<'_>,
    numbers: &ChannelNumbers,
    kind: &RegisterKind,
    name: &str,
) -> Result<Vec<u32>, AllocError>
    ensures { IfOk result (λ found. found.items ≡ numbers_over lookups.now numbers.now (λ class. signal_number lookups.now class name.now) signal (register_kind_view kind.now)) }
{
    let mut found = Vec::new(alloc);
    for place in 0..lookups.definition().place_count() {
        add_signal(
            &mut found,
            lookups,
            numbers,
            kind,
            name,
            Place(place as u16),
        )?;
    }
    Ok(found)
}

// Returns the channels that the making of an object at a place raises.
fn made(
    alloc: Global,
    lookups: &Lookups<'_>,
    numbers: &ChannelNumbers,
    place: Option<Place>,
) -> Result<Vec<u32>, AllocError>
    ensures { IfOk result (λ found. found.items ≡ numbers_of numbers.now (making_of lookups.now (place_number place))) }
{
    let Some(place) = place else {
        return Ok(Vec::new(alloc));
    };
    let raised = making(alloc, lookups, place)?;
    numbers_of(alloc, numbers, raised.as_slice())
}

/// Returns what a trigger may start.
///
/// # Errors
///
/// `AllocError` if memory is refused.
pub fn start_for(
    alloc: Global,
    lookups: &Lookups<'_>,
    numbers: &ChannelNumbers,
    trigger: &Trigger<'_>,
) -> Result<SketchedStart, AllocError>
    ensures { IfOk result (λ start. start_view start ≡ start_for lookups.now numbers.now (trigger_view trigger.now)) }
{
    match *trigger {
        Trigger::Idle => Ok(SketchedStart::Nothing),
        Trigger::Property { kind, name } => {
            let found = properties_over(alloc, lookups, numbers, &kind, name)?;
            Ok(SketchedStart::Raises(found))
        }
        Trigger::Signal { kind, name } => {
            let found = signals_over(alloc, lookups, numbers, &kind, name)?;
            Ok(SketchedStart::Raises(found))
        }
        Trigger::Making(place) => Ok(SketchedStart::Makes(made(alloc, lookups, numbers, place)?)),
        Trigger::Thaw(kind) => Ok(SketchedStart::Thaws(places_covered(alloc, lookups, &kind)?)),
    }
}
