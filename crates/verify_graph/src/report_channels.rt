//! The channels of a definition, in the order of the report.

ghost use Rattle.std.specs.Prelude.{◌≡◌, ◌++◌, ◌+◌, ◌≤◌, length, map, IfOk, OnOk};
ghost use Rattle.ui_machine.specs.Definition.Lookups.{class_of, spec_of, specs_of};
ghost use Rattle.ui_machine.specs.Rules.Construction.{constructed_runs};
ghost use Rattle.law_typing.specs.Graph.Channels.{channels, channels_at, emitted_at, is_filled, programs_of, readable_from};
ghost use Rattle.verify_graph.specs.ChannelView.{channels_of, constructed_if, readable_one};

use definitions::Definition;
use std::alloc::{AllocError, Global};
use type_tree::TypeId;
use ui_machine::{Channel, Member, Place, Slot};
use verify_operands::Lookups;

// Returns whether a class or one of its ancestors names a program for its objects once they are constructed.
fn runs_constructed(definition: &Definition, class: TypeId) -> bool
    ensures { result ≡ is_filled (programs_of (constructed_runs definition.now class)) }
{
    if definition.constructed(class).is_some() {
        return true;
    }
    match definition.types().parent(class) {
        Some(parent) => runs_constructed(definition, parent),
        None => false,
    }
}

/// Adds the end of a construction if it runs a program.
pub(crate) fn add_constructed(
    channels: &mut Vec<Channel>,
    lookups: &Lookups<'_>,
    place: Place,
    class: TypeId,
) -> Result<(), AllocError>
    ensures added { OnOk result (channels_of channels.new.items ≡ channels_of channels.old.items ++ constructed_if lookups.now place.0 class) }
    ensures few { OnOk result (length channels.new.items ≤ length channels.old.items + 1) }
{
    if !runs_constructed(lookups.definition(), class) {
        return Ok(());
    }
    let member = Member::Constructed;
    channels.push(Channel { place, member })?;
    Ok(())
}

// Adds a property if it exists and is readable.
fn add_property(
    channels: &mut Vec<Channel>,
    lookups: &Lookups<'_>,
    place: Place,
    class: TypeId,
    slot: Slot,
) -> Result<(), AllocError>
    ensures added { OnOk result (channels_of channels.new.items ≡ channels_of channels.old.items ++ readable_one place.0 slot (spec_of lookups.now class slot)) }
    ensures few { OnOk result (length channels.new.items ≤ length channels.old.items + 1) }
{
    let Some(spec) = lookups.spec(class, slot) else {
        return Ok(());
    };
    if !spec.is_readable() {
        return Ok(());
    }
    let member = Member::Property(slot);
    channels.push(Channel { place, member })?;
    Ok(())
}

/// Adds the readable properties of a place with this class.
pub(crate) fn add_properties(
    channels: &mut Vec<Channel>,
    lookups: &Lookups<'_>,
    place: Place,
    class: TypeId,
) -> Result<(), AllocError>
    ensures added { OnOk result (channels_of channels.new.items ≡ channels_of channels.old.items ++ readable_from place.0 0 (specs_of lookups.now class)) }
    ensures few { OnOk result (length channels.new.items ≤ length channels.old.items + 16448) }
{
    for slot in 0..lookups.definition().slots(class) {
        add_property(channels, lookups, place, class, slot as Slot)?;
    }
    Ok(())
}

// Adds the signals of a place with this class, all but `notify`.
fn add_signals(
    channels: &mut Vec<Channel>,
    lookups: &Lookups<'_>,
    place: Place,
    class: TypeId,
) -> Result<(), AllocError>
    ensures added { OnOk result (channels_of channels.new.items ≡ channels_of channels.old.items ++ emitted_at place.0 (class_of lookups.now class).signals) }
    ensures few { OnOk result (length channels.new.items ≤ length channels.old.items + 16384) }
{
    for number in 1..lookups.definition().signal_count(class) {
        let member = Member::Signal(number as u16);
        channels.push(Channel { place, member })?;
    }
    Ok(())
}

// Adds the channels of a place.
fn add_channels_at(
    channels: &mut Vec<Channel>,
    lookups: &Lookups<'_>,
    place: Place,
) -> Result<(), AllocError>
    ensures added { OnOk result (channels_of channels.new.items ≡ channels_of channels.old.items ++ channels_at lookups.now place.0) }
    ensures few { OnOk result (length channels.new.items ≤ length channels.old.items + 32833) }
{
    let Some(class) = lookups.class_at(place) else {
        return Ok(());
    };
    add_constructed(channels, lookups, place, class)?;
    add_properties(channels, lookups, place, class)?;
    add_signals(channels, lookups, place, class)?;
    Ok(())
}

/// Returns the channels of a place in the order of the report.
///
/// # Errors
///
/// `AllocError` if memory is refused.
pub fn channels_at(
    alloc: Global,
    lookups: &Lookups<'_>,
    place: Place,
) -> Result<Vec<Channel>, AllocError>
    ensures { IfOk result (λ found. channels_of found.items ≡ channels_at lookups.now place.0) }
{
    let mut found = Vec::new(alloc);
    add_channels_at(&mut found, lookups, place)?;
    Ok(found)
}

/// Returns the channels of a definition in the order of the report. They go place by place, and at each come the end of a construction that
/// runs a program, the readable properties, and the signals except `notify`.
///
/// # Errors
///
/// `AllocError` if memory is refused.
pub fn channels(alloc: Global, lookups: &Lookups<'_>) -> Result<Vec<Channel>, AllocError>
    ensures channels { IfOk result (λ found. channels_of found.items ≡ channels lookups.now) }
    ensures few { IfOk result (λ found. length found.items ≤ 33554432) }
{
    let mut found = Vec::new(alloc);
    for place in 0..lookups.definition().place_count() {
        add_channels_at(&mut found, lookups, Place(place as u16))?;
    }
    Ok(found)
}
