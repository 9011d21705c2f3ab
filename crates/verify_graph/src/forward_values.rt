//! The channels that forward values raise. A forward value is an object that is given to a property and set once all objects are built.

ghost use Rattle.std.specs.Prelude.{◌≡◌, ◌++◌, ◌∷◌, [], Some, map, IfOk, OnOk};
ghost use Rattle.ui_machine.specs.Definition.Lookups.{place_at};
ghost use Rattle.definition_format.specs.Meaning.{given_property};
ghost use Rattle.law_typing.specs.Graph.{forwards_from};
ghost use Rattle.law_typing.specs.Rules.RegisterKinds.{class_at};
ghost use Rattle.verify_graph.specs.ChannelView.{channels_of};
ghost use Rattle.definitions.specs.EntryView.{entry_view};
ghost use Rattle.verify_graph.specs.Makings.{forwards_at, forwards_in};

use crate::makings::is_forward;
use definition_format::GivenValue;
use definitions::ObjectEntry;
use std::alloc::{AllocError, Global};
use type_tree::TypeId;
use ui_machine::{Channel, Member, Place};
use verify_operands::Lookups;

// Adds the property of a given value, if the value is a forward one and the property is readable.
fn add_forward(
    channels: &mut Vec<Channel>,
    lookups: &Lookups<'_>,
    place: Place,
    class: TypeId,
    value: &GivenValue,
) -> Result<(), AllocError>
    requires { class_at lookups.now place.0 ≡ Some class }
    ensures { OnOk result (channels_of channels.new.items ≡ channels_of channels.old.items ++ forwards_in lookups.now place.0 (given_property value.now ∷ [])) }
{
    if !is_forward(place, &value.given) {
        return Ok(());
    }
    let Some(spec) = lookups.spec(class, value.slot) else {
        return Ok(());
    };
    if !spec.is_readable() {
        return Ok(());
    }
    let member = Member::Property(value.slot);
    channels.push(Channel { place, member })?;
    Ok(())
}

// Adds the readable properties of the forward values among some given values.
fn add_forwards(
    channels: &mut Vec<Channel>,
    lookups: &Lookups<'_>,
    place: Place,
    class: TypeId,
    given: &[GivenValue],
) -> Result<(), AllocError>
    requires { class_at lookups.now place.0 ≡ Some class }
    ensures { OnOk result (channels_of channels.new.items ≡ channels_of channels.old.items ++ forwards_in lookups.now place.0 (map given_property given.now)) }
{
    for number in 0..given.len() {
        add_forward(channels, lookups, place, class, &given[number])?;
    }
    Ok(())
}

// Adds the readable properties of the forward values of a place. A prototype has none, because nothing is built of it.
fn add_forwards_at(
    channels: &mut Vec<Channel>,
    lookups: &Lookups<'_>,
    place: Place,
    entry: &ObjectEntry<'_>,
) -> Result<(), AllocError>
    requires { Some (entry_view entry.now) ≡ place_at lookups.now place.0 }
    ensures { OnOk result (channels_of channels.new.items ≡ channels_of channels.old.items ++ forwards_at lookups.now place.0 (entry_view entry.now)) }
{
    if entry.is_prototype {
        return Ok(());
    }
    add_forwards(channels, lookups, place, entry.class, entry.given)
}

/// Returns the channels that the forward values of objects raise, in document order.
///
/// # Errors
///
/// `AllocError` if memory is refused.
pub fn forwards(alloc: Global, lookups: &Lookups<'_>) -> Result<Vec<Channel>, AllocError>
    ensures { IfOk result (λ channels. channels_of channels.items ≡ forwards_from lookups.now 0 lookups.now.places) }
{
    let mut channels = Vec::new(alloc);
    let definition = lookups.definition();
    for number in 0..definition.place_count() {
        let Some(entry) = definition.object(number) else {
            return Ok(channels);
        };
        add_forwards_at(&mut channels, lookups, Place(number as u16), &entry)?;
    }
    Ok(channels)
}
