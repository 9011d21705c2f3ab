//! The channels that the making of an object raises: the end of its construction, and the notifications of the properties that are set with
//! it.

ghost use Rattle.std.specs.Prelude.{◌≡◌, ◌++◌, ◌∷◌, Some, map, IfOk, OnOk};
ghost use Rattle.std.specs.List.{list_any};
ghost use Rattle.ui_machine.specs.Definition.Lookups.{spec_of, specs_of};
ghost use Rattle.ui_machine.specs.Rules.Construction.{is_forward};
ghost use Rattle.definition_format.specs.Meaning.{given_property, given_view};
ghost use Rattle.law_typing.specs.Graph.{making_of, set_from};
ghost use Rattle.law_typing.specs.Graph.Channels.{constructed, present};
ghost use Rattle.law_typing.specs.Rules.RegisterKinds.{class_at};
ghost use Rattle.verify_graph.specs.ChannelView.{channels_of};
ghost use Rattle.verify_graph.specs.Makings.{built_one, gives};

use crate::report_channels::add_constructed;
use definition_format::{Given, GivenValue};
use std::alloc::{AllocError, Global};
use type_tree::TypeId;
use ui_machine::{Channel, Member, Place, Slot};
use verify_operands::Lookups;

/// Returns whether a given value is an object that is built later, or the one at this place itself.
pub(crate) fn is_forward(place: Place, given: &Given) -> bool
    ensures { result ≡ is_forward place.0 (given_view given.now) }
{
    match given {
        Given::Value(_) => false,
        Given::Object(to) => place.0 <= to.0,
    }
}

// Returns whether a property is given a value that is set with the construction.
fn is_given(place: Place, slot: Slot, given: &[GivenValue]) -> bool
    ensures { result ≡ list_any (gives place.0 slot) given.now }
{
    given.iter().any(|value| value.slot == slot && !is_forward(place, &value.given))
}

// Adds a property if it is readable and set with the construction.
fn add_built(
    channels: &mut Vec<Channel>,
    lookups: &Lookups<'_>,
    place: Place,
    class: TypeId,
    given: &[GivenValue],
    slot: Slot,
) -> Result<(), AllocError>
    ensures { OnOk result (channels_of channels.new.items ≡ channels_of channels.old.items
        ++ built_one place.0 slot (list_any (gives place.0 slot) given.now) (spec_of lookups.now class slot)) }
{
    let Some(spec) = lookups.spec(class, slot) else {
        return Ok(());
    };
    if !spec.is_at_construction() && !is_given(place, slot, given) {
        return Ok(());
    }
    if !spec.is_readable() {
        return Ok(());
    }
    let member = Member::Property(slot);
    channels.push(Channel { place, member })?;
    Ok(())
}

// Adds the readable properties that are set with the construction.
fn add_all_built(
    channels: &mut Vec<Channel>,
    lookups: &Lookups<'_>,
    place: Place,
    class: TypeId,
    given: &[GivenValue],
) -> Result<(), AllocError>
    requires { class_at lookups.now place.0 ≡ Some class }
    ensures { OnOk result (channels_of channels.new.items ≡ channels_of channels.old.items
        ++ present lookups.now (set_from place.0 (map given_property given.now) 0 (specs_of lookups.now class))) }
{
    for slot in 0..lookups.definition().slots(class) {
        add_built(channels, lookups, place, class, given, slot as Slot)?;
    }
    Ok(())
}

/// Returns the channels that the making of an object at a place raises: the end of its construction, if that runs a program, and the
/// notifications of the readable properties that are construct, construct-only, or given a value that already exists then.
///
/// # Errors
///
/// `AllocError` if memory is refused.
pub fn making(
    alloc: Global,
    lookups: &Lookups<'_>,
    place: Place,
) -> Result<Vec<Channel>, AllocError>
    ensures { IfOk result (λ channels. channels_of channels.items ≡ making_of lookups.now (Some place.0)) }
{
    let mut channels = Vec::new(alloc);
    let Some(entry) = lookups.definition().object(usize::from(place.0)) else {
        return Ok(channels);
    };
    add_constructed(&mut channels, lookups, place, entry.class)?;
    add_all_built(&mut channels, lookups, place, entry.class, entry.given)?;
    Ok(channels)
}
