//! The numbers of the paired properties of each place.

ghost use Rattle.std.specs.Prelude.{◌≡◌, ◌++◌, ◌≤◌, None, map, length, IfOk, OnOk};
ghost use Rattle.ui_machine.specs.Seq.{listed, read};
ghost use Rattle.law_typing.specs.Graph.Channels.{property};
ghost use Rattle.verify_graph.specs.Numbers.{number_of};
ghost use Rattle.verify_graph.specs.Paired.{if_paired, paired_at, slots_at};

use crate::channel_numbers::ChannelNumbers;
use std::alloc::{AllocError, Global};
use ui_machine::{Channel, Member, Place, Slot};
use verify_operands::Lookups;

// Returns the other end of the pair of a channel, or `None` if it is in no pair.
fn other_of(others: &[Option<u32>], number: u32) -> Option<u32>
    ensures { result ≡ read None others.now number }
{
    let at = number as usize;
    if at < others.len() { others[at] } else { None }
}

// Adds a property of a place if it is in a pair.
fn add_paired(
    paired: &mut Vec<u32>,
    numbers: &ChannelNumbers,
    others: &[Option<u32>],
    place: Place,
    slot: Slot,
) -> Result<(), AllocError>
    ensures { OnOk result (paired.new.items ≡ paired.old.items ++ if_paired others.now (number_of numbers.now (property place.0 slot))) }
{
    let member = Member::Property(slot);
    let Some(number) = numbers.number(&Channel { place, member }) else {
        return Ok(());
    };
    if other_of(others, number).is_none() {
        return Ok(());
    }
    paired.push(number)?;
    Ok(())
}

// Returns the number of properties of a place.
fn slots_at(lookups: &Lookups<'_>, place: Place) -> usize
    ensures slots { result ≡ slots_at lookups.now place.0 }
    ensures few { result ≤ 16448 }
{
    match lookups.class_at(place) {
        Some(class) => lookups.definition().slots(class),
        None => 0,
    }
}

// Returns the numbers of the paired properties of a place.
fn paired_at(
    alloc: Global,
    lookups: &Lookups<'_>,
    numbers: &ChannelNumbers,
    others: &[Option<u32>],
    place: Place,
) -> Result<Vec<u32>, AllocError>
    ensures { IfOk result (λ paired. paired.items ≡ paired_at lookups.now numbers.now others.now place.0) }
{
    let mut paired = Vec::new(alloc);
    for slot in 0..slots_at(lookups, place) {
        add_paired(&mut paired, numbers, others, place, slot as Slot)?;
    }
    Ok(paired)
}

/// Returns the numbers of the paired properties of each place, where `others` has the other end of each channel's pair.
///
/// # Errors
///
/// `AllocError` if memory is refused.
pub fn paired_places(
    alloc: Global,
    lookups: &Lookups<'_>,
    numbers: &ChannelNumbers,
    others: &[Option<u32>],
) -> Result<Vec<Vec<u32>>, AllocError>
    ensures places { IfOk result (λ places. map (λ v. v.items) places.items ≡ listed (paired_at lookups.now numbers.now others.now) (length lookups.now.places)) }
    ensures few { IfOk result (λ places. length places.items ≤ 512) }
{
    let mut places = Vec::new(alloc);
    for place in 0..lookups.definition().place_count() {
        places.push(paired_at(alloc, lookups, numbers, others, Place(place as u16))?)?;
    }
    Ok(places)
}
