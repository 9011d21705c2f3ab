//! Compares the bounds of a definition with a limit.

ghost use Rattle.std.specs.Prelude.{◌≡◌, ◌<◌, ℕ, IfOk, Some, length, nat_le, slice_get};
ghost use Rattle.std.specs.List.{list_all};
ghost use Rattle.law_typing.specs.Graph.{graph};
ghost use Rattle.law_typing.specs.Graph.Channels.{channels, channels_at};
ghost use Rattle.law_typing.specs.Graph.Channels as law;
ghost use Rattle.law_typing.specs.Verdict.Accepted.{Accepted};
ghost use Rattle.law_idle.specs.Idle.{busy_channels};
ghost use Rattle.verify_graph.specs.ChannelView.{channels_of};
ghost use Rattle.verified_limits.specs.Limits.{is_entry_within, is_within};

use std::alloc::{AllocError, Global};
use ui_machine::{Channel, Entry, Place};
use verified::{SourceBound, Verified};
use verify_graph::channels_at;
use verify_operands::Lookups;

// Returns the channel at an index of a slice.
fn channel_at(channels: &[Channel], number: usize) -> Channel
    requires { number < length channels.now }
    ensures { slice_get channels.now number ≡ Some result }
{
    channels[number]
}

// Returns whether the bounds of the channels of a place are within a limit.
fn is_place_within(verified: &Verified, channels: &[Channel], most: u64) -> bool
    ensures { (place : ℕ) (a : Accepted verified.now) → place < length verified.now.places → channels_of channels.now ≡ channels_at verified.now place
        → result ≡ list_all (λ c. is_entry_within verified.now a most (law.at c)) (channels_at verified.now place) }
{
    for number in 0..channels.len() {
        let channel = channel_at(channels, number);
        if verified.bound_of(&channel) > most {
            return false;
        }
    }
    true
}

// Returns whether the bounds of the busy channels are within a limit.
fn are_busy_within(verified: &Verified, most: u64) -> bool
    ensures { (a : Accepted verified.now) → result ≡ list_all (λ c. is_entry_within verified.now a most (law.at c)) (busy_channels verified.now) }
{
    let busy = verified.busy();
    for number in 0..busy.count() {
        if verified.bound_of(&busy.channel(number)) > most {
            return false;
        }
    }
    true
}

// Returns whether the bounds of all channels are within a limit. It looks at one place after the other, up to the first bound that is not.
fn are_places_within(alloc: Global, verified: &Verified, most: u64) -> Result<bool, AllocError>
    ensures { (a : Accepted verified.now) → IfOk result (λ within. within ≡ list_all (λ c. is_entry_within verified.now a most (law.at c)) (channels verified.now)) }
{
    let lookups = Lookups::new(alloc, verified.definition())?;
    for place in 0..verified.definition().place_count() {
        let channels = channels_at(alloc, &lookups, Place(place as u16))?;
        if !is_place_within(verified, channels.as_slice(), most) {
            return Ok(false);
        }
    }
    Ok(true)
}

// Returns whether the bounds of all channels are within a limit. All idle channels have the same bound, so where that one is greater than the
// limit, the first idle channel settles it.
fn are_channels_within(alloc: Global, verified: &Verified, most: u64) -> Result<bool, AllocError>
    ensures { (a : Accepted verified.now) → IfOk result (λ within. within ≡ list_all (λ c. is_entry_within verified.now a most (law.at c)) (channels verified.now)) }
{
    if !are_busy_within(verified, most) {
        return Ok(false);
    }
    if verified.idle_bound() <= most {
        return Ok(true);
    }
    let within = are_places_within(alloc, verified, most)?;
    Ok(within)
}

// Returns whether the bounds of the sources' programs are within a limit.
fn are_sources_within(verified: &Verified, most: u64) -> bool
    ensures { (a : Accepted verified.now) → result ≡ list_all (λ program. is_entry_within verified.now a most (law.source program)) (graph verified.now).sources }
{
    are_bounds_within(verified.sources(), most)
}

// Returns whether the bounds of these sources are within a limit.
fn are_bounds_within(sources: &[SourceBound], most: u64) -> bool
    ensures { result ≡ list_all (λ s. nat_le s.bound most) sources.now }
{
    sources.iter().all(|source| source.bound <= most)
}

/// Returns whether no dispatch of a definition may count more steps than `most`: neither the build, nor an event, a source or a call at
/// any channel. It takes time for each busy channel, and memory for the channels of one place.
///
/// # Errors
///
/// `AllocError` if memory is refused.
pub fn is_within(alloc: Global, verified: &Verified, most: u64) -> Result<bool, AllocError>
    ensures { (a : Accepted verified.now) → IfOk result (λ within. within ≡ is_within verified.now a most) }
{
    if verified.bound(Entry::Build) > most {
        return Ok(false);
    }
    if verified.bound(Entry::Plain) > most {
        return Ok(false);
    }
    if !are_sources_within(verified, most) {
        return Ok(false);
    }
    let within = are_channels_within(alloc, verified, most)?;
    Ok(within)
}
