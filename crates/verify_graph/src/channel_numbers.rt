//! The numbers of channels, in the order of the report.

ghost use Rattle.std.specs.Prelude.{◌≡◌, ◌<◌, ◌≤◌, ℕ, length, slice_get, Some, IfNone, IfOk, IfSome};
ghost use Rattle.law_typing.specs.Graph.Channels.{channels};
ghost use Rattle.law_idle.specs.Idle.{busy_channels};
ghost use Rattle.verify_graph.specs.ChannelView.{channel_of, channels_of};
ghost use Rattle.verify_graph.specs.Numbering.{AreNumbered, key_of};
ghost use Rattle.verify_graph.specs.Numbers.{AreCountable, number_of};

use crate::busy_channels::busy_channels;
use crate::report_channels::channels;
use std::alloc::{AllocError, Global};
use std::collections::BTreeMap;
use std::marker::Model;
use ui_machine::{Channel, Member};
use verify_operands::Lookups;

/// The channels of a definition, numbered in the order of the report. The contracts see a list of them.
#[derive(Drop)]
pub struct ChannelNumbers {
    channels: Vec<Channel>,
    // The number of each channel, by its place, its sort, and its slot or number there.
    numbers: BTreeMap<(u16, u16, u16), u32>,
}

impl Model for ChannelNumbers {
    ghost use Rattle.std.specs.Prelude.{List, length};
    ghost use Rattle.law_typing.specs.Graph.Channels as law;
    ghost use Rattle.verify_graph.specs.ChannelView.{channels_of};
    ghost use Rattle.verify_graph.specs.Numbering.{AreNumbered};
    ghost use Rattle.verify_graph.specs.Numbers.{AreCountable};

    ghost Value = { List law.Channel };

    ghost view = { λ n. channels_of n.channels.items };

    ghost invariant = { λ n. AreNumbered (channels_of n.channels.items) n.numbers (length n.channels.items) × AreCountable (channels_of n.channels.items) };
}

// Returns a key that no two channels share.
fn key_of(channel: &Channel) -> (u16, u16, u16)
    ensures { result ≡ key_of (channel_of channel.now) }
{
    let place = channel.place.0;
    match channel.member {
        Member::Constructed => (place, 0, 0),
        Member::Property(slot) => (place, 1, slot),
        Member::Signal(number) => (place, 2, number),
    }
}

// Returns the channel at an index of a slice.
fn channel_at(channels: &[Channel], number: usize) -> Channel
    requires { number < length channels.now }
    ensures { slice_get (channels_of channels.now) number ≡ Some (channel_of result) }
{
    channels[number]
}

// Maps the key of each channel to its number.
fn numbers_of(
    alloc: Global,
    channels: &[Channel],
) -> Result<BTreeMap<(u16, u16, u16), u32>, AllocError>
    requires { length channels.now ≤ 4294967295 }
    ensures { IfOk result (λ numbers. AreNumbered (channels_of channels.now) numbers (length channels.now)) }
{
    let mut numbers = BTreeMap::new(alloc);
    for number in 0..channels.len() {
        let channel = channel_at(channels, number);
        numbers.insert(key_of(&channel), number as u32)?;
    }
    Ok(numbers)
}

impl ChannelNumbers {
    /// Numbers the channels of a definition.
    ///
    /// # Errors
    ///
    /// `AllocError` if memory is refused.
    pub fn new(alloc: Global, lookups: &Lookups<'_>) -> Result<ChannelNumbers, AllocError>
        ensures { IfOk result (λ numbers. numbers ≡ channels lookups.now) }
    {
        let channels = channels(alloc, lookups)?;
        let numbers = numbers_of(alloc, channels.as_slice())?;
        Ok(ChannelNumbers { channels, numbers })
    }

    /// Numbers the busy channels of a definition: all but the signals at which nothing runs, and which no program names.
    ///
    /// # Errors
    ///
    /// `AllocError` if memory is refused.
    pub fn of_busy(alloc: Global, lookups: &Lookups<'_>) -> Result<ChannelNumbers, AllocError>
        ensures { IfOk result (λ numbers. numbers ≡ busy_channels lookups.now) }
    {
        let channels = busy_channels(alloc, lookups)?;
        let numbers = numbers_of(alloc, channels.as_slice())?;
        Ok(ChannelNumbers { channels, numbers })
    }

    /// Returns the number of channels.
    pub fn count(&self) -> usize
        ensures count { result ≡ length self.now }
        ensures few { result ≤ 33554432 }
        ensures countable { AreCountable self.now }
    {
        self.channels.len()
    }

    /// Returns the channel with this number.
    pub fn channel(&self, number: usize) -> Channel
        requires { number < length self.now }
        ensures { slice_get self.now number ≡ Some (channel_of result) }
    {
        channel_at(self.channels.as_slice(), number)
    }

    /// Returns the number of a channel, or `None` if the definition has no such channel.
    pub fn number(&self, channel: &Channel) -> Option<u32>
        ensures number { result ≡ number_of self.now (channel_of channel.now) }
        ensures found { IfSome result (λ number. slice_get self.now number ≡ Some (channel_of channel.now)) }
        ensures none { IfNone result ((number : ℕ) → slice_get self.now number ≡ Some (channel_of channel.now) → ⊥) }
        ensures within { IfSome result (λ number. number < length self.now) }
    {
        match self.numbers.get(&key_of(channel)) {
            Some(number) => Some(*number),
            None => None,
        }
    }
}
