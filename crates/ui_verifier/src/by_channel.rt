//! Sums and greatest values of numbers over lists of channels.

ghost use Rattle.std.specs.Prelude.{◌≡◌, ◌+◌, ◌<◌, ◌≤◌, ℕ, Some, length, slice_get};
ghost use Rattle.law_typing.specs.Graph.Channels as law;
ghost use Rattle.law_typing.specs.Graph.Tables.{greatest};
ghost use Rattle.law_typing.specs.Laws.Capped.{capped};
ghost use Rattle.ui_machine.specs.Seq.{total};
ghost use Rattle.verify_order.specs.Numbers.{AreWithin};
ghost use Rattle.verify_graph.specs.ChannelView.{channel_of, channels_of};
ghost use Rattle.ui_verifier.specs.ByChannel.{Gives, GivesCapped, transfers_cost};

use ui_machine::Channel;
use verify_graph::ChannelNumbers;

// One above the greatest bound, which caps all sums.
const MOST: u128 = 1_000_000_000_001;

/// Returns the sum of two costs, capped at one above the greatest bound.
pub fn capped_sum(a: u64, b: u64) -> u64
    ensures { result ≡ capped (a + b) }
{
    MOST.min(a as u128 + b as u128) as u64
}

// Returns the channel at an index of a slice.
fn channel_at(all: &[Channel], number: usize) -> Channel
    requires { number < length all.now }
    ensures { slice_get (channels_of all.now) number ≡ Some (channel_of result) }
{
    all[number]
}

// Returns the value of a channel, or 0 if the definition has no such channel.
fn value_of(channels: &ChannelNumbers, values: &[u64], channel: &Channel) -> u64
    requires { length values.now ≡ length channels.now }
    ensures few { (most : ℕ) → AreWithin values.now most → result ≤ most }
    ensures given { (f : law.Channel → ℕ) → Gives channels.now values.now f → result ≡ f (channel_of channel.now) }
{
    match channels.number(channel) {
        Some(number) => values[number as usize],
        None => 0,
    }
}

/// Returns the sum of the costs of some channels, capped at one above the greatest bound.
pub fn total_of(channels: &ChannelNumbers, values: &[u64], all: &[Channel]) -> u64
    requires { length values.now ≡ length channels.now }
    ensures { (f : law.Channel → ℕ) → GivesCapped channels.now values.now f → result ≡ capped (total f (channels_of all.now)) }
{
    let mut sum = 0;
    for number in 0..all.len() {
        let cost = value_of(channels, values, &channel_at(all, number));
        sum = capped_sum(sum, cost);
    }
    sum
}

/// Returns the sum of the costs of some channels and of a transfer to each, which costs 1, capped at one above the greatest bound.
pub fn transfers_of(channels: &ChannelNumbers, values: &[u64], all: &[Channel]) -> u64
    requires { length values.now ≡ length channels.now }
    ensures { (f : law.Channel → ℕ) → GivesCapped channels.now values.now f → result ≡ capped (transfers_cost f (channels_of all.now)) }
{
    let mut sum = 0;
    for number in 0..all.len() {
        let cost = value_of(channels, values, &channel_at(all, number));
        sum = capped_sum(sum, capped_sum(1, cost));
    }
    sum
}

/// Returns the greatest value of some channels, or 0 if there are none.
pub fn greatest_of(channels: &ChannelNumbers, values: &[u64], all: &[Channel]) -> u64
    requires { length values.now ≡ length channels.now }
    ensures few { (most : ℕ) → AreWithin values.now most → result ≤ most }
    ensures given { (f : law.Channel → ℕ) → Gives channels.now values.now f → result ≡ greatest f (channels_of all.now) }
{
    let mut most: u64 = 0;
    for number in 0..all.len() {
        most = most.max(value_of(channels, values, &channel_at(all, number)));
    }
    most
}
