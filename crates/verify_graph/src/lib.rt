//! The channels of a definition's graph: what may be raised at the places of its objects.
//!
//! A channel is the notification of a readable property of a place, a signal of a place, or the end of a construction there. Channels are
//! numbered in the order of the report.
#![tactic(auto)]

mod bound_channels;
mod busy_channels;
mod busy_signals;
mod channel_numbers;
mod forward_values;
mod makings;
mod paired_properties;
mod pairs_by_number;
mod report_channels;

pub use bound_channels::{Pair, created, pairs};
pub use channel_numbers::ChannelNumbers;
pub use forward_values::forwards;
pub use makings::making;
pub use paired_properties::paired_places;
pub use pairs_by_number::{PairedNumbers, paired_numbers};
pub use report_channels::{channels, channels_at};
