//! The meanings of the signals and details of handlers in a class.

ghost use Rattle.std.specs.Prelude.{◌≡◌, option_map, string_bytes};
ghost use Rattle.ui_machine.specs.Definition.Lookups.{slot_of};
ghost use Rattle.ui_machine.specs.Rules.Programs.{is_number};
ghost use Rattle.verify_graph.specs.ChannelView.{channel_of};
ghost use Rattle.verify_channels.specs.Meanings.{detail_view, is_meant, meaning_of, meaning_view, names, signal_of_channel};

use type_tree::TypeId;
use ui_machine::{Channel, Member, SignalId, Slot};
use verify_operands::Lookups;

/// The meaning of a detail.
#[derive(Clone, Copy, Debug)]
pub enum Detail {
    /// There is no detail.
    Any,
    /// The detail names this property.
    Property(Slot),
    /// The detail names no property of the class.
    Unknown,
}

/// The signal that a handler is for, if the class has it, and the detail.
#[derive(Clone, Copy, Debug)]
pub struct Meaning {
    pub signal: Option<SignalId>,
    pub detail: Detail,
}

// Returns the meaning of a detail in a class.
fn detail_of(lookups: &Lookups<'_>, class: TypeId, detail: &Option<String>) -> Detail
    ensures { detail_view result ≡ option_map (slot_of lookups.now class) (option_map string_bytes detail.now) }
{
    let Some(text) = detail else {
        return Detail::Any;
    };
    match lookups.slot(class, text.as_str()) {
        Some(slot) => Detail::Property(slot),
        None => Detail::Unknown,
    }
}

/// Returns the meaning of a signal with a detail in a class.
pub fn meaning_of(
    lookups: &Lookups<'_>,
    class: TypeId,
    signal: &str,
    detail: &Option<String>,
) -> Meaning
    ensures { meaning_view result ≡ meaning_of lookups.now class signal.now (option_map string_bytes detail.now) }
{
    Meaning {
        signal: lookups.signal_number(class, signal),
        detail: detail_of(lookups, class, detail),
    }
}

// Returns whether a number was found and is this one.
fn is_number(number: u16, found: Option<u16>) -> bool
    ensures { result ≡ is_number number found }
{
    match found {
        Some(other) => other == number,
        None => false,
    }
}

// Returns whether a detail is for a property. `Any` is for every property.
fn names(detail: Detail, slot: Slot) -> bool
    ensures { result ≡ names (detail_view detail) slot }
{
    match detail {
        Detail::Any => true,
        Detail::Property(other) => other == slot,
        Detail::Unknown => false,
    }
}

/// Returns the number of the signal that a channel is of. The notifications of properties are of `notify`.
pub fn signal_of(channel: &Channel) -> SignalId
    ensures { result ≡ signal_of_channel (channel_of channel.now) }
{
    match channel.member {
        Member::Constructed | Member::Property(_) => 0,
        Member::Signal(number) => number,
    }
}

/// Returns whether a handler with this meaning may be for a channel.
pub fn is_meant(channel: &Channel, meaning: &Meaning) -> bool
    ensures { result ≡ is_meant (channel_of channel.now) (meaning_view meaning.now) }
{
    match channel.member {
        Member::Constructed => false,
        Member::Property(slot) => is_number(0, meaning.signal) && names(meaning.detail, slot),
        Member::Signal(number) => is_number(number, meaning.signal),
    }
}
