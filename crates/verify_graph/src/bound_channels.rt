//! The channels that bindings lead to when the build makes them, and the pairs of channels that are bound both ways.

ghost use Rattle.std.specs.Prelude.{◌≡◌, ◌++◌, ◌∷◌, [], map, IfOk, OnOk};
ghost use Rattle.definition_format.specs.Meaning.{bind_view};
ghost use Rattle.law_typing.specs.Graph.{created_by, in_order, is_before, pairs_of};
ghost use Rattle.law_typing.specs.Graph.Channels.{source_of, target_of};
ghost use Rattle.verify_graph.specs.ChannelView.{channel_of, channels_of};
ghost use Rattle.verify_graph.specs.Pairs.{pair_view, pairs_view};

use bindings::BindingFlags;
use bitflags::Flags;
use definition_format::Bind;
use definitions::Definition;
use std::alloc::{AllocError, Global};
use ui_machine::{Channel, Member};

/// Two properties that are bound both ways, in the order of the report.
#[derive(Clone, Copy, Debug, PartialEq, Eq)]
pub struct Pair {
    pub first: Channel,
    pub second: Channel,
}

// Returns the property that a binding leads from.
fn source_of(binding: &Bind) -> Channel
    ensures { channel_of result ≡ source_of (bind_view binding.now) }
{
    Channel {
        place: binding.source,
        member: Member::Property(binding.source_slot),
    }
}

// Returns the property that a binding leads to.
fn target_of(binding: &Bind) -> Channel
    ensures { channel_of result ≡ target_of (bind_view binding.now) }
{
    Channel {
        place: binding.target,
        member: Member::Property(binding.target_slot),
    }
}

// Returns whether the target of a binding comes before its source in the report.
fn is_turned(binding: &Bind) -> bool
    ensures { result ≡ is_before (target_of (bind_view binding.now)) (source_of (bind_view binding.now)) }
{
    binding.target.0 < binding.source.0
        || binding.target.0 == binding.source.0 && binding.target_slot < binding.source_slot
}

// Returns the two ends of a binding, in the order of the report.
fn pair_of(binding: &Bind) -> Pair
    ensures { pair_view result ≡ in_order (source_of (bind_view binding.now)) (target_of (bind_view binding.now)) }
{
    let source = source_of(binding);
    let target = target_of(binding);
    if is_turned(binding) {
        return Pair {
            first: target,
            second: source,
        };
    }
    Pair {
        first: source,
        second: target,
    }
}

// Adds the target of a binding that makes a transfer when it is made.
fn add_created(channels: &mut Vec<Channel>, binding: &Bind) -> Result<(), AllocError>
    ensures { OnOk result (channels_of channels.new.items ≡ channels_of channels.old.items ++ created_by (bind_view binding.now ∷ [])) }
{
    if !binding.flags.contains(BindingFlags::SYNC_CREATE) {
        return Ok(());
    }
    channels.push(target_of(binding))?;
    Ok(())
}

// Adds the ends of a binding that goes both ways.
fn add_pair(pairs: &mut Vec<Pair>, binding: &Bind) -> Result<(), AllocError>
    ensures { OnOk result (pairs_view pairs.new.items ≡ pairs_view pairs.old.items ++ pairs_of (bind_view binding.now ∷ [])) }
{
    if !binding.flags.contains(BindingFlags::BIDIRECTIONAL) {
        return Ok(());
    }
    pairs.push(pair_of(binding))?;
    Ok(())
}

/// Returns the targets of the bindings that make a transfer when the build makes them, in document order.
///
/// # Errors
///
/// `AllocError` if memory is refused.
pub fn created(alloc: Global, definition: &Definition) -> Result<Vec<Channel>, AllocError>
    ensures { IfOk result (λ channels. channels_of channels.items ≡ created_by definition.now.bindings) }
{
    let mut channels = Vec::new(alloc);
    for number in 0..definition.binding_count() {
        let Some(binding) = definition.binding(number) else {
            return Ok(channels);
        };
        add_created(&mut channels, binding)?;
    }
    Ok(channels)
}

/// Returns the pairs of properties that are bound both ways, in document order.
///
/// # Errors
///
/// `AllocError` if memory is refused.
pub fn pairs(alloc: Global, definition: &Definition) -> Result<Vec<Pair>, AllocError>
    ensures { IfOk result (λ pairs. pairs_view pairs.items ≡ pairs_of definition.now.bindings) }
{
    let mut pairs = Vec::new(alloc);
    for number in 0..definition.binding_count() {
        let Some(binding) = definition.binding(number) else {
            return Ok(pairs);
        };
        add_pair(&mut pairs, binding)?;
    }
    Ok(pairs)
}
