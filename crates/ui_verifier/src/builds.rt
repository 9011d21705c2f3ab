//! The bound of the build, and the number of frames that makings need.

ghost use Rattle.std.specs.Prelude.{◌≡◌, ◌+◌, ◌≤◌, ℕ, length, IfOk};
ghost use Rattle.law_typing.specs.Graph.{makings_from};
ghost use Rattle.law_typing.specs.Graph.Channels as law;
ghost use Rattle.law_typing.specs.Laws.Capped.{capped};
ghost use Rattle.verify_order.specs.Numbers.{AreWithin};
ghost use Rattle.ui_verifier.specs.ByChannel.{Gives, GivesCapped, build_cost, makings_cost, makings_depth, making_cost_at, making_depth_at};

use crate::by_channel::{capped_sum, greatest_of, total_of, transfers_of};
use std::alloc::{AllocError, Global};
use ui_machine::Place;
use verify_graph::{ChannelNumbers, created, forwards, making};
use verify_operands::Lookups;

// Returns the cost of making the object at a place, or 0 for a prototype, of which the build makes nothing.
fn making_cost(
    alloc: Global,
    lookups: &Lookups<'_>,
    channels: &ChannelNumbers,
    values: &[u64],
    place: Place,
) -> Result<u64, AllocError>
    requires { length values.now ≡ length channels.now }
    ensures { IfOk result (λ cost. (f : law.Channel → ℕ) → GivesCapped channels.now values.now f → cost ≡ capped (making_cost_at lookups.now f place.0)) }
{
    let Some(is_prototype) = lookups.is_prototype(place) else {
        return Ok(0);
    };
    if is_prototype {
        return Ok(0);
    }
    let raised = making(alloc, lookups, place)?;
    Ok(total_of(channels, values, raised.as_slice()))
}

// Returns the cost of all makings of the build.
fn makings_cost(
    alloc: Global,
    lookups: &Lookups<'_>,
    channels: &ChannelNumbers,
    values: &[u64],
) -> Result<u64, AllocError>
    requires { length values.now ≡ length channels.now }
    ensures { IfOk result (λ cost. (f : law.Channel → ℕ) → GivesCapped channels.now values.now f → cost ≡ capped (makings_cost lookups.now f)) }
{
    let mut sum = 0;
    for number in 0..lookups.definition().place_count() {
        let cost = making_cost(alloc, lookups, channels, values, Place(number as u16))?;
        sum = capped_sum(sum, cost);
    }
    Ok(sum)
}

/// Returns the bound of the build, capped at one above the greatest bound: its makings, its forward values, its first transfers, and a
/// finalisation for each of `objects` objects. The values are the costs of the channels' nodes.
///
/// # Errors
///
/// `AllocError` if memory is refused.
pub fn build_bound(
    alloc: Global,
    lookups: &Lookups<'_>,
    channels: &ChannelNumbers,
    values: &[u64],
    objects: u32,
) -> Result<u64, AllocError>
    requires { length values.now ≡ length channels.now }
    ensures { IfOk result (λ bound. (f : law.Channel → ℕ) → GivesCapped channels.now values.now f → bound ≡ capped (build_cost lookups.now f + objects)) }
{
    let makings = makings_cost(alloc, lookups, channels, values)?;
    let forward = forwards(alloc, lookups)?;
    let made = capped_sum(makings, total_of(channels, values, forward.as_slice()));
    let targets = created(alloc, lookups.definition())?;
    let built = capped_sum(made, transfers_of(channels, values, targets.as_slice()));
    Ok(capped_sum(built, u64::from(objects)))
}

// Returns the number of frames that the making of an object at a place needs.
fn making_depth(
    alloc: Global,
    lookups: &Lookups<'_>,
    channels: &ChannelNumbers,
    values: &[u64],
    place: Place,
) -> Result<u64, AllocError>
    requires count { length values.now ≡ length channels.now }
    requires few { AreWithin values.now 2147483648 }
    ensures few { IfOk result (λ depth. depth ≤ 2147483649) }
    ensures given { IfOk result (λ depth. (f : law.Channel → ℕ) → Gives channels.now values.now f → depth ≡ making_depth_at lookups.now f place.0) }
{
    let raised = making(alloc, lookups, place)?;
    Ok(greatest_of(channels, values, raised.as_slice()) + 1)
}

/// Returns the greatest number of frames that a making needs. The values are the depths of the channels, each at most 2^31.
///
/// # Errors
///
/// `AllocError` if memory is refused.
pub fn makings_depth(
    alloc: Global,
    lookups: &Lookups<'_>,
    channels: &ChannelNumbers,
    values: &[u64],
) -> Result<u64, AllocError>
    requires count { length values.now ≡ length channels.now }
    requires few { AreWithin values.now 2147483648 }
    ensures few { IfOk result (λ depth. depth ≤ 2147483649) }
    ensures given { IfOk result (λ depth. (f : law.Channel → ℕ) → Gives channels.now values.now f → depth ≡ makings_depth lookups.now f) }
{
    let mut most: u64 = 0;
    for number in 0..lookups.definition().place_count() {
        let depth = making_depth(alloc, lookups, channels, values, Place(number as u16))?;
        most = most.max(depth);
    }
    Ok(most)
}
