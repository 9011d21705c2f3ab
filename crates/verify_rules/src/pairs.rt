//! Checks that no property is in two pairs, which are bindings that go both ways.

ghost use Rattle.std.specs.Prelude.{◌≡◌, ◌&&◌, option_map, slice_get, IfOk, OnOk};
ghost use Rattle.definition_format.specs.Meaning.{bind_view};
ghost use Rattle.law_typing.specs.Graph.Channels.{is_pair};
ghost use Rattle.law_typing.specs.Rules.BindingRules.{pair_faults};
ghost use Rattle.verify_rules.specs.Faults.{second_fault};
ghost use Rattle.verify_rules.specs.PairedEnds.{AddsEnds, is_taken};

use crate::binding_rules::is_pair;
use definition_format::Bind;
use std::alloc::{AllocError, Global};
use std::collections::BTreeSet;
use ui_machine::Slot;
use verify_operands::Lookups;

/// A binding that goes both ways and shares an end with an earlier one, by its number.
#[derive(Clone, Copy, Debug, PartialEq, Eq)]
pub struct SecondPair {
    pub binding: usize,
}

// Returns whether a binding goes both ways and one of its ends is in `ends`, each of which is a place with a slot.
fn is_second(ends: &BTreeSet<(u16, Slot)>, binding: &Bind) -> bool
    ensures { result ≡ (is_pair (bind_view binding.now) && is_taken ends.now (bind_view binding.now)) }
{
    is_pair(binding)
        && (ends.contains(&(binding.source.0, binding.source_slot))
            || ends.contains(&(binding.target.0, binding.target_slot)))
}

// Adds the ends of a binding that goes both ways. Does nothing for any other.
fn add_ends(ends: &mut BTreeSet<(u16, Slot)>, binding: &Bind) -> Result<(), AllocError>
    ensures { OnOk result (AddsEnds ends.old ends.new (bind_view binding.now)) }
{
    if !is_pair(binding) {
        return Ok(());
    }
    ends.insert((binding.source.0, binding.source_slot))?;
    ends.insert((binding.target.0, binding.target_slot))?;
    Ok(())
}

/// Returns the first binding that goes both ways and shares an end with an earlier one.
///
/// # Errors
///
/// `AllocError` if memory is refused.
pub fn pair_fault(alloc: Global, lookups: &Lookups<'_>) -> Result<Option<SecondPair>, AllocError>
    ensures { IfOk result (λ r. option_map second_fault r ≡ slice_get (pair_faults lookups.now) 0) }
{
    let definition = lookups.definition();
    let mut ends = BTreeSet::new(alloc);
    for number in 0..definition.binding_count() {
        let Some(binding) = definition.binding(number) else {
            return Ok(None);
        };
        if is_second(&ends, binding) {
            return Ok(Some(SecondPair { binding: number }));
        }
        add_ends(&mut ends, binding)?;
    }
    Ok(None)
}
