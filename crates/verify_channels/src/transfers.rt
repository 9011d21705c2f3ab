//! The bindings that lead one way from each channel.

ghost use Rattle.std.specs.Prelude.{◌≡◌, ◌++◌, ◌+◌, ◌<◌, ◌∷◌, [], ℕ, List, cond, length, nat_eq, slice_get, Some, IfOk, OnOk};
ghost use Rattle.std.specs.List.{filter_map};
ghost use Rattle.ui_machine.specs.Definition.Places as machine;
ghost use Rattle.definition_format.specs.Meaning.{bind_view};
ghost use Rattle.law_typing.specs.Graph.Channels.{is_pair, source_of, target_of};
ghost use Rattle.verify_graph.specs.ChannelView.{channel_of};
ghost use Rattle.verify_channels.specs.Transfers.{AreTargets, list_at};

use bindings::BindingFlags;
use bitflags::Flags;
use definition_format::Bind;
use std::alloc::{AllocError, Global};
use ui_machine::{Channel, Member};
use verify_graph::ChannelNumbers;
use verify_operands::Lookups;

// Returns whether a binding goes both ways.
fn is_pair(binding: &Bind) -> bool
    ensures { result ≡ is_pair (bind_view binding.now) }
{
    binding.flags.contains(BindingFlags::BIDIRECTIONAL)
}

// Returns the property that a binding leads from.
fn source_of(binding: &Bind) -> Channel
    ensures { channel_of result ≡ source_of (bind_view binding.now) }
{
    Channel {
        place: binding.source,
        member: Member::Property(binding.source_slot),
    }
}

// Returns the property that a binding leads to.
fn target_of(binding: &Bind) -> Channel
    ensures { channel_of result ≡ target_of (bind_view binding.now) }
{
    Channel {
        place: binding.target,
        member: Member::Property(binding.target_slot),
    }
}

// Returns `count` empty lists.
fn empty_lists(alloc: Global, count: usize) -> Result<Vec<Vec<Option<u32>>>, AllocError>
    ensures count { IfOk result (λ lists. length lists.items ≡ count) }
    ensures empty { IfOk result (λ lists. (n : ℕ) → list_at lists.items n ≡ []) }
{
    let mut lists = Vec::new(alloc);
    for _number in 0..count {
        lists.push(Vec::new(alloc))?;
    }
    Ok(lists)
}

// Appends an item to the list at an index.
fn push_at(
    lists: &mut Vec<Vec<Option<u32>>>,
    at: usize,
    item: Option<u32>,
) -> Result<(), AllocError>
    requires { at < length lists.old.items }
    ensures count { OnOk result (length lists.new.items ≡ length lists.old.items) }
    ensures pushed { OnOk result ((n : ℕ) → list_at lists.new.items n ≡ cond (nat_eq at n) (list_at lists.old.items n ++ item ∷ []) (list_at lists.old.items n)) }
{
    let list = &mut lists[at];
    list.push(item)?;
    Ok(())
}

// Adds a binding to the list of its source. Does nothing for one that goes both ways, or whose source is no channel.
fn add_binding(
    lists: &mut Vec<Vec<Option<u32>>>,
    numbers: &ChannelNumbers,
    binding: &Bind,
) -> Result<(), AllocError>
    requires { length lists.old.items ≡ length numbers.now }
    ensures count { OnOk result (length lists.new.items ≡ length lists.old.items) }
    ensures added { OnOk result ((bindings : List machine.Bind) → AreTargets numbers.now lists.old.items bindings
        → AreTargets numbers.now lists.new.items (bindings ++ bind_view binding.now ∷ [])) }
{
    if is_pair(binding) {
        return Ok(());
    }
    let Some(source) = numbers.number(&source_of(binding)) else {
        return Ok(());
    };
    // For the proof: no channel has two numbers.
    let _count = numbers.count();
    let target = numbers.number(&target_of(binding));
    push_at(lists, source as usize, target)?;
    Ok(())
}

/// Returns the bindings that lead one way from each channel. A binding is the number of its target, or `None` if the target is no channel.
///
/// # Errors
///
/// `AllocError` if memory is refused.
pub fn transfers(
    alloc: Global,
    lookups: &Lookups<'_>,
    numbers: &ChannelNumbers,
) -> Result<Vec<Vec<Option<u32>>>, AllocError>
    ensures count { IfOk result (λ lists. length lists.items ≡ length numbers.now) }
    ensures targets { IfOk result (λ lists. AreTargets numbers.now lists.items lookups.now.bindings) }
{
    let mut lists = empty_lists(alloc, numbers.count())?;
    let definition = lookups.definition();
    for number in 0..definition.binding_count() {
        let Some(binding) = definition.binding(number) else {
            return Ok(lists);
        };
        add_binding(&mut lists, numbers, binding)?;
    }
    Ok(lists)
}

// Returns the target at an index of a slice.
fn target_at(targets: &[Option<u32>], number: usize) -> Option<u32>
    requires { number < length targets.now }
    ensures { Some result ≡ slice_get targets.now number }
{
    targets[number]
}

// Adds a target if it is a channel.
fn add_known(numbers: &mut Vec<u32>, target: Option<u32>) -> Result<(), AllocError>
    ensures { OnOk result (numbers.new.items ≡ numbers.old.items ++ filter_map (λ o. o) (target ∷ [])) }
{
    if let Some(number) = target {
        numbers.push(number)?;
    }
    Ok(())
}

/// Returns the numbers of the targets that are channels.
///
/// # Errors
///
/// `AllocError` if memory is refused.
pub fn known(alloc: Global, targets: &[Option<u32>]) -> Result<Vec<u32>, AllocError>
    ensures { IfOk result (λ numbers. numbers.items ≡ filter_map (λ o. o) targets.now) }
{
    let mut numbers = Vec::new(alloc);
    for number in 0..targets.len() {
        add_known(&mut numbers, target_at(targets, number))?;
    }
    Ok(numbers)
}
