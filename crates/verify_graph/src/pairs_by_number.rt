//! The pairs of channels, by the numbers of their ends.

ghost use Rattle.std.specs.Prelude.{◌≡◌, ◌+◌, ◌<◌, [], drop, length, slice_get, Some, IfOk};
ghost use Rattle.law_typing.specs.Graph.{pairs_of};
ghost use Rattle.verify_graph.specs.Paired.{ArePaired};
ghost use Rattle.verify_graph.specs.Pairs.{pair_view, pairs_view};

use crate::bound_channels::{Pair, pairs};
use crate::channel_numbers::ChannelNumbers;
use std::alloc::{AllocError, Global};
use verify_operands::Lookups;

/// The pairs of a definition's channels by number: for each channel the first end of its pair, or the channel itself, and the other end.
#[derive(Debug, Drop)]
pub struct PairedNumbers {
    pub firsts: Vec<u32>,
    pub others: Vec<Option<u32>>,
}

// Returns the pair at an index of a slice.
fn pair_at(pairs: &[Pair], at: usize) -> Pair
    requires { at < length pairs.now }
    ensures { slice_get (pairs_view pairs.now) at ≡ Some (pair_view result) }
{
    pairs[at]
}

impl PairedNumbers {
    // Creates numbers for channels of which none is in a pair.
    fn alone(alloc: Global, numbers: &ChannelNumbers) -> Result<PairedNumbers, AllocError>
        ensures { IfOk result (λ p. ArePaired numbers.now [] p.firsts.items p.others.items) }
    {
        let mut firsts = Vec::new(alloc);
        let mut others = Vec::new(alloc);
        for number in 0..numbers.count() {
            firsts.push(number as u32)?;
            others.push(None)?;
        }
        Ok(PairedNumbers { firsts, others })
    }

    // Adds pair `at`, which comes before those that are there already, and overrides what these say of its ends.
    fn add(&mut self, numbers: &ChannelNumbers, pairs: &[Pair], at: usize)
        requires within { at < length pairs.now }
        requires later { ArePaired numbers.now (drop (at + 1) (pairs_view pairs.now)) self.old.firsts.items self.old.others.items }
        ensures { ArePaired numbers.now (drop at (pairs_view pairs.now)) self.new.firsts.items self.new.others.items }
    {
        let pair = pair_at(pairs, at);
        // For the proof: no channel has two numbers.
        let _count = numbers.count();
        let Some(first) = numbers.number(&pair.first) else {
            return;
        };
        let Some(second) = numbers.number(&pair.second) else {
            return;
        };
        self.firsts[second as usize] = first;
        self.others[second as usize] = Some(first);
        self.others[first as usize] = Some(second);
    }
}

/// Returns the pairs of a definition by number.
///
/// # Errors
///
/// `AllocError` if memory is refused.
pub fn paired_numbers(
    alloc: Global,
    lookups: &Lookups<'_>,
    numbers: &ChannelNumbers,
) -> Result<PairedNumbers, AllocError>
    ensures { IfOk result (λ p. ArePaired numbers.now (pairs_of lookups.now.bindings) p.firsts.items p.others.items) }
{
    let pairs = pairs(alloc, lookups.definition())?;
    let mut paired = PairedNumbers::alone(alloc, numbers)?;
    let count = pairs.len();
    for behind in 0..count {
        paired.add(numbers, pairs.as_slice(), count - 1 - behind);
    }
    Ok(paired)
}
