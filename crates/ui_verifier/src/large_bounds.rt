//! Finds the first bound that is too large.

ghost use Rattle.std.specs.Prelude.{◌≡◌, get_or, nat_lt, option_map};
ghost use Rattle.std.specs.List.{find};
ghost use Rattle.ui_machine.specs.Definition as machine;
ghost use Rattle.law_typing.specs.Graph.{graph};
ghost use Rattle.law_typing.specs.Graph.Channels as law;
ghost use Rattle.law_idle.specs.Idle.{busy_channels};
ghost use Rattle.law_typing.specs.Graph.Tables.{Table, Tables};
ghost use Rattle.law_typing.specs.Verdict.{too_large};
ghost use Rattle.verified.specs.Entries.{entry_of};
ghost use Rattle.ui_verifier.specs.Bounds.{AreCapped};
ghost use Rattle.ui_verifier.specs.Large.{large_channel, large_source};

use ui_machine::Entry;
use verified::{Numbers, SourceBound};
use verify_graph::ChannelNumbers;

// The greatest bound that is allowed.
const MOST_BOUND: u64 = 1_000_000_000_000;

// Returns whether the bound at an index is too large, or false if there is none.
fn is_large(bounds: &[u64], number: usize) -> bool
    ensures { result ≡ nat_lt 1_000_000_000_000 (get_or bounds.now number 0) }
{
    match bounds.get(number) {
        Some(bound) => *bound > MOST_BOUND,
        None => false,
    }
}

// Returns the first channel whose bound is too large, which is a busy one.
fn large_channel(numbers: &Numbers, busy: &ChannelNumbers) -> Option<Entry>
    ensures { (d : machine.Definition) (by_rank : Table) (by_cost by_depth : Tables) → AreCapped d numbers.now by_rank by_cost by_depth → busy.now ≡ busy_channels d
        → option_map entry_of result ≡ large_channel d by_cost (law.channels d) }
{
    let bounds = numbers.bounds.as_slice();
    for number in 0..busy.count() {
        if is_large(bounds, number) {
            return Some(Entry::At(busy.channel(number)));
        }
    }
    None
}

// Returns the first source whose bound is too large.
fn large_source(sources: &[SourceBound]) -> Option<SourceBound>
    ensures { result ≡ find (λ s. nat_lt 1_000_000_000_000 s.bound) sources.now }
{
    sources
        .iter()
        .copied()
        .find(|source| source.bound > MOST_BOUND)
}

/// Returns the first entry of the report whose bound is too large.
pub(crate) fn too_large(numbers: &Numbers, busy: &ChannelNumbers) -> Option<Entry>
    ensures { (d : machine.Definition) (by_rank : Table) (by_cost by_depth : Tables) → AreCapped d numbers.now by_rank by_cost by_depth → busy.now ≡ busy_channels d
        → option_map entry_of result ≡ too_large (graph d) by_cost }
{
    if numbers.build > MOST_BOUND {
        return Some(Entry::Build);
    }
    if let Some(entry) = large_channel(numbers, busy) {
        return Some(entry);
    }
    match large_source(numbers.sources.as_slice()) {
        Some(source) => Some(Entry::Source(source.program)),
        None => None,
    }
}
