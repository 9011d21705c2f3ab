//! Sketches the graph of a definition by numbers: what runs at each channel, and what programs may start.

ghost use Rattle.std.specs.Prelude.{◌≡◌, None, IfOk};
ghost use Rattle.law_judging.specs.FirstFaults.{first_fault};
ghost use Rattle.law_idle.specs.Idle.{busy_channels, busy_graph};
ghost use Rattle.verify_sketches.specs.Sizes.{IsSmall};
ghost use Rattle.verify_sketches.specs.Sketches.{IsSketch};
ghost use Rattle.verify_sketches.specs.View.{sketch_view};

use crate::raised_channels;
use std::alloc::{AllocError, Global};
use verify_graph::{ChannelNumbers, paired_numbers, paired_places};
use verify_operands::Lookups;
use verify_sketches::Sketch;
use verify_starts::sketched_programs;

/// Returns the graph of a definition without its idle channels, by the numbers of the busy ones. It is right if the definition breaks no rule of instructions,
/// handlers, bindings and pairs, of which only the rule of pairs is needed. It is always small enough for its nodes to be numbered.
///
/// # Errors
///
/// `AllocError` if memory is refused.
pub fn sketch(
    alloc: Global,
    lookups: &Lookups<'_>,
    numbers: &ChannelNumbers,
) -> Result<Sketch, AllocError>
    requires { numbers.now ≡ busy_channels lookups.now }
    ensures sketch { IfOk result (λ s. first_fault lookups.now ≡ None → IsSketch (busy_graph lookups.now) (sketch_view s)) }
    ensures small { IfOk result (λ s. IsSmall (sketch_view s)) }
{
    // For the proof: there are few channels.
    let _count = numbers.count();
    let paired = paired_numbers(alloc, lookups, numbers)?;
    let places = paired_places(alloc, lookups, numbers, paired.others.as_slice())?;
    let raised = raised_channels(alloc, lookups, numbers, &paired)?;
    let sketched = sketched_programs(alloc, lookups, numbers)?;
    Ok(Sketch {
        channels: raised.channels,
        groups: raised.groups,
        programs: sketched.programs,
        starts: sketched.starts,
        paired: places,
    })
}
