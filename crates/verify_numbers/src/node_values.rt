//! Looks up the numbers of the nodes of channels and programs.

ghost use Rattle.std.specs.Prelude.{◌≡◌, length, slice_get, slice_index_or, IfOk};
ghost use Rattle.verify_numbers.specs.Tables.{value_of};
ghost use Rattle.verify_sketches.specs.Numbered.{first_of, program, whole};
ghost use Rattle.verify_sketches.specs.View.{sketch_view};
ghost use Rattle.verify_numbers.specs.Counts.{at, at_in, counts_of};
ghost use Rattle.verify_order.specs.Numbers.{of_node};
ghost use Rattle.ui_machine.specs.Seq.{listed};

use crate::layouts::Layout;
use std::alloc::{AllocError, Global};
use ui_machine::ProgramId;
use verify_sketches::Sketch;

// Returns the number of a node, or 0 if there is no such node.
fn number_at(values: &[u64], node: u128) -> u64
    ensures { result ≡ of_node values.now node }
{
    if node < values.len() as u128 {
        values[node as usize]
    } else {
        0
    }
}

// Returns the first end of the pair of a channel, or the channel itself if it is in none.
fn first_of(sketch: &Sketch, channel: usize) -> usize
    ensures { result ≡ first_of (slice_get (sketch_view sketch.now).channels channel) channel }
{
    match sketch.channels.get(channel) {
        Some(found) => found.first as usize,
        None => channel,
    }
}

// Returns the number of a channel's node.
fn channel_value(sketch: &Sketch, layout: &Layout, values: &[u64], channel: usize) -> u64
    requires { layout.now ≡ counts_of (sketch_view sketch.now) }
    ensures { result ≡ value_of (sketch_view sketch.now) (at_in (sketch_view sketch.now)) values.now channel }
{
    number_at(values, layout.whole(first_of(sketch, channel)))
}

/// Returns the number of each channel's node, in the order of the report.
///
/// # Errors
///
/// `AllocError` if memory is refused.
pub fn channel_values(
    alloc: Global,
    sketch: &Sketch,
    layout: &Layout,
    values: &[u64],
) -> Result<Vec<u64>, AllocError>
    requires { layout.now ≡ counts_of (sketch_view sketch.now) }
    ensures { IfOk result (λ numbers. numbers.items
        ≡ listed (value_of (sketch_view sketch.now) (at_in (sketch_view sketch.now)) values.now) (length sketch.now.channels.items)) }
{
    let mut numbers = Vec::new(alloc);
    for channel in 0..sketch.channels.len() {
        numbers.push(channel_value(sketch, layout, values, channel))?;
    }
    Ok(numbers)
}

/// Returns the number of a program's node.
pub fn program_value(layout: &Layout, values: &[u64], number: ProgramId) -> u64
    ensures { result ≡ of_node values.now (at layout.now (program number)) }
{
    number_at(values, layout.program(number))
}
