//! Writes the report of a verified definition.

ghost use Rattle.std.specs.Prelude.{◌≡◌, ◌<◌, ℕ, Some, false, length, slice_get};
ghost use Rattle.law_typing.specs.Graph.Channels.{channels_at};
ghost use Rattle.law_typing.specs.Verdict.Accepted.{Accepted};
ghost use Rattle.verify_graph.specs.ChannelView.{channels_of};
ghost use Rattle.verified.specs.Lines.{channel_lines, place_lines, report_of, source_lines, total_lines};
ghost use Rattle.verified.specs.Writing.{IsMarked, Reports};

use crate::faults::ReportFault;
use crate::texts::{build_line, depth_line, source_line};
use crate::verified::Verified;
use crate::writing::write_line;
use std::alloc::Global;
use ui_machine::{Channel, Entry, Place, Sink};
use verify_graph::channels_at;
use verify_operands::Lookups;

// Returns the channel at an index of a slice.
fn channel_at(channels: &[Channel], number: usize) -> Channel
    requires { number < length channels.now }
    ensures { slice_get channels.now number ≡ Some result }
{
    channels[number]
}

impl Verified {
    /// Writes the report. It has a line with the depth, one with the bound of the build, one for each channel with its rank and bound, and
    /// one for each source's program with its bound. No write to the writer may have failed before.
    ///
    /// # Errors
    ///
    /// Returns `WriteFault` if a write failed, and the writer took only a first part of the report's bytes. Returns `OutOfMemory` if memory
    /// for a line is refused, and it took the lines before that one.
    pub fn report<W: Sink>(&self, alloc: Global, writer: &mut W) -> Result<(), ReportFault>
        requires works { W.failed writer.old ≡ false }
        ensures lines { (a : Accepted self.now) → Reports result (W.taken writer.old) (W.taken writer.new) (report_of self.now a) }
        ensures marks { IsMarked result (W.failed writer.new) }
    {
        self.report_totals(alloc, writer)?;
        self.report_channels(alloc, writer)?;
        self.report_sources(alloc, writer)
    }

    // Writes the lines of the depth and of the build.
    fn report_totals<W: Sink>(&self, alloc: Global, writer: &mut W) -> Result<(), ReportFault>
        requires works { W.failed writer.old ≡ false }
        ensures lines { (a : Accepted self.now) → Reports result (W.taken writer.old) (W.taken writer.new) (total_lines self.now a) }
        ensures marks { IsMarked result (W.failed writer.new) }
    {
        let depth = depth_line(alloc, self.depth())?;
        write_line(writer, depth)?;
        let build = build_line(alloc, self.bound(Entry::Build))?;
        write_line(writer, build)
    }

    // Writes the lines of some channels of a place.
    fn report_place<W: Sink>(
        &self,
        alloc: Global,
        writer: &mut W,
        channels: &[Channel],
    ) -> Result<(), ReportFault>
        requires works { W.failed writer.old ≡ false }
        ensures lines { (place : ℕ) (a : Accepted self.now) → place < length self.now.places → channels_of channels.now ≡ channels_at self.now place
            → Reports result (W.taken writer.old) (W.taken writer.new) (place_lines self.now a place) }
        ensures marks { IsMarked result (W.failed writer.new) }
    {
        for number in 0..channels.len() {
            let line = self.line_of_channel(alloc, &channel_at(channels, number))?;
            write_line(writer, line)?;
        }
        Ok(())
    }

    // Writes the lines of the channels, place by place: no list of all of them is made.
    fn report_channels<W: Sink>(&self, alloc: Global, writer: &mut W) -> Result<(), ReportFault>
        requires works { W.failed writer.old ≡ false }
        ensures lines { (a : Accepted self.now) → Reports result (W.taken writer.old) (W.taken writer.new) (channel_lines self.now a) }
        ensures marks { IsMarked result (W.failed writer.new) }
    {
        let lookups = Lookups::new(alloc, self.definition())?;
        for place in 0..self.definition().place_count() {
            let channels = channels_at(alloc, &lookups, Place(place as u16))?;
            self.report_place(alloc, writer, channels.as_slice())?;
        }
        Ok(())
    }

    // Writes the lines of the sources.
    fn report_sources<W: Sink>(&self, alloc: Global, writer: &mut W) -> Result<(), ReportFault>
        requires works { W.failed writer.old ≡ false }
        ensures lines { (a : Accepted self.now) → Reports result (W.taken writer.old) (W.taken writer.new) (source_lines self.now a) }
        ensures marks { IsMarked result (W.failed writer.new) }
    {
        for source in self.sources() {
            let line = source_line(alloc, self.definition(), *source)?;
            write_line(writer, line)?;
        }
        Ok(())
    }
}
