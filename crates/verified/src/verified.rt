//! Definitions that are verified.

ghost use Rattle.std.specs.Prelude.{◌≡◌, true, false, string_bytes, IfOk};
ghost use Rattle.law_typing.specs.Graph.Channels as law;
ghost use Rattle.law_typing.specs.Graph.Channels.{is_channel};
ghost use Rattle.law_typing.specs.Laws.{IsIn};
ghost use Rattle.law_typing.specs.Verdict.Accepted.{Accepted};
ghost use Rattle.law_idle.specs.Idle.{busy_channels, is_busy};
ghost use Rattle.verify_graph.specs.ChannelView.{channel_of};
ghost use Rattle.verified.specs.Entries.{entry_of, is_entry};
ghost use Rattle.verified.specs.Lines.{line_in};
ghost use Rattle.verified.specs.Told.{AreNumbersOf, AreSources, IsBound, IsDepth, IsRank, bound_in, value_among};

use crate::numbers::{Numbers, SourceBound};
use crate::texts::channel_line;
use definitions::Definition;
use std::alloc::{AllocError, Global};
use std::marker::Model;
use ui_machine::{Channel, Entry, ProgramId};
use verify_graph::ChannelNumbers;

/// A definition that is accepted, with the numbers of its verification. The contracts see only the definition.
#[derive(Drop)]
pub struct Verified {
    definition: Definition,
    // The busy channels. All others are idle.
    busy: ChannelNumbers,
    numbers: Numbers,
}

impl Model for Verified {
    ghost use Rattle.ui_machine.specs.Definition as machine;
    ghost use Rattle.verified.specs.Told.{IsVerified};

    ghost Value = { machine.Definition };

    ghost view = { λ v. v.definition };

    ghost invariant = { λ v. IsVerified v.definition v.busy v.numbers };
}

// Returns the bound of the first of these sources that runs the program.
fn bound_of_source(sources: &[SourceBound], program: ProgramId) -> Option<u64>
    ensures { result ≡ bound_in program sources.now }
{
    let source = sources.iter().find(|source| source.program == program)?;
    Some(source.bound)
}

// Returns the value of a channel, which is `idle` for an idle one.
fn value_of<T: Copy + Drop>(busy: &ChannelNumbers, values: &[T], idle: T, channel: &Channel) -> T
    ensures { result ≡ value_among busy.now values.now idle (channel_of channel.now) }
{
    let Some(number) = busy.number(channel) else {
        return idle;
    };
    match values.get(number as usize) {
        Some(value) => *value,
        None => idle,
    }
}

impl Verified {
    /// Creates a verified definition of these parts. The definition must be accepted, and the busy channels and numbers must be its own.
    pub fn new(definition: Definition, busy: ChannelNumbers, numbers: Numbers) -> Verified
        requires busy { busy ≡ busy_channels definition }
        requires accepted { (a : Accepted definition) × AreNumbersOf definition numbers a }
        ensures { result ≡ definition }
    {
        Verified {
            definition,
            busy,
            numbers,
        }
    }

    /// Returns the definition, which is accepted.
    pub fn definition(&self) -> &Definition
        ensures same { result.now ≡ self.now }
        ensures accepted { Accepted self.now }
    {
        &self.definition
    }

    /// Returns the definition without the numbers.
    pub fn into_definition(self) -> Definition
        ensures same { result ≡ self }
        ensures accepted { Accepted result }
    {
        self.definition
    }

    // Returns the rank of a channel of the definition.
    fn rank_of(&self, channel: &Channel) -> u32
        ensures { IsIn (channel_of channel.now) (law.channels self.now) → IsRank self.now (channel_of channel.now) result }
    {
        let ranks = self.numbers.ranks.as_slice();
        value_of(&self.busy, ranks, 0, channel)
    }

    /// Returns the bound of a channel of the definition, as `bound` does.
    pub fn bound_of(&self, channel: &Channel) -> u64
        ensures { IsIn (channel_of channel.now) (law.channels self.now) → IsBound self.now (law.at (channel_of channel.now)) result }
    {
        let bounds = self.numbers.bounds.as_slice();
        value_of(&self.busy, bounds, self.numbers.idle, channel)
    }

    /// Returns the busy channels: all but the signals at which nothing runs, and which no program names.
    pub fn busy(&self) -> &ChannelNumbers
        ensures { result.now ≡ busy_channels self.now }
    {
        &self.busy
    }

    /// Returns the bound of each channel that is not busy. All idle channels have the same.
    pub fn idle_bound(&self) -> u64
        ensures { (c : law.Channel) → IsIn c (law.channels self.now) → is_busy self.now c ≡ false → IsBound self.now (law.at c) result }
    {
        self.numbers.idle
    }

    /// Returns the line of a channel of the definition in the report.
    ///
    /// # Errors
    ///
    /// `AllocError` if memory is refused.
    pub(crate) fn line_of_channel(
        &self,
        alloc: Global,
        channel: &Channel,
    ) -> Result<String, AllocError>
        ensures { IfOk result (λ line. IsIn (channel_of channel.now) (law.channels self.now) → (a : Accepted self.now) → string_bytes line ≡ line_in self.now a (channel_of channel.now)) }
    {
        let rank = self.rank_of(channel);
        let bound = self.bound_of(channel);
        channel_line(alloc, self.definition(), *channel, rank, bound)
    }

    /// Returns the programs of sources with their bounds, in document order.
    pub fn sources(&self) -> &[SourceBound]
        ensures sources { AreSources self.now result.now }
        ensures accepted { Accepted self.now }
    {
        self.numbers.sources.as_slice()
    }

    // Returns the bound of a dispatch in which a source runs this program.
    fn source_bound(&self, program: ProgramId) -> u64
        requires { is_entry self.now (law.source program) ≡ true }
        ensures { IsBound self.now (law.source program) result }
    {
        let Some(bound) = bound_of_source(self.sources(), program) else {
            unreachable!()
        };
        bound
    }

    /// Returns the rank of a channel, which is the number of edges of the longest chain that ends in its node.
    pub fn rank(&self, channel: Channel) -> u32
        requires { is_channel self.now (channel_of channel) ≡ true }
        ensures { IsRank self.now (channel_of channel) result }
    {
        self.rank_of(&channel)
    }

    /// Returns the greatest number of counted steps of a dispatch that begins with `entry`.
    pub fn bound(&self, entry: Entry) -> u64
        requires { is_entry self.now (entry_of entry) ≡ true }
        ensures { IsBound self.now (entry_of entry) result }
    {
        match entry {
            Entry::Build => self.numbers.build,
            Entry::At(channel) => self.bound_of(&channel),
            Entry::Source(program) => self.source_bound(program),
            Entry::Plain => u64::from(self.definition.limits().objects),
        }
    }

    /// Returns the greatest number of frames that are ever under way at a time.
    pub fn depth(&self) -> u32
        ensures { IsDepth self.now result }
    {
        self.numbers.depth
    }
}
