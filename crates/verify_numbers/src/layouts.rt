//! The numbers of the nodes of a sketch, in which the nodes of one sort come after those of another.

ghost use Rattle.std.specs.Prelude.{◌≡◌, ◌<◌, ◌≤◌, ◌^◌, map, IfOk};
ghost use Rattle.verify_sketches.specs.Numbered.{whole, own, stages, connected, group, program, blocks, place, start, block, passes, next};
ghost use Rattle.verify_sketches.specs.Sizes.{IsSmall};
ghost use Rattle.verify_sketches.specs.View.{block_view, sketch_view};
ghost use Rattle.verify_numbers.specs.Counts.{at, befores_from, block_count, block_number, counts_of};

use std::alloc::{AllocError, Global};
use std::marker::Model;
use ui_machine::ProgramId;
use verify_sketches::{Sketch, SketchedBlock};

/// The number of nodes of each sort, which gives the number of each node.
#[derive(Debug, Drop)]
pub struct Layout {
    channels: usize,
    groups: usize,
    programs: usize,
    places: usize,
    starts: usize,
    blocks: usize,
    // For each program, how many blocks come before its own.
    befores: Vec<usize>,
}

impl Model for Layout {
    ghost use Rattle.verify_numbers.specs.Counts.{Counts};

    ghost Value = { Counts };

    ghost view = { λ l. record {
      channels = l.channels;
      groups = l.groups;
      programs = l.programs;
      places = l.places;
      starts = l.starts;
      blocks = l.blocks;
      befores = l.befores.items;
    } };
}

// Counts the blocks before those of each program, and all blocks.
fn befores_of(alloc: Global, programs: &[Vec<SketchedBlock>]) -> Result<Befores, AllocError>
    requires few { block_count (map (λ v. map block_view v.items) programs.now) ≤ 16384 }
    ensures { IfOk result (λ b. (b.befores.items ≡ befores_from 0 (map (λ v. map block_view v.items) programs.now))
        × (b.blocks ≡ block_count (map (λ v. map block_view v.items) programs.now))) }
{
    let mut befores = Vec::new(alloc);
    let mut blocks: usize = 0;
    for number in 0..programs.len() {
        befores.push(blocks)?;
        blocks += programs[number].len();
    }
    Ok(Befores { befores, blocks })
}

// The number of blocks before those of each program, and the number of all blocks.
#[derive(Debug, Drop)]
struct Befores {
    befores: Vec<usize>,
    blocks: usize,
}

impl Layout {
    /// Creates the layout of a sketch.
    ///
    /// # Errors
    ///
    /// `AllocError` if memory is refused.
    pub fn new(alloc: Global, sketch: &Sketch) -> Result<Layout, AllocError>
        requires small { IsSmall (sketch_view sketch.now) }
        ensures { IfOk result (λ layout. layout ≡ counts_of (sketch_view sketch.now)) }
    {
        let all = befores_of(alloc, sketch.programs.as_slice())?;
        let Befores { befores, blocks } = all;
        Ok(Layout {
            channels: sketch.channels.len(),
            groups: sketch.groups.len(),
            programs: sketch.programs.len(),
            places: sketch.paired.len(),
            starts: sketch.starts.len(),
            blocks,
            befores,
        })
    }

    /// Returns the number of channels.
    pub fn channel_count(&self) -> usize
        ensures { result ≡ self.now.channels }
    {
        self.channels
    }

    /// Returns the number of groups.
    pub fn group_count(&self) -> usize
        ensures { result ≡ self.now.groups }
    {
        self.groups
    }

    /// Returns the number of programs.
    pub fn program_count(&self) -> usize
        ensures { result ≡ self.now.programs }
    {
        self.programs
    }

    /// Returns the number of places.
    pub fn place_count(&self) -> usize
        ensures { result ≡ self.now.places }
    {
        self.places
    }

    /// Returns the number of starts.
    pub fn start_count(&self) -> usize
        ensures { result ≡ self.now.starts }
    {
        self.starts
    }

    /// Returns the node of a channel as it is raised.
    pub fn whole(&self, channel: usize) -> u128
        ensures { result ≡ at self.now (whole channel) }
    {
        // For the proof: the channels come first.
        let _ = self.channels;
        channel as u128
    }

    /// Returns the node of a channel's emission.
    pub fn own(&self, channel: usize) -> u128
        ensures { result ≡ at self.now (own channel) }
    {
        self.channels as u128 + channel as u128
    }

    /// Returns the node of a channel's class handler.
    pub fn stages(&self, channel: usize) -> u128
        ensures { result ≡ at self.now (stages channel) }
    {
        2 * self.channels as u128 + channel as u128
    }

    /// Returns the node of the handlers that bytecode may connect at a channel.
    pub fn connected(&self, channel: usize) -> u128
        ensures { result ≡ at self.now (connected channel) }
    {
        3 * self.channels as u128 + channel as u128
    }

    /// Returns the node of a group of programs.
    pub fn group(&self, number: usize) -> u128
        ensures { result ≡ at self.now (group number) }
    {
        4 * self.channels as u128 + number as u128
    }

    /// Returns the node of a program.
    pub fn program(&self, number: ProgramId) -> u128
        ensures { result ≡ at self.now (program number) }
    {
        4 * self.channels as u128 + self.groups as u128 + number as u128
    }

    /// Returns the node of all blocks of a program.
    pub fn blocks(&self, number: usize) -> u128
        ensures { result ≡ at self.now (blocks number) }
    {
        4 * self.channels as u128 + self.groups as u128 + self.programs as u128 + number as u128
    }

    /// Returns the node of a place's paired properties.
    pub fn place(&self, number: usize) -> u128
        ensures { result ≡ at self.now (place number) }
    {
        4 * self.channels as u128 + self.groups as u128 + 2 * self.programs as u128 + number as u128
    }

    /// Returns the node of a start.
    pub fn start(&self, number: usize) -> u128
        ensures { result ≡ at self.now (start number) }
    {
        4 * self.channels as u128
            + self.groups as u128
            + 2 * self.programs as u128
            + self.places as u128
            + number as u128
    }

    // Returns the number of a block among all blocks.
    fn block_number(&self, program: usize, block: usize) -> u128
        ensures number { result ≡ block_number self.now program block }
        ensures few { result < 2 ^ 65 }
    {
        if program < self.befores.len() {
            return self.befores[program] as u128 + block as u128;
        }
        block as u128
    }

    /// Returns the node of a block of a program.
    pub fn block(&self, program: usize, number: usize) -> u128
        ensures { result ≡ at self.now (block program number) }
    {
        let begin = 4 * self.channels as u128
            + self.groups as u128
            + 2 * self.programs as u128
            + self.places as u128
            + self.starts as u128;
        begin + self.block_number(program, number)
    }

    /// Returns the node of the instructions that a block takes in each pass.
    pub fn passes(&self, program: usize, number: usize) -> u128
        ensures { result ≡ at self.now (passes program number) }
    {
        let begin = 4 * self.channels as u128
            + self.groups as u128
            + 2 * self.programs as u128
            + self.places as u128
            + self.starts as u128;
        begin + self.blocks as u128 + self.block_number(program, number)
    }

    /// Returns the node of the blocks that come after a block.
    pub fn next(&self, program: usize, number: usize) -> u128
        ensures { result ≡ at self.now (next program number) }
    {
        let begin = 4 * self.channels as u128
            + self.groups as u128
            + 2 * self.programs as u128
            + self.places as u128
            + self.starts as u128;
        begin + 2 * self.blocks as u128 + self.block_number(program, number)
    }
}
