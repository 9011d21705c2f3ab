//! Look-ups of blocks and instructions of programs.

ghost use Rattle.std.specs.Prelude.{◌≡◌, length, nat_eq, option_map, slice_get, suc};
ghost use Rattle.ui_machine.specs.Definition.Programs.{passes_in};
ghost use Rattle.ui_machine.specs.Rules.Programs.{passes_of};
ghost use Rattle.bytecode.specs.View.{block_view, instruction_view, program_view};

use crate::instructions::{BlockNumber, Instruction};
use crate::programs::{Block, Program};

impl Program {
    /// Returns the block with this number, or `None` if there is none.
    #[tactic(auto, using(crate::proofs::ViewedLists::viewed_at))]
    pub fn block(&self, number: BlockNumber) -> Option<&Block>
        ensures { option_map (λ b. block_view b.now) result ≡ slice_get (program_view self.now).blocks number.0 }
    {
        self.blocks.get(number.0)
    }

    /// Returns how often the first block's instructions, except for the last, are carried out. Returns 1 if there is no block.
    pub fn first_passes(&self) -> u32
        ensures { result ≡ passes_of (slice_get (program_view self.now).blocks 0) }
    {
        match self.block(BlockNumber(0)) {
            Some(block) => block.passes(),
            None => 1,
        }
    }
}

impl Block {
    /// Returns how often the block's instructions, except for the last, are carried out.
    pub fn passes(&self) -> u32
        ensures { result ≡ passes_in (block_view self.now) }
    {
        match self.repeat {
            Some(passes) => passes,
            None => 1,
        }
    }

    /// Returns the instruction with this number, or `None` if there is none.
    #[tactic(auto, using(crate::proofs::ViewedLists::viewed_at))]
    pub fn instruction(&self, at: usize) -> Option<&Instruction>
        ensures { option_map (λ i. instruction_view i.now) result ≡ slice_get (block_view self.now).code at }
    {
        self.code.get(at)
    }

    /// Returns whether the instruction with this number is the block's last.
    #[tactic(auto, using(crate::proofs::BlockShapes::length_viewed))]
    pub fn is_last(&self, at: usize) -> bool
        ensures { result ≡ nat_eq (suc at) (length (block_view self.now).code) }
    {
        let length = self.code.len();
        length > 0 && at == length - 1
    }
}
