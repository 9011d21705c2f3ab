//! The frames of running programs.
//!
//! A frame says which instruction of a program comes next, and what its registers hold. A contract sees the machine's frame. The objects
//! that the registers name are held by the owner of the frame. Nothing is counted here, so a write to a register returns what it held.

ghost use Rattle.std.specs.Prelude.{◌≡◌, ◌<◌, ◌≤◌, List, length, None, Some, option_map, map, slice_get, vec_capacity, IsSome};
ghost use Rattle.ui_machine.specs.Definition.Values as values;
ghost use Rattle.ui_machine.specs.Instructions.Jumps.{is_again};
ghost use Rattle.ui_machine.specs.Rules.Programs.{first_frame, first_registers};
ghost use Rattle.ui_machine.specs.Seq.{read, write};
ghost use Rattle.g_values.specs.View.{value_view};
ghost use Rattle.bytecode.specs.Computing.{registers_of};
ghost use Rattle.frames.specs.FrameView.{Takes, at_block, frame_view, taken_in};
ghost use Rattle.bytecode.specs.View.{block_view, instruction_view, program_view};

use bytecode::{Block, BlockNumber, Instruction, Program, Register};
use g_values::Value;
use std::mem;
use ui_machine::ProgramId;

/// A running program.
#[derive(Debug, Drop)]
pub struct Frame {
    /// The number of the program.
    pub program: ProgramId,
    pub block: BlockNumber,
    /// The index of the next instruction in the block.
    pub at: usize,
    /// How many passes over the instructions before the block's last are left, including the current one.
    pub passes: u32,
    /// The register that waits for the result of an emission.
    pub into: Option<Register>,
    pub registers: Vec<Option<Value>>,
}

// Appends unset registers to those that are there, up to the number of a program's registers. There is room for them.
fn first_registers(program: &Program, mut registers: Vec<Option<Value>>) -> Vec<Option<Value>>
    requires room { program.now.registers ≤ vec_capacity registers }
    ensures registers { (args : List values.Value) → registers_of registers.items ≡ map (λ v. Some v) args → registers_of result.items ≡ first_registers (program_view program.now) args }
    ensures room { vec_capacity result ≡ vec_capacity registers }
{
    let unset = program.registers.saturating_sub(registers.len());
    'filling: for _added in 0..unset {
        registers.push_reserved(None);
    }
    registers
}

impl Frame {
    /// Creates a frame at the first instruction of a program. The values of the parameters are in the first registers already, and the
    /// vector has room for all registers of the program.
    pub fn new(number: ProgramId, program: &Program, registers: Vec<Option<Value>>) -> Frame
        requires room { program.now.registers ≤ vec_capacity registers }
        ensures frame { (args : List values.Value) → registers_of registers.items ≡ map (λ v. Some v) args → frame_view result ≡ first_frame number (program_view program.now) args }
        ensures room { vec_capacity result.registers ≡ vec_capacity registers }
    {
        Frame {
            program: number,
            block: BlockNumber(0),
            at: 0,
            passes: program.first_passes(),
            into: None,
            registers: first_registers(program, registers),
        }
    }

    // Returns whether the block's last instruction is next, but the instructions before it are to be carried out again first.
    fn is_again(&self, block: &Block) -> bool
        ensures { result ≡ is_again (block_view block.now) (frame_view self.now) }
    {
        self.at > 0 && self.passes > 1 && block.is_last(self.at)
    }

    /// Takes the next instruction of the frame's program, or returns `None` if the program has none there.
    pub fn take<'a>(&mut self, program: &'a Program) -> Option<&'a Instruction>
        ensures taken { Takes (option_map (λ i. instruction_view i.now) result) (taken_in (program_view program.now) (frame_view self.old)) (frame_view self.new) }
        ensures kept { self.new.registers ≡ self.old.registers }
    {
        let block = program.block(self.block)?;
        if self.is_again(block) {
            self.at = 0;
            self.passes -= 1;
        }
        let instruction = block.instruction(self.at)?;
        self.at += 1;
        Some(instruction)
    }

    /// Goes to the first instruction of a block of the frame's program.
    pub fn jump(&mut self, program: &Program, to: BlockNumber)
        requires block { IsSome (slice_get (program_view program.now).blocks to.0) }
        ensures jumped { option_map (at_block to.0 (frame_view self.old)) (slice_get (program_view program.now).blocks to.0) ≡ Some (frame_view self.new) }
        ensures kept { self.new.registers ≡ self.old.registers }
    {
        let Some(block) = program.block(to) else {
            unreachable!()
        };
        self.block = to;
        self.at = 0;
        self.passes = block.passes();
    }

    /// Writes or unsets a register that exists, and returns what it held.
    pub fn put(&mut self, to: Register, value: Option<Value>) -> Option<Value>
        requires register { to.0 < length (frame_view self.now).registers }
        ensures written { (frame_view self.new).registers ≡ write None (frame_view self.old).registers to.0 (option_map value_view value) }
        ensures beside { frame_view self.new ≡ record (frame_view self.old) { registers = (frame_view self.new).registers } }
        ensures held { option_map value_view result ≡ read None (frame_view self.old).registers to.0 }
        ensures room { vec_capacity self.new.registers ≡ vec_capacity self.old.registers }
    {
        mem::replace(&mut self.registers[to.0], value)
    }
}
