//! Types instructions of all sorts.

ghost use Rattle.bytecode.specs.View.{instruction_view, program_view};
ghost use Rattle.law_typing.specs.Rules.Typing.{typed};
ghost use Rattle.verify_operands.specs.Views.{Leaves, kinds_of};

use crate::{calls, computations, controls, objects, properties, signals, sources};
use bytecode::{Instruction, Program, RegisterKind};
use std::alloc::Global;
use verify_operands::{Lookups, TypingError, Written};

/// Types an instruction of a program whose registers have these kinds. Returns the register that it writes, if it writes one.
///
/// # Errors
///
/// Returns the first rule that the instruction breaks: of its object operands, of its names, of its other operands from left to right, of
/// the number of its arguments, of the signature, and of the result or the next block. Returns `OutOfMemory` if memory is refused.
pub fn typed(
    alloc: Global,
    lookups: &Lookups<'_>,
    program: &Program,
    kinds: &[RegisterKind],
    instruction: &Instruction,
) -> Result<Option<Written>, TypingError>
    ensures { Leaves (kinds_of kinds.now) result (typed lookups.now (program_view program.now) (kinds_of kinds.now) (instruction_view instruction.now)) }
{
    match instruction {
        Instruction::Compute { to, computation } => computations::typed(
            lookups,
            kinds,
            *to,
            computation,
        ),
        Instruction::Control(control) => controls::typed(alloc, lookups, program, kinds, control),
        Instruction::Property(instruction) => properties::typed(lookups, kinds, instruction),
        Instruction::Object(instruction) => objects::typed(lookups, kinds, instruction),
        Instruction::Signal(instruction) => signals::typed(alloc, lookups, kinds, instruction),
        Instruction::Source(instruction) => sources::typed(alloc, lookups, kinds, instruction),
        Instruction::Peer(call) => calls::typed(lookups, kinds, call),
    }
}
