//! Carries the kinds of registers through instructions.

ghost use Rattle.std.specs.Prelude.{◌≡◌, OnOk};
ghost use Rattle.bytecode.specs.View.{instruction_view, program_view};
ghost use Rattle.law_typing.specs.Rules.Typing.{after};
ghost use Rattle.verify_operands.specs.Views.{kinds_of};

use bytecode::{Instruction, Program, RegisterKind};
use std::alloc::{AllocError, Global};
use verify_instructions::typed;
use verify_operands::lists::write;
use verify_operands::{Lookups, TypingError};

/// Changes the kinds of registers to those after an instruction. One that breaks a rule leaves them as they are.
///
/// # Errors
///
/// `AllocError` if memory is refused.
#[tactic(auto, using(verify_operands::proofs::Filled::write_seen))]
pub fn go_after(
    alloc: Global,
    lookups: &Lookups<'_>,
    program: &Program,
    kinds: &mut Vec<RegisterKind>,
    instruction: &Instruction,
) -> Result<(), AllocError>
    ensures { OnOk result (kinds_of kinds.new.items ≡ after lookups.now (program_view program.now) (kinds_of kinds.old.items) (instruction_view instruction.now)) }
{
    match typed(alloc, lookups, program, kinds.as_slice(), instruction) {
        Ok(None) => Ok(()),
        Ok(Some(written)) => {
            write(kinds, written.to.0, written.kind, RegisterKind::Unset)?;
            Ok(())
        }
        Err(TypingError::Broken(_)) => Ok(()),
        Err(TypingError::OutOfMemory) => Err(AllocError),
    }
}
