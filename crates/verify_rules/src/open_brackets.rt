//! Counts the open brackets of each register, where a freeze opens a bracket and a thaw closes it.

ghost use Rattle.std.specs.Prelude.{◌≡◌, ◌∷◌, ℕ, List, option_map, IfOk, OnOk};
ghost use Rattle.ui_machine.specs.Seq.{read};
ghost use Rattle.bytecode.specs.View.{instruction_view, number_of, object_instruction_view, property_instruction_view, signal_instruction_view, source_instruction_view};
ghost use Rattle.law_typing.specs.Rules.Brackets.{is_empty, written};
ghost use Rattle.verify_rules.specs.BracketSteps.{AreFew, Counts, Goes, freezes, step_of, step_view, thaws, writes};

use bytecode::{
    Instruction, ObjectInstruction, PropertyInstruction, Register, SignalInstruction,
    SourceInstruction,
};
use std::alloc::AllocError;
use verify_operands::lists::write;

/// The effect of an instruction on brackets.
#[derive(Clone, Copy, Debug, PartialEq, Eq)]
pub enum BracketStep {
    /// Opens a bracket of the register.
    Freeze(Register),
    /// Closes a bracket of the register.
    Thaw(Register),
    /// Writes the register, or none.
    Write(Option<Register>),
}

fn property_step(instruction: &PropertyInstruction) -> BracketStep
    ensures { step_view result ≡ step_of (property_instruction_view instruction.now) }
{
    match instruction {
        PropertyInstruction::Get { to, .. } => BracketStep::Write(Some(*to)),
        PropertyInstruction::Set { .. } | PropertyInstruction::Notify { .. } => {
            BracketStep::Write(None)
        }
        PropertyInstruction::Freeze(object) => BracketStep::Freeze(*object),
        PropertyInstruction::Thaw(object) => BracketStep::Thaw(*object),
    }
}

fn object_written(instruction: &ObjectInstruction) -> Option<Register>
    ensures { writes (option_map number_of result) ≡ step_of (object_instruction_view instruction.now) }
{
    match instruction {
        ObjectInstruction::LookUp { to, .. } => Some(*to),
        ObjectInstruction::New { to, .. } => Some(*to),
        ObjectInstruction::Adopt { to, .. } => Some(*to),
        ObjectInstruction::Sink(_) => None,
        ObjectInstruction::Orphan(_) => None,
        ObjectInstruction::Dispose(_) => None,
    }
}

fn signal_written(instruction: &SignalInstruction) -> Option<Register>
    ensures { writes (option_map number_of result) ≡ step_of (signal_instruction_view instruction.now) }
{
    match instruction {
        SignalInstruction::Emit { into, .. } => *into,
        SignalInstruction::Connect { to, .. } => Some(*to),
        SignalInstruction::Disconnect { .. } => None,
        SignalInstruction::Block { .. } => None,
        SignalInstruction::Unblock { .. } => None,
        SignalInstruction::Stop => None,
    }
}

fn source_written(instruction: &SourceInstruction) -> Option<Register>
    ensures { writes (option_map number_of result) ≡ step_of (source_instruction_view instruction.now) }
{
    match instruction {
        SourceInstruction::Idle { to, .. } => Some(*to),
        SourceInstruction::Timeout { to, .. } => Some(*to),
        SourceInstruction::Unbind(_) => None,
        SourceInstruction::Remove(_) => None,
    }
}

/// Returns the effect of an instruction on brackets.
#[tactic(auto, using(crate::proofs::InstructionSteps::computed, crate::proofs::InstructionSteps::controlled))]
pub fn bracket_step(instruction: &Instruction) -> BracketStep
    ensures { step_view result ≡ step_of (instruction_view instruction.now) }
{
    match instruction {
        Instruction::Compute { to, .. } => BracketStep::Write(Some(*to)),
        Instruction::Control(_) => BracketStep::Write(None),
        Instruction::Property(instruction) => property_step(instruction),
        Instruction::Object(instruction) => BracketStep::Write(object_written(instruction)),
        Instruction::Signal(instruction) => BracketStep::Write(signal_written(instruction)),
        Instruction::Source(instruction) => BracketStep::Write(source_written(instruction)),
        Instruction::Peer(call) => BracketStep::Write(Some(call.to)),
    }
}

// Returns the number of open brackets of a register.
fn count_of(counts: &[usize], register: Register) -> usize
    ensures { result ≡ read 0 counts.now register.0 }
{
    if register.0 < counts.len() {
        counts[register.0]
    } else {
        0
    }
}

// Goes back over a freeze. Returns whether a bracket of the register is open after it, and then there is one less before it.
fn open(counts: &mut Vec<usize>, register: Register) -> Result<bool, AllocError>
    ensures { IfOk result (λ kept. Goes kept counts.new.items counts.old.items (freezes register.0)) }
{
    let count = count_of(counts.as_slice(), register);
    if count == 0 {
        return Ok(false);
    }
    write(counts, register.0, count - 1, 0)?;
    Ok(true)
}

// Goes back over a thaw, before which the register has one more open bracket.
fn close(counts: &mut Vec<usize>, register: Register) -> Result<(), AllocError>
    requires { AreFew counts.old.items }
    ensures { OnOk result ((registers : List ℕ) → Counts counts.old.items registers → Counts counts.new.items (register.0 ∷ registers)) }
{
    let count = count_of(counts.as_slice(), register);
    write(counts, register.0, count + 1, 0)?;
    Ok(())
}

// Returns whether the register that is written, if any, has no open bracket.
fn is_kept(counts: &[usize], register: Option<Register>) -> bool
    ensures { Goes result counts.now counts.now (writes (option_map number_of register)) }
{
    match register {
        Some(register) => count_of(counts, register) == 0,
        None => true,
    }
}

/// Goes back over a step. Returns whether it is allowed where `counts` are the brackets that are open after it. If it is, they become the
/// brackets that are open before it.
///
/// # Errors
///
/// `AllocError` if memory is refused.
pub fn go_before(counts: &mut Vec<usize>, step: &BracketStep) -> Result<bool, AllocError>
    requires { AreFew counts.old.items }
    ensures { IfOk result (λ kept. Goes kept counts.new.items counts.old.items (step_view step.now)) }
{
    match *step {
        BracketStep::Freeze(register) => open(counts, register),
        BracketStep::Thaw(register) => {
            close(counts, register)?;
            Ok(true)
        }
        BracketStep::Write(register) => Ok(is_kept(counts.as_slice(), register)),
    }
}

/// Returns whether no bracket is open.
pub fn are_closed(counts: &[usize]) -> bool
    ensures { (registers : List ℕ) → Counts counts.now registers → result ≡ is_empty registers }
{
    for number in 0..counts.len() {
        if counts[number] > 0 {
            return false;
        }
    }
    true
}
