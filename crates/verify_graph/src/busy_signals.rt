//! The busy signals of classes: those for which a class runs a program, and those that a program names.

ghost use Rattle.std.specs.Prelude.{◌≡◌, ◌||◌, ℕ, false, map, IfOk, OnOk};
ghost use Rattle.ui_machine.specs.Seq.{listed, read};
ghost use Rattle.ui_machine.specs.Definition.Lookups.{class_of};
ghost use Rattle.ui_machine.specs.Rules.Programs.{is_number};
ghost use Rattle.bytecode.specs.View.{block_view, instruction_view, signal_instruction_view};
ghost use Rattle.definition_format.specs.Meaning.{attached_view};
ghost use Rattle.law_typing.specs.Graph.{listed_if};
ghost use Rattle.law_idle.specs.Idle.{is_handled, named_in, named_in_blocks, named_signals, signal_named, signals_attached};
ghost use Rattle.verify_graph.specs.Busy.{AreUsed, AreUsedOfTypes, Marks};

use bytecode::{Block, Instruction, SignalInstruction};
use definition_format::Attached;
use std::alloc::{AllocError, Global};
use type_tree::{MOST_TYPES, TypeId};
use ui_machine::SignalId;
use verify_operands::Lookups;
use verify_operands::lists::{copy, write};

// Marks a signal, if its number is known.
fn mark(marks: &mut Vec<bool>, number: Option<SignalId>) -> Result<(), AllocError>
    ensures { OnOk result ((n : ℕ) → read false marks.new.items n ≡ (read false marks.old.items n || is_number n number)) }
{
    if let Some(number) = number {
        write(marks, usize::from(number), true, false)?;
    }
    Ok(())
}

// Marks the signal of a class that an instruction on signals names, if it names one.
fn mark_signal(
    marks: &mut Vec<bool>,
    lookups: &Lookups<'_>,
    class: TypeId,
    instruction: &SignalInstruction,
) -> Result<(), AllocError>
    ensures { OnOk result (Marks lookups.now class (listed_if (signal_named (signal_instruction_view instruction.now))) marks.old.items marks.new.items) }
{
    match instruction {
        SignalInstruction::Emit { signal, .. } => {
            mark(marks, lookups.signal_number(class, signal.as_str()))
        }
        SignalInstruction::Connect { connection, .. } => mark(
            marks,
            lookups.signal_number(class, connection.signal.as_str()),
        ),
        SignalInstruction::Disconnect { .. }
        | SignalInstruction::Block { .. }
        | SignalInstruction::Unblock { .. }
        | SignalInstruction::Stop => Ok(()),
    }
}

// Marks the signal of a class that an instruction names, if it names one.
#[tactic(auto, using(crate::proofs::UnnamedSignals::computed, crate::proofs::UnnamedSignals::controlled, crate::proofs::UnnamedSignals::of_property, crate::proofs::UnnamedSignals::of_object, crate::proofs::UnnamedSignals::sourced))]
fn mark_instruction(
    marks: &mut Vec<bool>,
    lookups: &Lookups<'_>,
    class: TypeId,
    instruction: &Instruction,
) -> Result<(), AllocError>
    ensures { OnOk result (Marks lookups.now class (listed_if (signal_named (instruction_view instruction.now))) marks.old.items marks.new.items) }
{
    match instruction {
        Instruction::Signal(instruction) => mark_signal(marks, lookups, class, instruction),
        Instruction::Compute { .. }
        | Instruction::Control(_)
        | Instruction::Property(_)
        | Instruction::Object(_)
        | Instruction::Source(_)
        | Instruction::Peer(_) => Ok(()),
    }
}

// Marks the signals of a class that some instructions name.
fn mark_code(
    marks: &mut Vec<bool>,
    lookups: &Lookups<'_>,
    class: TypeId,
    code: &[Instruction],
) -> Result<(), AllocError>
    ensures { OnOk result (Marks lookups.now class (named_in (map instruction_view code.now)) marks.old.items marks.new.items) }
{
    for number in 0..code.len() {
        mark_instruction(marks, lookups, class, &code[number])?;
    }
    Ok(())
}

// Marks the signals of a class that the instructions of some blocks name.
fn mark_blocks(
    marks: &mut Vec<bool>,
    lookups: &Lookups<'_>,
    class: TypeId,
    blocks: &[Block],
) -> Result<(), AllocError>
    ensures { OnOk result (Marks lookups.now class (named_in_blocks (map block_view blocks.now)) marks.old.items marks.new.items) }
{
    for number in 0..blocks.len() {
        let block = &blocks[number];
        mark_code(marks, lookups, class, block.code.as_slice())?;
    }
    Ok(())
}

// Marks the signals of a class that programs name.
fn mark_programs(
    marks: &mut Vec<bool>,
    lookups: &Lookups<'_>,
    class: TypeId,
) -> Result<(), AllocError>
    ensures { OnOk result (Marks lookups.now class (named_signals lookups.now) marks.old.items marks.new.items) }
{
    for number in 0..lookups.most_programs() {
        let Some(program) = lookups.program(number) else {
            return Ok(());
        };
        mark_blocks(marks, lookups, class, program.blocks.as_slice())?;
    }
    Ok(())
}

// Returns for each signal of a class whether the class runs a program for it.
fn handled_by(alloc: Global, lookups: &Lookups<'_>, class: TypeId) -> Result<Vec<bool>, AllocError>
    ensures { IfOk result (λ marks. (n : ℕ) → read false marks.items n ≡ is_handled lookups.now class n) }
{
    let definition = lookups.definition();
    let mut marks = Vec::new(alloc);
    for number in 0..definition.signal_count(class) {
        let handler = definition.class_handler(class, number as SignalId);
        marks.push(handler.is_some())?;
    }
    Ok(marks)
}

// Returns for each signal of a class whether the class runs a program for it, or a program names it.
fn used_by(alloc: Global, lookups: &Lookups<'_>, class: TypeId) -> Result<Vec<bool>, AllocError>
    ensures { IfOk result (λ marks. AreUsed lookups.now class marks.items) }
{
    let mut marks = handled_by(alloc, lookups, class)?;
    mark_programs(&mut marks, lookups, class)?;
    Ok(marks)
}

/// Returns for each type which of its signals are used: those for which it runs a program, and those that a program names.
///
/// # Errors
///
/// `AllocError` if memory is refused.
pub(crate) fn used_signals(
    alloc: Global,
    lookups: &Lookups<'_>,
) -> Result<Vec<Vec<bool>>, AllocError>
    ensures { IfOk result (λ lists. AreUsedOfTypes lookups.now lists.items) }
{
    let mut lists = Vec::new(alloc);
    for number in 0..lookups.types().len().min(MOST_TYPES) {
        let marks = used_by(alloc, lookups, TypeId::new(number as u16))?;
        lists.push(marks)?;
    }
    Ok(lists)
}

/// Returns which signals of a class are used, from the lists of all types where they have it.
///
/// # Errors
///
/// `AllocError` if memory is refused.
pub(crate) fn used_in(
    alloc: Global,
    lookups: &Lookups<'_>,
    lists: &[Vec<bool>],
    class: TypeId,
) -> Result<Vec<bool>, AllocError>
    requires { AreUsedOfTypes lookups.now lists.now }
    ensures { IfOk result (λ marks. AreUsed lookups.now class marks.items) }
{
    if class.index() >= lists.len() {
        return used_by(alloc, lookups, class);
    }
    copy(alloc, lists[class.index()].as_slice())
}

/// Marks the signals of a class for which an object runs programs.
///
/// # Errors
///
/// `AllocError` if memory is refused.
pub(crate) fn mark_attached(
    marks: &mut Vec<bool>,
    lookups: &Lookups<'_>,
    class: TypeId,
    signals: &[Attached],
) -> Result<(), AllocError>
    ensures { OnOk result (Marks lookups.now class (signals_attached (map attached_view signals.now)) marks.old.items marks.new.items) }
{
    for number in 0..signals.len() {
        let attached = &signals[number];
        mark(
            marks,
            lookups.signal_number(class, attached.signal.as_str()),
        )?;
    }
    Ok(())
}
