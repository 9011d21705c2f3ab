//! Finds the programs that instructions make sources of.

ghost use Rattle.std.specs.Prelude.{◌≡◌, ◌++◌, ◌∷◌, [], cond, map, nat_eq, IfOk, OnOk};
ghost use Rattle.std.specs.List.{list_any};
ghost use Rattle.ui_machine.specs.Definition.Programs as machine;
ghost use Rattle.bytecode.specs.View.{block_view, instruction_view};
ghost use Rattle.law_typing.specs.Graph.{listed_if, source_named, sources_of};
ghost use Rattle.law_typing.specs.Rules.Sites.{sites};
ghost use Rattle.ui_verifier.specs.NamedSources.{named_in, named_in_blocks, named_in_programs};

use bytecode::{Block, Instruction, SourceInstruction};
use std::alloc::{AllocError, Global};
use ui_machine::ProgramId;
use verify_operands::Lookups;

// Returns the program that an instruction makes a source of.
fn source_named(lookups: &Lookups<'_>, instruction: &Instruction) -> Option<ProgramId>
    ensures { result ≡ source_named lookups.now (instruction_view instruction.now) }
{
    let Instruction::Source(source) = instruction else {
        return None;
    };
    match source {
        SourceInstruction::Idle { program, .. } => lookups.program_number(program.as_str()),
        SourceInstruction::Timeout { program, .. } => lookups.program_number(program.as_str()),
        SourceInstruction::Unbind(_) | SourceInstruction::Remove(_) => None,
    }
}

// Adds the program that an instruction makes a source of, if it makes one.
fn add_source(
    named: &mut Vec<ProgramId>,
    lookups: &Lookups<'_>,
    instruction: &Instruction,
) -> Result<(), AllocError>
    ensures { OnOk result (named.new.items ≡ named.old.items ++ listed_if (source_named lookups.now (instruction_view instruction.now))) }
{
    if let Some(program) = source_named(lookups, instruction) {
        named.push(program)?;
    }
    Ok(())
}

// Adds the programs that some instructions make sources of.
fn add_code(
    named: &mut Vec<ProgramId>,
    lookups: &Lookups<'_>,
    code: &[Instruction],
) -> Result<(), AllocError>
    ensures { OnOk result (named.new.items ≡ named.old.items ++ named_in lookups.now (map instruction_view code.now)) }
{
    for number in 0..code.len() {
        add_source(named, lookups, &code[number])?;
    }
    Ok(())
}

// Adds the programs that the instructions of some blocks make sources of.
fn add_blocks(
    named: &mut Vec<ProgramId>,
    lookups: &Lookups<'_>,
    blocks: &[Block],
) -> Result<(), AllocError>
    ensures { OnOk result (named.new.items ≡ named.old.items ++ named_in_blocks lookups.now (map block_view blocks.now)) }
{
    for number in 0..blocks.len() {
        let block = &blocks[number];
        add_code(named, lookups, block.code.as_slice())?;
    }
    Ok(())
}

// Returns the programs that the instructions of all programs make sources of. One may come twice.
fn named_sources(alloc: Global, lookups: &Lookups<'_>) -> Result<Vec<ProgramId>, AllocError>
    ensures { IfOk result (λ named. named.items ≡ named_in_programs lookups.now lookups.now.programs) }
{
    let mut named = Vec::new(alloc);
    for number in 0..lookups.most_programs() {
        let Some(program) = lookups.program(number) else {
            return Ok(named);
        };
        add_blocks(&mut named, lookups, program.blocks.as_slice())?;
    }
    Ok(named)
}

// Returns whether a program is one of these.
fn is_named(named: &[ProgramId], program: ProgramId) -> bool
    ensures { result ≡ list_any (λ m. nat_eq m program) named.now }
{
    named.iter().any(|other| *other == program)
}

// Adds a program if it is that of a source.
fn add_if(
    programs: &mut Vec<ProgramId>,
    is_source: bool,
    number: ProgramId,
) -> Result<(), AllocError>
    ensures { OnOk result (programs.new.items ≡ programs.old.items ++ cond is_source (number ∷ []) []) }
{
    if is_source {
        programs.push(number)?;
    }
    Ok(())
}

/// Returns the programs that any instruction makes sources of, in document order.
///
/// # Errors
///
/// `AllocError` if memory is refused.
pub fn source_programs(alloc: Global, lookups: &Lookups<'_>) -> Result<Vec<ProgramId>, AllocError>
    ensures { IfOk result (λ programs. programs.items ≡ sources_of lookups.now (sites lookups.now) 0 lookups.now.programs) }
{
    let named = named_sources(alloc, lookups)?;
    let mut programs = Vec::new(alloc);
    for number in 0..lookups.most_programs() {
        let Some(_program) = lookups.program(number) else {
            return Ok(programs);
        };
        let is_source = is_named(named.as_slice(), number);
        add_if(&mut programs, is_source, number)?;
    }
    Ok(programs)
}
