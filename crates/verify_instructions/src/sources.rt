//! Types instructions on bindings and sources.

ghost use Rattle.std.specs.Prelude.{◌≡◌, option_map};
ghost use Rattle.bytecode.specs.View.{number_of, source_instruction_view};
ghost use Rattle.ui_machine.specs.Definition.Programs as words;
ghost use Rattle.law_typing.specs.Rules.Typing.{attaching, changing_none, program_named, typed, unbinding};
ghost use Rattle.verify_operands.specs.Views.{Leaves, kinds_of};

use crate::signatures::{given_data, program_named, takes};
use bytecode::{Register, RegisterKind, SourceInstruction};
use g_values::Kind;
use std::alloc::Global;
use verify_operands::operands::data_in;
use verify_operands::{Lookups, Rule, TypingError, Written};

// Types `unbind name`.
fn unbound(
    lookups: &Lookups<'_>,
    kinds: &[RegisterKind],
    name: &str,
) -> Result<Option<Written>, TypingError>
    ensures { Leaves (kinds_of kinds.now) result (unbinding lookups.now (kinds_of kinds.now) name.now) }
{
    if !lookups.has_binding(name) {
        return Err(TypingError::Broken(Rule::Unknown));
    }
    Ok(None)
}

// Types `idle` and `timeout`. The program takes the data, if there is some, and returns whether the source is kept.
#[tactic(auto, unfolding(law_typing::specs::Rules::Typing::attaching))]
fn attached(
    alloc: Global,
    lookups: &Lookups<'_>,
    kinds: &[RegisterKind],
    to: Register,
    program: &str,
    with: Option<Register>,
) -> Result<Option<Written>, TypingError>
    ensures { Leaves (kinds_of kinds.now) result (attaching lookups.now (kinds_of kinds.now) to.0 program.now (option_map number_of with)) }
{
    let program = program_named(lookups, program)?;
    let with = data_in(lookups, kinds, with)?;
    let given = given_data(alloc, with.as_ref())?;
    if !takes(lookups, program, given.as_slice(), Some(Kind::Bool)) {
        return Err(TypingError::Broken(Rule::Signature));
    }
    Ok(Some(Written::truth(to)))
}

// Types `remove p`.
#[tactic(auto, unfolding(law_typing::specs::Rules::Typing::changing_none))]
fn removed(
    lookups: &Lookups<'_>,
    kinds: &[RegisterKind],
    program: &str,
) -> Result<Option<Written>, TypingError>
    ensures { Leaves (kinds_of kinds.now) result (changing_none (kinds_of kinds.now) (program_named lookups.now program.now)) }
{
    program_named(lookups, program)?;
    Ok(None)
}

/// Types an instruction on bindings or sources. Returns the register that it writes, or the first rule that it breaks.
pub(crate) fn typed(
    alloc: Global,
    lookups: &Lookups<'_>,
    kinds: &[RegisterKind],
    instruction: &SourceInstruction,
) -> Result<Option<Written>, TypingError>
    ensures { (p : words.Program) → Leaves (kinds_of kinds.now) result (typed lookups.now p (kinds_of kinds.now) (source_instruction_view instruction.now)) }
{
    match instruction {
        SourceInstruction::Unbind(name) => unbound(lookups, kinds, name.as_str()),
        SourceInstruction::Idle {
            to,
            program,
            with,
            ..
        } => attached(alloc, lookups, kinds, *to, program.as_str(), *with),
        SourceInstruction::Timeout {
            to,
            program,
            with,
            ..
        } => attached(alloc, lookups, kinds, *to, program.as_str(), *with),
        SourceInstruction::Remove(program) => removed(lookups, kinds, program.as_str()),
    }
}
