//! Types instructions that end a block.

ghost use Rattle.std.specs.Prelude.{◌≡◌, option_map};
ghost use Rattle.g_values.specs.View.{kind_view};
ghost use Rattle.bytecode.specs.View.{control_view, number_of, program_view, register_kind_view};
ghost use Rattle.ui_machine.specs.Seq.{write};
ghost use Rattle.ui_machine.specs.Definition.Kinds as kind_words;
ghost use Rattle.law_typing.specs.Rules.Typing.{branching, branching_null, entering, is_result, returning, typed};
ghost use Rattle.verify_operands.specs.Views.{Leaves, Passes, kinds_of};

use bytecode::{BlockNumber, ControlInstruction, Program, Register, RegisterKind};
use g_values::Kind;
use std::alloc::Global;
use verify_operands::fits::{fits_plain, kinds_fit};
use verify_operands::kinds::{never_null, with_register};
use verify_operands::operands::{bool_in, nullable_in, set_in};
use verify_operands::{Lookups, Rule, TypingError, Written};

// Checks that the registers fit the kinds with which a block begins.
#[tactic(auto, unfolding(law_typing::specs::Rules::Typing::entering))]
fn enter(
    lookups: &Lookups<'_>,
    program: &Program,
    kinds: &[RegisterKind],
    to: BlockNumber,
) -> Result<(), Rule>
    ensures { Passes (kinds_of kinds.now) result (entering lookups.now (program_view program.now) (kinds_of kinds.now) to.0) }
{
    let Some(block) = program.block(to) else {
        return Err(Rule::Block);
    };
    if !kinds_fit(lookups, kinds, block.entry.as_slice()) {
        return Err(Rule::Block);
    }
    Ok(())
}

// Types `jump b`.
fn jumped(
    lookups: &Lookups<'_>,
    program: &Program,
    kinds: &[RegisterKind],
    to: BlockNumber,
) -> Result<Option<Written>, TypingError>
    ensures { Leaves (kinds_of kinds.now) result (entering lookups.now (program_view program.now) (kinds_of kinds.now) to.0) }
{
    enter(lookups, program, kinds, to)?;
    Ok(None)
}

// Types `if a b b`.
#[tactic(auto, unfolding(law_typing::specs::Rules::Typing::branching))]
fn branched(
    lookups: &Lookups<'_>,
    program: &Program,
    kinds: &[RegisterKind],
    on: Register,
    then_to: BlockNumber,
    else_to: BlockNumber,
) -> Result<Option<Written>, TypingError>
    ensures { Leaves (kinds_of kinds.now) result (branching lookups.now (program_view program.now) (kinds_of kinds.now) on.0 then_to.0 else_to.0) }
{
    bool_in(kinds, on)?;
    enter(lookups, program, kinds, then_to)?;
    enter(lookups, program, kinds, else_to)?;
    Ok(None)
}

// Types `ifnull a b b`. An object in the register is not null in the second block.
#[tactic(auto, unfolding(law_typing::specs::Rules::Typing::branching_null))]
fn branched_null(
    alloc: Global,
    lookups: &Lookups<'_>,
    program: &Program,
    kinds: &[RegisterKind],
    on: Register,
    then_to: BlockNumber,
    else_to: BlockNumber,
) -> Result<Option<Written>, TypingError>
    ensures { Leaves (kinds_of kinds.now) result (branching_null lookups.now (program_view program.now) (kinds_of kinds.now) on.0 then_to.0 else_to.0) }
{
    let kind = nullable_in(lookups, kinds, on)?;
    enter(lookups, program, kinds, then_to)?;
    let kind = never_null(kind);
    let not_null = with_register(alloc, kinds, on, &kind)?;
    enter(lookups, program, not_null.as_slice(), else_to)?;
    Ok(Some(Written { to: on, kind }))
}

// Returns whether a kind fits the result of a program. It does not if the program has none.
fn is_result(lookups: &Lookups<'_>, kind: &RegisterKind, wanted: Option<Kind>) -> bool
    ensures { result ≡ is_result lookups.now (register_kind_view kind.now) (option_map kind_view wanted) }
{
    match wanted {
        Some(wanted) => fits_plain(lookups, kind, &wanted),
        None => false,
    }
}

// Types `return z`.
#[tactic(auto, unfolding(law_typing::specs::Rules::Typing::returning))]
fn returned(
    lookups: &Lookups<'_>,
    program: &Program,
    kinds: &[RegisterKind],
    from: Option<Register>,
) -> Result<Option<Written>, TypingError>
    ensures { Leaves (kinds_of kinds.now) result (returning lookups.now (program_view program.now) (kinds_of kinds.now) (option_map number_of from)) }
{
    let Some(from) = from else {
        if program.result.is_some() {
            return Err(TypingError::Broken(Rule::Result));
        }
        return Ok(None);
    };
    let kind = set_in(kinds, from)?;
    if !is_result(lookups, &kind, program.result) {
        return Err(TypingError::Broken(Rule::Result));
    }
    Ok(None)
}

/// Types an instruction that ends a block. Returns the register that it writes, or the first rule that it breaks.
pub(crate) fn typed(
    alloc: Global,
    lookups: &Lookups<'_>,
    program: &Program,
    kinds: &[RegisterKind],
    instruction: &ControlInstruction,
) -> Result<Option<Written>, TypingError>
    ensures { Leaves (kinds_of kinds.now) result (typed lookups.now (program_view program.now) (kinds_of kinds.now) (control_view instruction.now)) }
{
    match instruction {
        ControlInstruction::Jump(to) => jumped(lookups, program, kinds, *to),
        ControlInstruction::Branch {
            on,
            then_to,
            else_to,
        } => branched(lookups, program, kinds, *on, *then_to, *else_to),
        ControlInstruction::BranchNull {
            on,
            then_to,
            else_to,
        } => branched_null(alloc, lookups, program, kinds, *on, *then_to, *else_to),
        ControlInstruction::Return(from) => returned(lookups, program, kinds, *from),
    }
}
