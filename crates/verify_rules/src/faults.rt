//! Finds the first rule that a definition breaks.

ghost use Rattle.std.specs.Prelude.{◌≡◌, Some, option_map, IfOk, IfSome};
ghost use Rattle.law_judging.specs.FirstFaults.{first_fault};
ghost use Rattle.law_typing.specs.Verdict.Judges.{Judges};
ghost use Rattle.verify_rules.specs.RuleFaults.{fault_view, later_fault};

use crate::{
    BrokenBinding, Handling, SecondPair, Unbalanced, binding_fault, bracket_fault, handler_fault,
    pair_fault,
};
use definitions::Definition;
use std::alloc::{AllocError, Global};
use verify_instructions::{IllTyped, typing_fault};
use verify_operands::Lookups;

/// A rule that a definition breaks, with the part that breaks it.
#[derive(Clone, Copy, Debug, PartialEq, Eq)]
pub enum RuleFault {
    /// An instruction breaks a rule of typing.
    IllTyped(IllTyped),
    /// A program does not take what it is given by a class or an object that names it.
    HandlerSignature(Handling),
    /// A binding does not fit the properties that it binds.
    BindingRule(BrokenBinding),
    /// A binding goes both ways and shares an end with an earlier one.
    SecondPair(SecondPair),
    /// The freezes and thaws of a block do not match.
    Unbalanced(Unbalanced),
}

// Returns the first fault of the rules of bindings, of pairs, and of freezes and thaws.
fn later_fault(alloc: Global, lookups: &Lookups<'_>) -> Result<Option<RuleFault>, AllocError>
    ensures { IfOk result (λ r. option_map fault_view r ≡ later_fault lookups.now) }
{
    if let Some(broken) = binding_fault(lookups) {
        return Ok(Some(RuleFault::BindingRule(broken)));
    }
    if let Some(second) = pair_fault(alloc, lookups)? {
        return Ok(Some(RuleFault::SecondPair(second)));
    }
    match bracket_fault(alloc, lookups)? {
        Some(unbalanced) => Ok(Some(RuleFault::Unbalanced(unbalanced))),
        None => Ok(None),
    }
}

// Returns the first fault of all rules.
fn first_fault(alloc: Global, lookups: &Lookups<'_>) -> Result<Option<RuleFault>, AllocError>
    ensures { IfOk result (λ r. option_map fault_view r ≡ first_fault lookups.now) }
{
    if let Some(fault) = typing_fault(alloc, lookups)? {
        return Ok(Some(RuleFault::IllTyped(fault)));
    }
    if let Some(handling) = handler_fault(alloc, lookups)? {
        return Ok(Some(RuleFault::HandlerSignature(handling)));
    }
    later_fault(alloc, lookups)
}

/// Returns the first rule that a definition breaks, for which it is refused.
///
/// # Errors
///
/// `AllocError` if memory is refused.
pub fn rule_fault(alloc: Global, definition: &Definition) -> Result<Option<RuleFault>, AllocError>
    ensures first { IfOk result (λ r. option_map fault_view r ≡ first_fault definition.now) }
    ensures judged { IfOk result (λ r. IfSome r (λ fault. Judges definition.now (Some (fault_view fault)))) }
{
    let lookups = Lookups::new(alloc, definition)?;
    first_fault(alloc, &lookups)
}
