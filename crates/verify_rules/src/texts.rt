//! Writes the texts of refusals.

ghost use Rattle.std.specs.Prelude.{◌≡◌, string_bytes, IfOk};
ghost use Rattle.law_typing.specs.Verdict.FaultText.{block_text, fault_text, program_text, then_text, word_of_binding, word_of_rule};
ghost use Rattle.verify_operands.specs.Views.{rule_view};
ghost use Rattle.verify_instructions.specs.Faults as typing;
ghost use Rattle.verify_rules.specs.Faults.{broken_fault, word_view};
ghost use Rattle.verify_rules.specs.RuleFaults.{fault_view};

use crate::faults::RuleFault;
use crate::paths::{binding_path, handling_path};
use crate::{BindingRule, BrokenBinding};
use bytecode::BlockNumber;
use definitions::Definition;
use std::alloc::{AllocError, Global};
use ui_machine::ProgramId;
use verify_instructions::IllTyped;
use verify_operands::Rule;

// Returns the word for a rule of typing.
fn word_of_rule(rule: Rule) -> &'static str
    ensures { result.now ≡ word_of_rule (rule_view rule) }
{
    match rule {
        Rule::Unset => "unset",
        Rule::Kind => "kind",
        Rule::Null => "null",
        Rule::Unknown => "unknown",
        Rule::Flags => "flags",
        Rule::ConstructOnly => "construct-only",
        Rule::Detail => "detail",
        Rule::Signature => "signature",
        Rule::Result => "result",
        Rule::Block => "block",
    }
}

// Returns the word for a rule of bindings.
fn word_of_binding(rule: BindingRule) -> &'static str
    ensures { result.now ≡ word_of_binding (word_view rule) }
{
    match rule {
        BindingRule::Same => "same",
        BindingRule::Readable => "readable",
        BindingRule::Writable => "writable",
        BindingRule::ConstructOnly => "construct-only",
        BindingRule::Kinds => "kinds",
        BindingRule::Invert => "invert",
    }
}

// Joins two texts with a blank between them.
fn then_text(alloc: Global, text: &str, more: &str) -> Result<String, AllocError>
    ensures { IfOk result (λ whole. string_bytes whole ≡ then_text text.now more.now) }
{
    format!(in alloc; "{text} {more}")
}

// Returns the name of a program.
fn program_text(definition: &Definition, program: ProgramId) -> &str
    ensures { result.now ≡ program_text definition.now program }
{
    match definition.program(program) {
        Some(program) => program.name.as_str(),
        None => "",
    }
}

// Returns the name of a program and the number of a block.
fn block_text(
    alloc: Global,
    definition: &Definition,
    program: ProgramId,
    block: BlockNumber,
) -> Result<String, AllocError>
    ensures { IfOk result (λ text. string_bytes text ≡ block_text definition.now program block.0) }
{
    let name = program_text(definition, program);
    let number = block.0;
    format!(in alloc; "{name} {number}")
}

// Returns the text for an instruction that breaks a rule.
fn ill_typed_text(
    alloc: Global,
    definition: &Definition,
    fault: IllTyped,
) -> Result<String, AllocError>
    ensures { IfOk result (λ text. string_bytes text ≡ fault_text definition.now (typing.fault_view fault)) }
{
    let block = block_text(alloc, definition, fault.program, fault.block)?;
    let at = fault.at;
    let number = format!(in alloc; "{at}")?;
    let rule = then_text(alloc, number.as_str(), word_of_rule(fault.rule))?;
    let place = then_text(alloc, block.as_str(), rule.as_str())?;
    then_text(alloc, "IllTyped", place.as_str())
}

// Returns the text for a binding that breaks a rule.
fn broken_text(
    alloc: Global,
    definition: &Definition,
    broken: BrokenBinding,
) -> Result<String, AllocError>
    ensures { IfOk result (λ text. string_bytes text ≡ fault_text definition.now (broken_fault broken)) }
{
    let path = binding_path(alloc, definition, broken.binding)?;
    let fields = then_text(alloc, path.as_str(), word_of_binding(broken.rule))?;
    then_text(alloc, "BindingRule", fields.as_str())
}

/// Returns the fault's name and fields, separated by single blanks, which are written after `refused: `.
///
/// # Errors
///
/// `AllocError` if memory is refused.
pub fn fault_text(
    alloc: Global,
    definition: &Definition,
    fault: &RuleFault,
) -> Result<String, AllocError>
    ensures { IfOk result (λ text. string_bytes text ≡ fault_text definition.now (fault_view fault.now)) }
{
    match *fault {
        RuleFault::IllTyped(fault) => ill_typed_text(alloc, definition, fault),
        RuleFault::HandlerSignature(handling) => {
            let path = handling_path(alloc, definition, handling)?;
            then_text(alloc, "HandlerSignature", path.as_str())
        }
        RuleFault::BindingRule(broken) => broken_text(alloc, definition, broken),
        RuleFault::SecondPair(second) => {
            let path = binding_path(alloc, definition, second.binding)?;
            then_text(alloc, "SecondPair", path.as_str())
        }
        RuleFault::Unbalanced(unbalanced) => {
            let block = block_text(alloc, definition, unbalanced.program, unbalanced.block)?;
            then_text(alloc, "Unbalanced", block.as_str())
        }
    }
}
