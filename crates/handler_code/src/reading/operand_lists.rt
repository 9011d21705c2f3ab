//! Readers for operands that are lists, of registers or of options.

ghost use Rattle.std.specs.Prelude.{◌≡◌, ◌||◌, map};
ghost use Rattle.std.specs.List.{list_any, list_all};
ghost use Rattle.json_trees.specs.View.{view, items_view};
ghost use Rattle.serde_json.specs.Find.{as_str};
ghost use Rattle.bytecode.specs.View.{number_of};
ghost use Rattle.bytecode.specs.Reading.Operands.{Gives, expected, items_at, registers_of, registers_at, is_word, has_word, is_option, are_options, options_of, options_at};
ghost use Rattle.handler_code.specs.Reading.ReaderViews.{options_view};

use crate::reading::operand_words::{number_below, operand};
use bytecode::{InstructionError, Register};
use json_trees::Value;
use std::alloc::Global;

/// The options that a `connect` instruction may have.
#[derive(Clone, Copy)]
pub(crate) struct ConnectOptions {
    pub(crate) after: bool,
    pub(crate) swapped: bool,
}

// Returns the entries of the list at entry `at`. Refuses any other operand.
fn items_at(json: &Value, at: usize) -> Result<&[Value], InstructionError>
    ensures { Gives (λ v. items_view v.now) result (items_at (view json.now) at) }
{
    match operand(json, at)?.as_array() {
        Some(items) => Ok(items.as_slice()),
        None => Err(InstructionError::BadInstruction),
    }
}

// Reads a list of registers, each below `registers`.
fn registers_in(
    alloc: Global,
    items: &[Value],
    registers: usize,
) -> Result<Vec<Register>, InstructionError>
    ensures { Gives (λ v. map number_of v.items) result (expected (registers_of registers (items_view items.now))) }
{
    let mut read = Vec::new(alloc);
    for item in items {
        let Some(number) = number_below(item, registers) else {
            return Err(InstructionError::BadInstruction);
        };
        read.push(Register(number))?;
    }
    Ok(read)
}

// Reads the list of registers at entry `at`, each below `registers`.
pub(crate) fn registers_at(
    alloc: Global,
    json: &Value,
    at: usize,
    registers: usize,
) -> Result<Vec<Register>, InstructionError>
    ensures { Gives (λ v. map number_of v.items) result (registers_at registers (view json.now) at) }
{
    let items = items_at(json, at)?;
    let read = registers_in(alloc, items, registers)?;
    Ok(read)
}

// Returns whether a value is the string `word`.
fn is_word(value: &Value, word: &str) -> bool
    ensures { result ≡ is_word word.now (as_str (view value.now)) }
{
    match value.as_str() {
        Some(text) => text == word,
        None => false,
    }
}

fn is_option(value: &Value) -> bool
    ensures { result ≡ is_option (view value.now) }
{
    is_word(value, "after") || is_word(value, "swapped")
}

fn any_word(items: &[Value], word: &str) -> bool
    ensures { result ≡ list_any (λ v. is_word word.now (as_str (view v))) items.now }
{
    items.iter().any(|item| is_word(item, word))
}

fn all_options(items: &[Value]) -> bool
    ensures { result ≡ list_all (λ v. is_option (view v)) items.now }
{
    items.iter().all(|item| is_option(item))
}

// Returns whether `word` is in a list.
#[tactic(auto, using(crate::proofs::OperandLists::word_listed))]
fn has_word(items: &[Value], word: &str) -> bool
    ensures { result ≡ has_word word.now (items_view items.now) }
{
    any_word(items, word)
}

// Returns whether each entry of a list is an option, `after` or `swapped`.
#[tactic(auto, using(crate::proofs::OperandLists::options_listed))]
fn are_options(items: &[Value]) -> bool
    ensures { result ≡ are_options (items_view items.now) }
{
    all_options(items)
}

// Reads the options from a list, where each entry must be an option and may come twice.
fn options_in(items: &[Value]) -> Result<ConnectOptions, InstructionError>
    ensures { Gives options_view result (options_of (items_view items.now)) }
{
    if !are_options(items) {
        return Err(InstructionError::BadInstruction);
    }
    let after = has_word(items, "after");
    let swapped = has_word(items, "swapped");
    Ok(ConnectOptions { after, swapped })
}

// Reads the list of options at entry `at`.
pub(crate) fn options_at(json: &Value, at: usize) -> Result<ConnectOptions, InstructionError>
    ensures { Gives options_view result (options_at (view json.now) at) }
{
    let items = items_at(json, at)?;
    let options = options_in(items)?;
    Ok(options)
}
