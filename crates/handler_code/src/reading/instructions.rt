//! Reads one instruction.
//!
//! An instruction is a JSON array with a word and its operands. The contracts have one row for each word, which lists its operands in
//! order.

ghost use Rattle.std.specs.Prelude.{◌≡◌, IfOk, false};
ghost use Rattle.json_trees.specs.View.{view};
ghost use Rattle.bytecode.specs.View.{instruction_view};
ghost use Rattle.bytecode.specs.Known.{HasKnownKinds};
ghost use Rattle.bytecode.specs.Reading.Operands.{Gives};
ghost use Rattle.handler_code.specs.Reading.ReaderViews.{scope_view};
ghost use Rattle.bytecode.specs.Reading.Words.{register_word, object_word, signal_word, source_word, jump_word, instruction_at};

use crate::reading::jump_rows::{read_branch, read_branch_null, read_jump, read_return};
use crate::reading::object_rows::{
    read_adopt, read_dispose, read_freeze, read_get, read_new, read_notify, read_object,
    read_orphan, read_set, read_sink, read_thaw,
};
use crate::reading::operand_words::text_at;
use crate::reading::register_rows::{
    read_and, read_arithmetic, read_clear, read_compare, read_const, read_convert, read_join,
    read_move, read_not, read_or, read_same,
};
use crate::reading::scope::Scope;
use crate::reading::signal_rows::{
    read_block, read_connect, read_disconnect, read_emit, read_stop, read_unbind, read_unblock,
};
use crate::reading::source_rows::{read_call, read_idle, read_remove, read_timeout};
use bytecode::{Arithmetic, Instruction, InstructionError};
use json_trees::Value;
use std::alloc::Global;

/// Reads the instruction that a JSON array denotes.
///
/// Registers and blocks are numbers below those of the scope. Kinds and values are read like those of properties, but the only value of an
/// object kind is null. An enum or flags type that a kind names must exist. All other names are plain texts: it is not checked here whether
/// they name something, or whether the operands have the right kinds.
///
/// The value must be an array whose first entry is a word, with exactly the operands of this word.
///
/// # Errors
///
/// Returns `BadInstruction` if the value denotes no instruction: it is no array, its first entry is no known word, or it has too few or too
/// many operands or one of the wrong sort. Returns `OutOfMemory` if a name, a text or a list can't be allocated.
#[tactic(auto, unfolding(bytecode::specs::Reading::Words::instruction_at))]
pub fn read_instruction(
    alloc: Global,
    scope: &Scope<'_>,
    json: &Value,
) -> Result<Instruction, InstructionError>
    ensures read { Gives instruction_view result (instruction_at (scope_view scope.now) (view json.now)) }
    ensures known { IfOk result (λ i. HasKnownKinds scope.now.types.now i) }
{
    let word = text_at(json, 0)?;
    read_register_word(alloc, scope, word, json)
}

// Reads an instruction that only uses registers, and otherwise tries the words for properties and objects.
#[tactic(auto, unfolding(bytecode::specs::Reading::Words::register_word))]
fn read_register_word(
    alloc: Global,
    scope: &Scope<'_>,
    word: &str,
    json: &Value,
) -> Result<Instruction, InstructionError>
    ensures read { Gives instruction_view result (register_word (scope_view scope.now) word.now (view json.now)) }
    ensures known { IfOk result (λ i. HasKnownKinds scope.now.types.now i) }
{
    if word == "const" {
        return read_const(alloc, scope, json);
    }
    if word == "move" {
        return read_move(scope, json);
    }
    if word == "clear" {
        return read_clear(scope, json);
    }
    if word == "add" {
        return read_arithmetic(Arithmetic::Add, scope, json);
    }
    if word == "sub" {
        return read_arithmetic(Arithmetic::Sub, scope, json);
    }
    if word == "mul" {
        return read_arithmetic(Arithmetic::Mul, scope, json);
    }
    if word == "cmp" {
        return read_compare(scope, json);
    }
    if word == "same" {
        return read_same(scope, json);
    }
    if word == "not" {
        return read_not(scope, json);
    }
    if word == "and" {
        return read_and(scope, json);
    }
    if word == "or" {
        return read_or(scope, json);
    }
    if word == "join" {
        return read_join(scope, json);
    }
    if word == "convert" {
        return read_convert(scope, json);
    }
    read_object_word(alloc, scope, word, json)
}

// Reads an instruction on properties or objects, and otherwise tries the words for signals, handlers and bindings.
#[tactic(auto, unfolding(bytecode::specs::Reading::Words::object_word))]
fn read_object_word(
    alloc: Global,
    scope: &Scope<'_>,
    word: &str,
    json: &Value,
) -> Result<Instruction, InstructionError>
    ensures read { Gives instruction_view result (object_word (scope_view scope.now) word.now (view json.now)) }
    ensures known { IfOk result (λ i. HasKnownKinds scope.now.types.now i) }
{
    if word == "get" {
        return read_get(alloc, scope, json);
    }
    if word == "set" {
        return read_set(alloc, scope, json);
    }
    if word == "object" {
        return read_object(alloc, scope, json);
    }
    if word == "new" {
        return read_new(alloc, scope, json);
    }
    if word == "sink" {
        return read_sink(scope, json);
    }
    if word == "orphan" {
        return read_orphan(scope, json);
    }
    if word == "dispose" {
        return read_dispose(scope, json);
    }
    if word == "adopt" {
        return read_adopt(scope, json);
    }
    if word == "freeze" {
        return read_freeze(scope, json);
    }
    if word == "thaw" {
        return read_thaw(scope, json);
    }
    if word == "notify" {
        return read_notify(alloc, scope, json);
    }
    read_signal_word(alloc, scope, word, json)
}

// Reads an instruction on signals, handlers or bindings, and otherwise tries the words for sources and peers.
#[tactic(auto, unfolding(bytecode::specs::Reading::Words::signal_word))]
fn read_signal_word(
    alloc: Global,
    scope: &Scope<'_>,
    word: &str,
    json: &Value,
) -> Result<Instruction, InstructionError>
    ensures read { Gives instruction_view result (signal_word (scope_view scope.now) word.now (view json.now)) }
    ensures known { IfOk result (λ i. HasKnownKinds scope.now.types.now i) }
{
    if word == "emit" {
        return read_emit(alloc, scope, json);
    }
    if word == "connect" {
        return read_connect(alloc, scope, json);
    }
    if word == "disconnect" {
        return read_disconnect(alloc, scope, json);
    }
    if word == "block" {
        return read_block(alloc, scope, json);
    }
    if word == "unblock" {
        return read_unblock(alloc, scope, json);
    }
    if word == "stop" {
        return read_stop(scope, json);
    }
    if word == "unbind" {
        return read_unbind(alloc, scope, json);
    }
    read_source_word(alloc, scope, word, json)
}

// Reads an instruction on sources or peers, and otherwise tries the words that end a block.
#[tactic(auto, unfolding(bytecode::specs::Reading::Words::source_word))]
fn read_source_word(
    alloc: Global,
    scope: &Scope<'_>,
    word: &str,
    json: &Value,
) -> Result<Instruction, InstructionError>
    ensures read { Gives instruction_view result (source_word (scope_view scope.now) word.now (view json.now)) }
    ensures known { IfOk result (λ i. HasKnownKinds scope.now.types.now i) }
{
    if word == "idle" {
        return read_idle(alloc, scope, json);
    }
    if word == "timeout" {
        return read_timeout(alloc, scope, json);
    }
    if word == "remove" {
        return read_remove(alloc, scope, json);
    }
    if word == "call" {
        return read_call(alloc, scope, json);
    }
    read_jump_word(scope, word, json)
}

// Reads an instruction that ends a block. Refuses any other word.
#[tactic(auto, unfolding(bytecode::specs::Reading::Words::jump_word))]
fn read_jump_word(
    scope: &Scope<'_>,
    word: &str,
    json: &Value,
) -> Result<Instruction, InstructionError>
    ensures read { Gives instruction_view result (jump_word (scope_view scope.now) word.now (view json.now)) }
    ensures known { IfOk result (λ i. HasKnownKinds scope.now.types.now i) }
{
    if word == "jump" {
        return read_jump(scope, json);
    }
    if word == "if" {
        return read_branch(scope, json);
    }
    if word == "ifnull" {
        return read_branch_null(scope, json);
    }
    if word == "return" {
        return read_return(scope, json);
    }
    Err(InstructionError::BadInstruction)
}
