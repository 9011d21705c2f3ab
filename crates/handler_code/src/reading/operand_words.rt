//! Readers for single operands of instructions. Entry 0 of an instruction is its word.

ghost use Rattle.std.specs.Prelude.{◌≡◌, ◌<◌, ◌≤ℤ◌, option_map, IfOk, IfSome, string_bytes};
ghost use Rattle.std.specs.Rc.{rc_str_bytes};
ghost use Rattle.std.specs.List.{list_all};
ghost use Rattle.json_trees.specs.View.{view};
ghost use Rattle.serde_json.specs.Find.{as_str};
ghost use Rattle.type_tree.specs.TypeName.{is_within};
ghost use Rattle.g_values.specs.View.{kind_view, value_view, value_kind, IsKnown};
ghost use Rattle.g_values.specs.Reading.{whole_number};
ghost use Rattle.bytecode.specs.View.{number_of};
ghost use Rattle.bytecode.specs.Reading.Operands.{Gives, operand, no_operand, number_below, number_at, register_or_null, register_or_null_at, between, priority_at, interval_at, name_at, is_name_byte, is_name, named, detail_or_null, detail_at, kind_at, value_at};

use crate::reading::kind_words::kind_of_word;
use bytecode::{BlockNumber, InstructionError, Register};
use g_values::{JsonError, Kind};
use json_trees::{Value, from_json};
use std::alloc::Global;
use std::rc::RcStr;
use type_tree::TypeTree;

// Returns entry `at` of an instruction. Refuses the instruction if it has no such entry.
pub(crate) fn operand(json: &Value, at: usize) -> Result<&Value, InstructionError>
    ensures { Gives (λ v. view v.now) result (operand (view json.now) at) }
{
    match json.item(at) {
        Some(operand) => Ok(operand),
        None => Err(InstructionError::BadInstruction),
    }
}

// Refuses an instruction that has an entry `at`.
pub(crate) fn check_none(json: &Value, at: usize) -> Result<(), InstructionError>
    ensures { Gives (λ _. tt) result (no_operand (view json.now) at) }
{
    match json.item(at) {
        Some(_) => Err(InstructionError::BadInstruction),
        None => Ok(()),
    }
}

// Returns the whole number in a value if it is below `bound`.
pub(crate) fn number_below(value: &Value, bound: usize) -> Option<usize>
    ensures number { result ≡ number_below bound (view value.now) }
    ensures below { IfSome result (λ n. n < bound) }
{
    let number = value.as_u64()? as usize;
    if number < bound { Some(number) } else { None }
}

// Reads the register at entry `at`, which must be below `registers`.
pub(crate) fn register_at(
    json: &Value,
    at: usize,
    registers: usize,
) -> Result<Register, InstructionError>
    ensures { Gives number_of result (number_at registers (view json.now) at) }
{
    match number_below(operand(json, at)?, registers) {
        Some(number) => Ok(Register(number)),
        None => Err(InstructionError::BadInstruction),
    }
}

// Reads the block at entry `at`, which must be below `blocks`.
pub(crate) fn block_at(
    json: &Value,
    at: usize,
    blocks: usize,
) -> Result<BlockNumber, InstructionError>
    ensures { Gives (λ b. b.0) result (number_at blocks (view json.now) at) }
{
    match number_below(operand(json, at)?, blocks) {
        Some(number) => Ok(BlockNumber(number)),
        None => Err(InstructionError::BadInstruction),
    }
}

// Returns the register in a value, or `Some(None)` for null. Returns `None` if the value is neither.
fn register_or_null(value: &Value, registers: usize) -> Option<Option<Register>>
    ensures { option_map (option_map number_of) result ≡ register_or_null registers (view value.now) }
{
    if value.is_null() {
        return Some(None);
    }
    let number = number_below(value, registers)?;
    Some(Some(Register(number)))
}

// Reads the register at entry `at`, or null.
pub(crate) fn register_or_null_at(
    json: &Value,
    at: usize,
    registers: usize,
) -> Result<Option<Register>, InstructionError>
    ensures { Gives (option_map number_of) result (register_or_null_at registers (view json.now) at) }
{
    match register_or_null(operand(json, at)?, registers) {
        Some(register) => Ok(register),
        None => Err(InstructionError::BadInstruction),
    }
}

// Returns the whole number in a value if it is from `low` to `high`, both included.
fn number_between(value: &Value, low: i128, high: i128) -> Option<i128>
    ensures number { result ≡ between low high (whole_number (view value.now)) }
    ensures low { IfSome result (λ n. low ≤ℤ n) }
    ensures high { IfSome result (λ n. n ≤ℤ high) }
{
    let number = value.as_number()?.as_i128()?;
    if number < low || number > high {
        return None;
    }
    Some(number)
}

// Reads the priority at entry `at`, a signed number of 32 bits.
pub(crate) fn priority_at(json: &Value, at: usize) -> Result<i32, InstructionError>
    ensures { Gives (λ n. n) result (priority_at (view json.now) at) }
{
    match number_between(
        operand(json, at)?,
        i128::from(i32::MIN),
        i128::from(i32::MAX),
    ) {
        Some(number) => Ok(number as i32),
        None => Err(InstructionError::BadInstruction),
    }
}

// Reads the interval at entry `at`, in milliseconds. It is below 2^32.
pub(crate) fn interval_at(json: &Value, at: usize) -> Result<u32, InstructionError>
    ensures { Gives (λ n. n) result (interval_at (view json.now) at) }
{
    match number_below(operand(json, at)?, 4_294_967_296) {
        Some(number) => Ok(number as u32),
        None => Err(InstructionError::BadInstruction),
    }
}

// Returns the string at entry `at`.
pub(crate) fn text_at(json: &Value, at: usize) -> Result<&str, InstructionError>
    ensures { Gives (λ s. s.now) result (name_at (view json.now) at) }
{
    match operand(json, at)?.as_str() {
        Some(text) => Ok(text),
        None => Err(InstructionError::BadInstruction),
    }
}

// Reads the name at entry `at`, which may be any string.
pub(crate) fn name_at(alloc: Global, json: &Value, at: usize) -> Result<String, InstructionError>
    ensures { Gives string_bytes result (name_at (view json.now) at) }
{
    let text = text_at(json, at)?;
    let name = String::from_str(alloc, text)?;
    Ok(name)
}

// Returns whether a byte is an ASCII letter, a digit, `-` or `_`.
fn is_name_byte(byte: u8) -> bool
    ensures { result ≡ is_name_byte byte }
{
    matches!(byte, b'a'..=b'z' | b'A'..=b'Z' | b'0'..=b'9') || byte == b'-' || byte == b'_'
}

// Returns whether all bytes of a text may be in a name.
fn are_name_bytes(name: &str) -> bool
    ensures { result ≡ list_all is_name_byte name.now }
{
    name.as_bytes().iter().all(|byte| is_name_byte(*byte))
}

// Returns whether a name may have this many bytes, which is 1 to 64.
fn is_name_length(bytes: usize) -> bool
    ensures { result ≡ is_within 1 64 bytes }
{
    1 <= bytes && bytes <= 64
}

// Returns whether a text may be a detail, an id or the name of a program.
pub(crate) fn is_name(name: &str) -> bool
    ensures { result ≡ is_name name.now }
{
    is_name_length(name.len()) && are_name_bytes(name)
}

// Returns the name in a value, or `None` if the value is no string or not a name.
pub(crate) fn name_in(value: &Value) -> Option<&str>
    ensures { option_map (λ s. s.now) result ≡ named (as_str (view value.now)) }
{
    let name = value.as_str()?;
    if is_name(name) { Some(name) } else { None }
}

// Returns the detail in a value, or `Some(None)` for null. Returns `None` if the value is neither.
fn detail_or_null(value: &Value) -> Option<Option<&str>>
    ensures { option_map (option_map (λ s. s.now)) result ≡ detail_or_null (view value.now) }
{
    if value.is_null() {
        return Some(None);
    }
    let name = name_in(value)?;
    Some(Some(name))
}

// Returns the text of the detail at entry `at`, or `None` for null.
fn detail_text_at(json: &Value, at: usize) -> Result<Option<&str>, InstructionError>
    ensures { Gives (option_map (λ s. s.now)) result (detail_at (view json.now) at) }
{
    match detail_or_null(operand(json, at)?) {
        Some(detail) => Ok(detail),
        None => Err(InstructionError::BadInstruction),
    }
}

// Reads the detail at entry `at`, or null.
pub(crate) fn detail_at(
    alloc: Global,
    json: &Value,
    at: usize,
) -> Result<Option<String>, InstructionError>
    ensures { Gives (option_map string_bytes) result (detail_at (view json.now) at) }
{
    match detail_text_at(json, at)? {
        Some(name) => Ok(Some(String::from_str(alloc, name)?)),
        None => Ok(None),
    }
}

// Reads the detail at entry `at`, or null, as a text that can be shared.
pub(crate) fn shared_detail_at(
    alloc: Global,
    json: &Value,
    at: usize,
) -> Result<Option<RcStr>, InstructionError>
    ensures { Gives (option_map rc_str_bytes) result (detail_at (view json.now) at) }
{
    match detail_text_at(json, at)? {
        Some(name) => Ok(Some(RcStr::from_str(alloc, name)?)),
        None => Ok(None),
    }
}

// Reads the kind at entry `at`.
pub(crate) fn kind_at(json: &Value, at: usize, types: &TypeTree) -> Result<Kind, InstructionError>
    ensures kind { Gives kind_view result (kind_at types.now (view json.now) at) }
    ensures known { IfOk result (λ k. IsKnown types.now k) }
{
    match kind_of_word(types, text_at(json, at)?) {
        Ok(kind) => Ok(kind),
        Err(_) => Err(InstructionError::BadInstruction),
    }
}

// Reads a value of this kind at entry `at`.
pub(crate) fn value_at(
    alloc: Global,
    json: &Value,
    at: usize,
    types: &TypeTree,
    kind: Kind,
) -> Result<g_values::Value, InstructionError>
    requires { IsKnown types.now kind }
    ensures value { Gives value_view result (value_at types.now (kind_view kind) (view json.now) at) }
    ensures kind { IfOk result (λ v. value_kind v ≡ kind_view kind) }
{
    let operand = operand(json, at)?;
    match from_json(alloc, types, operand, kind) {
        Ok(value) => Ok(value),
        Err(JsonError::OutOfMemory) => Err(InstructionError::OutOfMemory),
        Err(JsonError::Refused(_)) => Err(InstructionError::BadInstruction),
    }
}
