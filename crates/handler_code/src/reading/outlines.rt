//! Reads the outline of a program, which is all but its instructions.

ghost use Rattle.std.specs.Prelude.{◌≡◌, [], All, IfOk, IfSome, codes, map, option_and_then, option_map};
ghost use Rattle.json_trees.specs.View.{view};
ghost use Rattle.serde_json.specs.Find.{as_array, as_str, get};
ghost use Rattle.g_values.specs.View.{kind_view, IsKnown};
ghost use Rattle.bytecode.specs.Known.{IsKnownRegister};
ghost use Rattle.bytecode.specs.View.{register_kind_view};
ghost use Rattle.bytecode.specs.Reading.Views.{seen};
ghost use Rattle.bytecode.specs.Reading.Operands.{named};
ghost use Rattle.handler_code.specs.Reading.ReaderViews.{kind_fault, names_view, block_outline_view, outline_view};
ghost use Rattle.bytecode.specs.Reading.Each.{entries_of, each};
ghost use Rattle.bytecode.specs.Reading.OutlineFaults.{Gives, member_of, shaped};
ghost use Rattle.bytecode.specs.Reading.Outline.{IsWellFormed, block_at, block_step, blocks_at, entry_at, first_entry, keys_of_block, outline_in, passes_said, registers_of, repeat_at, repeat_said, result_at, result_of, result_word, some_entries, some_entries_at, tested};

use crate::reading::kind_words::{KindFault, kind_of_word};
use crate::reading::names::Names;
use crate::reading::operand_words::name_in;
use crate::reading::outline::{BlockOutline, Outline};
use crate::reading::outline_parts::{check_only, entries_of, kind_refusal, kinds_at, members_of};
use bytecode::{Format, MOST_PASSES, OutlineError, OutlineFault, ProgramPart, RegisterKind};
use g_values::Kind;
use json_trees::Value;
use std::alloc::Global;
use type_tree::TypeTree;

const MEMBERS: [&str; 5] = ["name", "params", "registers", "result", "blocks"];

const BLOCK_MEMBERS: [&str; 2] = ["in", "code"];

const REPEATED_BLOCK_MEMBERS: [&str; 3] = ["in", "repeat", "code"];

// Reads the program's `name`.
fn name_at<'a>(json: &'a Value) -> Result<&'a str, OutlineError<'a>>
    ensures { Gives (λ s. s.now) result (shaped (member_of None (codes "name")) (named (option_and_then as_str (get (codes "name") (view json.now))))) }
{
    match json.get("name").and_then(name_in) {
        Some(name) => Ok(name),
        None => Err(OutlineError::Refused(OutlineFault::Shape(ProgramPart::member_of(
            None, "name",
        )))),
    }
}

// Returns the number of registers, or `None` if `registers` is absent or no unsigned number.
fn registers_of(json: &Value) -> Option<usize>
    ensures { result ≡ registers_of (view json.now) }
{
    let registers = json.get("registers")?.as_u64()?;
    Some(registers as usize)
}

fn registers_at<'a>(json: &'a Value) -> Result<usize, OutlineError<'a>>
    ensures { Gives (λ n. n) result (shaped (member_of None (codes "registers")) (registers_of (view json.now))) }
{
    match registers_of(json) {
        Some(registers) => Ok(registers),
        None => Err(OutlineError::Refused(OutlineFault::Shape(ProgramPart::member_of(
            None,
            "registers",
        )))),
    }
}

// Reads the kind of a result from its word, where `none` means that there is no result.
fn result_word<'a>(types: &TypeTree, word: &'a str) -> Result<Option<Kind>, KindFault<'a>>
    ensures kind { seen (option_map kind_view) kind_fault result ≡ result_word types.now word.now }
    ensures known { IfOk result (λ kind. IfSome kind (λ k. IsKnown types.now k)) }
{
    if word == "none" {
        return Ok(None);
    }
    match kind_of_word(types, word) {
        Ok(kind) => Ok(Some(kind)),
        Err(fault) => Err(fault),
    }
}

// Reads the kind of a result. There is no result if the value is absent.
fn result_of<'a>(types: &TypeTree, json: Option<&'a Value>) -> Result<Option<Kind>, KindFault<'a>>
    ensures kind { seen (option_map kind_view) kind_fault result ≡ result_of types.now (option_map (λ v. view v.now) json.entry) }
    ensures known { IfOk result (λ kind. IfSome kind (λ k. IsKnown types.now k)) }
{
    let Some(value) = json else {
        return Ok(None);
    };
    match value.as_str() {
        Some(word) => result_word(types, word),
        None => Err(KindFault::NoKind),
    }
}

// Reads the program's `result`, the kind of what it returns.
fn result_at<'a>(types: &TypeTree, json: &'a Value) -> Result<Option<Kind>, OutlineError<'a>>
    ensures kind { Gives (option_map kind_view) result (result_at types.now (view json.now)) }
    ensures known { IfOk result (λ kind. IfSome kind (λ k. IsKnown types.now k)) }
{
    let part = ProgramPart::member_of(None, "result");
    match result_of(types, json.get("result")) {
        Ok(kind) => Ok(kind),
        Err(fault) => Err(OutlineError::Refused(kind_refusal(part, fault))),
    }
}

// Returns the kinds of the registers where the first block begins, which are those of the parameters. Refuses an `in` there.
fn first_entry<'a>(
    alloc: Global,
    params: &[RegisterKind],
    json: Option<&'a Value>,
) -> Result<Vec<RegisterKind>, OutlineError<'a>>
    ensures { Gives (λ v. map register_kind_view v.items) result (first_entry (map register_kind_view params.now) (option_map (λ v. view v.now) json.entry)) }
{
    if json.is_some() {
        return Err(OutlineError::Refused(OutlineFault::Shape(ProgramPart::member_of(
            Some(0),
            "in",
        ))));
    }
    let entry = Vec::from_slice(alloc, params)?;
    Ok(entry)
}

// Reads the kinds of the first registers where the block with this number begins.
fn entry_at<'a>(
    alloc: Global,
    names: &Names<'_>,
    params: &[RegisterKind],
    registers: usize,
    block: usize,
    json: &'a Value,
) -> Result<Vec<RegisterKind>, OutlineError<'a>>
    ensures { Gives (λ v. map register_kind_view v.items) result (entry_at (names_view names.now) (map register_kind_view params.now) registers block (view json.now)) }
{
    let kinds = json.get("in");
    if block == 0 {
        return first_entry(alloc, params, kinds);
    }
    let part = ProgramPart::member_of(Some(block), "in");
    kinds_at(alloc, names, true, part, Some(registers), kinds)
}

// Returns the number of passes that a value gives, or `None` if it is no whole number. A number outside of 1 to 65,535 becomes 0, which no
// block may have.
fn passes_said(json: &Value) -> Option<u32>
    ensures { result ≡ passes_said (view json.now) }
{
    let number = json.as_number()?.as_i128()?;
    if number < 1 || number > i128::from(MOST_PASSES) {
        return Some(0);
    }
    Some(number as u32)
}

// Reads a block's `repeat`, which may be absent.
fn repeat_said<'a>(block: usize, json: Option<&'a Value>) -> Result<Option<u32>, OutlineError<'a>>
    ensures { Gives (λ r. r) result (repeat_said block (option_map (λ v. view v.now) json.entry)) }
{
    let Some(value) = json else {
        return Ok(None);
    };
    match passes_said(value) {
        Some(passes) => Ok(Some(passes)),
        None => Err(OutlineError::Refused(OutlineFault::Shape(ProgramPart::member_of(
            Some(block),
            "repeat",
        )))),
    }
}

// Reads a block's number of passes, which only the second format can give.
fn repeat_at<'a>(
    format: Format,
    block: usize,
    json: &'a Value,
) -> Result<Option<u32>, OutlineError<'a>>
    ensures { Gives (λ r. r) result (repeat_at format block (view json.now)) }
{
    match format {
        Format::First => Ok(None),
        Format::Second => repeat_said(block, json.get("repeat")),
    }
}

// Returns the keys of the members that a block may have.
fn keys_of_block(format: Format) -> &'static [&'static str]
    ensures { map (λ k. k.now) result.now ≡ keys_of_block format }
{
    match format {
        Format::First => &BLOCK_MEMBERS,
        Format::Second => &REPEATED_BLOCK_MEMBERS,
    }
}

// Returns the entries of a block's `code`, which are its instructions.
fn code_at<'a>(block: usize, json: &'a Value) -> Result<&'a [Value], OutlineError<'a>>
    ensures { Gives (λ s. map view s.now) result (shaped (member_of (Some block) (codes "code")) (option_map entries_of (option_and_then as_array (get (codes "code") (view json.now))))) }
{
    match json.get("code").and_then(entries_of) {
        Some(code) => Ok(code),
        None => Err(OutlineError::Refused(OutlineFault::Shape(ProgramPart::member_of(
            Some(block),
            "code",
        )))),
    }
}

// Reads the outline of the block with this number.
#[tactic(auto, unfolding(bytecode::specs::Reading::Outline::block_at))]
fn block_at<'a>(
    alloc: Global,
    names: &Names<'_>,
    params: &[RegisterKind],
    registers: usize,
    block: usize,
    json: &'a Value,
) -> Result<BlockOutline<'a>, OutlineError<'a>>
    ensures { Gives block_outline_view result (block_at (names_view names.now) (map register_kind_view params.now) registers block (view json.now)) }
{
    let members = members_of(Some(block), json)?;
    let entry = entry_at(alloc, names, params, registers, block, json)?;
    let repeat = repeat_at(names.format, block, json)?;
    let code = code_at(block, json)?;
    check_only(Some(block), members, keys_of_block(names.format))?;
    Ok(BlockOutline {
        entry,
        repeat,
        code,
    })
}

// Reads the outlines of blocks from the entries of a list.
fn blocks_of<'a>(
    alloc: Global,
    names: &Names<'_>,
    params: &[RegisterKind],
    registers: usize,
    items: &'a [Value],
) -> Result<Vec<BlockOutline<'a>>, OutlineError<'a>>
    ensures { Gives (λ v. map block_outline_view v.items) result (each (block_step (names_view names.now) (map register_kind_view params.now) registers) 0 [] (map view items.now)) }
{
    let mut blocks = Vec::new(alloc);
    'items: for (number, item) in items.iter().enumerate() {
        let block = block_at(alloc, names, params, registers, number, item)?;
        blocks.push(block)?;
    }
    Ok(blocks)
}

// Returns the entries of a list, or `None` if the value is no list or an empty one.
fn some_entries(json: &Value) -> Option<&[Value]>
    ensures { option_map (λ s. map view s.now) result ≡ option_and_then some_entries (option_map entries_of (as_array (view json.now))) }
{
    let items = entries_of(json)?;
    if items.is_empty() { None } else { Some(items) }
}

fn some_entries_at<'a>(json: &'a Value, key: &'a str) -> Result<&'a [Value], OutlineError<'a>>
    ensures { Gives (λ s. map view s.now) result (some_entries_at (view json.now) key.now) }
{
    match json.get(key).and_then(some_entries) {
        Some(items) => Ok(items),
        None => Err(OutlineError::Refused(OutlineFault::Shape(ProgramPart::member_of(None, key)))),
    }
}

// Reads the program's `blocks`.
#[tactic(auto, unfolding(bytecode::specs::Reading::Outline::blocks_at))]
fn blocks_at<'a>(
    alloc: Global,
    names: &Names<'_>,
    params: &[RegisterKind],
    registers: usize,
    json: &'a Value,
) -> Result<Vec<BlockOutline<'a>>, OutlineError<'a>>
    ensures { Gives (λ v. map block_outline_view v.items) result (blocks_at (names_view names.now) (map register_kind_view params.now) registers (view json.now)) }
{
    let items = some_entries_at(json, "blocks")?;
    let blocks = blocks_of(alloc, names, params, registers, items)?;
    Ok(blocks)
}

// Reads the outline of a program, or returns the first fault in document order.
#[tactic(auto, unfolding(bytecode::specs::Reading::Outline::outline_in))]
pub(crate) fn read_outline<'a>(
    alloc: Global,
    json: &'a Value,
    names: &Names<'_>,
) -> Result<Outline<'a>, OutlineError<'a>>
    ensures read { Gives outline_view result (outline_in (names_view names.now) (view json.now)) }
    ensures params { IfOk result (λ o. All (λ k. IsKnownRegister names.now.types.now k) o.params.items) }
    ensures result { IfOk result (λ o. IfSome o.result (λ k. IsKnown names.now.types.now k)) }
{
    let members = members_of(None, json)?;
    let name = name_at(json)?;
    let part = ProgramPart::member_of(None, "params");
    let params = kinds_at(
        alloc,
        names,
        false,
        part,
        registers_of(json),
        json.get("params"),
    )?;
    let registers = registers_at(json)?;
    let result = result_at(names.types, json)?;
    let blocks = blocks_at(alloc, names, params.as_slice(), registers, json)?;
    check_only(None, members, &MEMBERS)?;
    Ok(Outline {
        name,
        params,
        registers,
        result,
        blocks,
    })
}

/// Checks the outline of a program, which is all but its instructions: its members must be those of the format, and its kinds must name
/// what exists. A value that passes may be given to [`read_program`](crate::read_program) with the same names.
///
/// A program has the members `name`, `params`, `registers`, `result` and `blocks`. A block has `in` and `code`, and in the second format
/// `repeat` between them. A name is 1 to 64 ASCII letters, digits, `-` and `_`. Neither `params` nor an `in` has more kinds than there are
/// registers. The first block has no `in`, and there is at least one block. The kind of a register is a kind of values, `some:T` of a class
/// or interface, or `at:ID` or `at?:ID` of an object or prototype. In `in` it may also be `unset`. The result is a kind of values, or
/// `none`. `repeat` is a whole number, and whether it is in range is not checked here.
///
/// # Errors
///
/// Returns `Refused` with the first fault, in the order of the members above. A part comes before what is in it, and keys that the format
/// does not have come last, ordered by their bytes. Returns `OutOfMemory` if a list of kinds can't be allocated.
pub fn check_outline<'a>(
    alloc: Global,
    json: &'a Value,
    names: &Names<'_>,
) -> Result<(), OutlineError<'a>>
    ensures tested { Gives (λ _. tt) result (tested (names_view names.now) (view json.now)) }
    ensures well_formed { IfOk result (λ _. IsWellFormed (names_view names.now) (view json.now)) }
{
    read_outline(alloc, json, names)?;
    Ok(())
}
