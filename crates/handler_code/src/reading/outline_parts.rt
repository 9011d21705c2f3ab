//! Readers for the members of a program and of its blocks.

ghost use Rattle.std.specs.Prelude.{◌≡◌, [], All, IfOk, map, not, option_copied, option_map, string_bytes};
ghost use Rattle.std.specs.List.{find, list_any};
ghost use Rattle.std.specs.Str.{bytes_eq};
ghost use Rattle.json_trees.specs.View.{view, members_view};
ghost use Rattle.serde_json.specs.Find.{as_array, as_object, as_str};
ghost use Rattle.bytecode.specs.Known.{IsKnownRegister};
ghost use Rattle.bytecode.specs.View.{register_kind_view};
ghost use Rattle.bytecode.specs.Reading.RegisterKinds.{register_kind_in};
ghost use Rattle.bytecode.specs.Reading.Each.{entries_of, each};
ghost use Rattle.bytecode.specs.Reading.OutlineFaults.{Gives, all_of, fault_view, kind_refusal, kind_there, part_view, shaped};
ghost use Rattle.bytecode.specs.Reading.Outline.{entries_or_none, fit_registers, kind_step, kinds_at, only_at};
ghost use Rattle.handler_code.specs.Reading.ReaderViews.{kind_fault, names_view};

use crate::reading::kind_words::KindFault;
use crate::reading::names::Names;
use crate::reading::register_kinds::register_kind_in;
use bytecode::{OutlineError, OutlineFault, ProgramPart, RegisterKind};
use json_trees::Value;
use std::alloc::Global;

// Returns the outline fault for a word at `part` that names no kind.
pub(crate) fn kind_refusal<'a>(part: ProgramPart<'a>, fault: KindFault<'a>) -> OutlineFault<'a>
    ensures { fault_view result ≡ kind_refusal (part_view part.entry) (kind_fault fault.entry) }
{
    match fault {
        KindFault::NoKind => OutlineFault::Shape(part),
        KindFault::Unknown(name) => OutlineFault::Unknown(part, name),
    }
}

// Returns the members of a program, or of the block with this number. Refuses a value that is no object.
pub(crate) fn members_of<'a>(
    block: Option<usize>,
    json: &'a Value,
) -> Result<&'a [(String, Value)], OutlineError<'a>>
    ensures { Gives (λ m. members_view m.now) result (shaped (all_of block) (as_object (view json.now))) }
{
    match json.as_object() {
        Some(members) => Ok(members.as_slice()),
        None => Err(OutlineError::Refused(OutlineFault::Shape(ProgramPart::all_of(block)))),
    }
}

// Returns the entries of an array, or `None` for any other value.
#[tactic(auto, using(crate::proofs::Each::entries_viewed))]
pub(crate) fn entries_of(json: &Value) -> Option<&[Value]>
    ensures { option_map (λ s. map view s.now) result ≡ option_map entries_of (as_array (view json.now)) }
{
    let items = json.as_array()?;
    Some(items.as_slice())
}

// Returns the entries of a list, or no entries if the member is absent. Refuses any other value.
fn entries_or_none<'a>(
    part: ProgramPart<'a>,
    json: Option<&'a Value>,
) -> Result<&'a [Value], OutlineError<'a>>
    ensures { Gives (λ s. map view s.now) result (entries_or_none (part_view part.entry) (option_map (λ v. view v.now) json.entry)) }
{
    let Some(list) = json else {
        return Ok(&[]);
    };
    match entries_of(list) {
        Some(items) => Ok(items),
        None => Err(OutlineError::Refused(OutlineFault::Shape(part))),
    }
}

// Refuses a list with more entries than there are registers. Does nothing if that number is not known.
fn check_room<'a>(
    part: ProgramPart<'a>,
    registers: Option<usize>,
    items: &[Value],
) -> Result<(), OutlineError<'a>>
    ensures { Gives (λ _. tt) result (fit_registers (part_view part.entry) registers (map view items.now)) }
{
    let Some(registers) = registers else {
        return Ok(());
    };
    if items.len() > registers {
        return Err(OutlineError::Refused(OutlineFault::Shape(part)));
    }
    Ok(())
}

// Reads the kind of a register from an entry of a list.
fn kind_there<'a>(
    names: &Names<'_>,
    may_be_unset: bool,
    part: ProgramPart<'a>,
    json: &'a Value,
) -> Result<RegisterKind, OutlineError<'a>>
    ensures kind { Gives register_kind_view result (kind_there (part_view part.entry) (register_kind_in (names_view names.now) may_be_unset (as_str (view json.now)))) }
    ensures known { IfOk result (λ k. IsKnownRegister names.now.types.now k) }
{
    match register_kind_in(names, may_be_unset, json) {
        Ok(kind) => Ok(kind),
        Err(fault) => Err(OutlineError::Refused(kind_refusal(part, fault))),
    }
}

// Reads the kinds of registers from the entries of a list.
fn kinds_of<'a>(
    alloc: Global,
    names: &Names<'_>,
    may_be_unset: bool,
    part: ProgramPart<'a>,
    items: &'a [Value],
) -> Result<Vec<RegisterKind>, OutlineError<'a>>
    ensures kinds { Gives (λ v. map register_kind_view v.items) result (each (kind_step (names_view names.now) may_be_unset (part_view part.entry)) 0 [] (map view items.now)) }
    ensures known { IfOk result (λ v. All (λ k. IsKnownRegister names.now.types.now k) v.items) }
{
    let mut kinds = Vec::new(alloc);
    'items: for (index, item) in items.iter().enumerate() {
        let kind = kind_there(names, may_be_unset, part.entry_of(index), item)?;
        kinds.push(kind)?;
    }
    Ok(kinds)
}

// Reads the kinds of registers from a list, which may be absent and has no more entries than there are registers.
#[tactic(auto, unfolding(bytecode::specs::Reading::Outline::kinds_at))]
pub(crate) fn kinds_at<'a>(
    alloc: Global,
    names: &Names<'_>,
    may_be_unset: bool,
    part: ProgramPart<'a>,
    registers: Option<usize>,
    json: Option<&'a Value>,
) -> Result<Vec<RegisterKind>, OutlineError<'a>>
    ensures kinds { Gives (λ v. map register_kind_view v.items) result (kinds_at (names_view names.now) may_be_unset (part_view part.entry) registers (option_map (λ v. view v.now) json.entry)) }
    ensures known { IfOk result (λ v. All (λ k. IsKnownRegister names.now.types.now k) v.items) }
{
    let items = entries_or_none(part, json)?;
    check_room(part, registers, items)?;
    let kinds = kinds_of(alloc, names, may_be_unset, part, items)?;
    Ok(kinds)
}

// Returns whether `key` is one of `keys`.
fn is_among(keys: &[&str], key: &str) -> bool
    ensures { result ≡ list_any (λ k. bytes_eq k.now key.now) keys.now }
{
    keys.iter().any(|known| *known == key)
}

// Returns the first member whose key is not in `known`.
fn first_other<'a>(members: &'a [(String, Value)], known: &[&str]) -> Option<&'a (String, Value)>
    ensures { option_copied result ≡ find (λ m. not (list_any (λ k. bytes_eq k.now (string_bytes m.0)) known.now)) members.now }
{
    members
        .iter()
        .find(|member| !is_among(known, member.0.as_str()))
}

// Refuses the first member whose key is not in `keys`.
#[tactic(auto, using(crate::proofs::Members::first_other_is))]
pub(crate) fn check_only<'a>(
    block: Option<usize>,
    members: &'a [(String, Value)],
    keys: &[&str],
) -> Result<(), OutlineError<'a>>
    ensures { Gives (λ _. tt) result (only_at block (members_view members.now) (map (λ k. k.now) keys.now)) }
{
    match first_other(members, keys) {
        None => Ok(()),
        Some((key, _)) => Err(OutlineError::Refused(OutlineFault::Shape(ProgramPart::member_of(
            block,
            key.as_str(),
        )))),
    }
}
