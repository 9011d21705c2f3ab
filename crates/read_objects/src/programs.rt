//! Reads the programs of a definition.

ghost use Rattle.std.specs.Prelude.{◌≡◌, ◌<◌, ◌≤◌, [], None, Ok, codes, is_some, length, map, option_map, string_bytes, IfOk, OnOk};
ghost use Rattle.std.specs.List.{AllByRecursion};
ghost use Rattle.json_trees.specs.View.{view, items_view};
ghost use Rattle.ui_machine.specs.Definition.Names.{place_named};
ghost use Rattle.bytecode.specs.Known.{HasKnownBlocks};
ghost use Rattle.bytecode.specs.Reading.Outline.{IsWellFormed, outline_in};
ghost use Rattle.bytecode.specs.Reading.Outline as outlines;
ghost use Rattle.bytecode.specs.Reading.OutlineFaults.{fault_view, part_view};
ghost use Rattle.bytecode.specs.Reading.Programs.{program_of};
ghost use Rattle.handler_code.specs.Reading.ReaderViews.{names_view};
ghost use Rattle.bytecode.specs.Reading.Views.{seen};
ghost use Rattle.bytecode.specs.Shape.{shape_fault};
ghost use Rattle.bytecode.specs.View.{program_view};
ghost use Rattle.definition_format.specs.Meaning.{HasOwnName, IsSoundProgram, plain_program};
ghost use Rattle.definition_format.specs.Refusals.{Gives, Leads, IsRefusal, bad_program};
ghost use Rattle.definition_format.specs.Document.{under, path_of, each, at_entry};
ghost use Rattle.definition_format.specs.Denoted.Programs.{block_path, member_path, part_path, outline_refusal, or_bad_program, read_ahead, room_for_program, new_program, unless_refused, program_in, program_at};

use bytecode::{OutlineError, OutlineFault, Program, ProgramError, ProgramFault, ProgramPart};
use definition_format::{DefinitionFault, DefinitionLimit, Path, ReadError};
use definitions::programs::Programs;
use handler_code::{Names, check_outline, read_program};
use indexmap::IndexMap;
use read_parts::document::{Entries, Part, bad_shape, escaped, path_text, path_under, path_within};
use read_parts::names::is_name;
use std::alloc::AllocError;
use ui_machine::ProgramId;

/// The greatest number of programs of a definition.
pub(crate) const MOST_PROGRAMS: usize = 256;

// Returns the path of a block of a program, or of the program itself.
fn path_of_block(part: Part<'_>, block: Option<usize>) -> Result<String, AllocError>
    ensures { IfOk result (λ s. string_bytes s ≡ block_path (path_of part.entry.path) block) }
{
    let Some(block) = block else {
        return path_text(part.alloc, part.path);
    };
    let blocks = path_under(part.alloc, part.path, "blocks")?;
    let path = Path {
        base: blocks.as_str(),
        index: None,
    };
    path_within(part.alloc, path, block)
}

// Returns the path of a member of a program or block, or of all of it.
fn path_of_member(
    part: Part<'_>,
    block: Option<usize>,
    member: Option<&str>,
) -> Result<String, AllocError>
    ensures { IfOk result (λ s. string_bytes s ≡ member_path (block_path (path_of part.entry.path) block) (option_map (λ k. k.now) member.entry)) }
{
    let whole = path_of_block(part, block)?;
    let Some(key) = member else {
        return Ok(whole);
    };
    let key = escaped(part.alloc, key)?;
    let path = Path {
        base: whole.as_str(),
        index: None,
    };
    path_under(part.alloc, path, key.as_str())
}

// Returns the path of a part of a program.
fn path_of_part(part: Part<'_>, place: ProgramPart<'_>) -> Result<String, AllocError>
    ensures { IfOk result (λ s. string_bytes s ≡ part_path (path_of part.entry.path) (part_view place.entry)) }
{
    let member = path_of_member(part, place.block, place.member)?;
    let Some(index) = place.index else {
        return Ok(member);
    };
    let path = Path {
        base: member.as_str(),
        index: None,
    };
    path_within(part.alloc, path, index)
}

// Makes the refusal for a fault in the outline of a program.
fn refused_outline(part: Part<'_>, fault: OutlineFault<'_>) -> Result<ReadError, ReadError>
    ensures { IsRefusal (outline_refusal (path_of part.entry.path) (fault_view fault.entry)) result }
{
    match fault {
        OutlineFault::Shape(place) => {
            let path = path_of_part(part, place)?;
            Ok(ReadError::Refused(DefinitionFault::Shape(path)))
        }
        OutlineFault::Unknown(place, name) => {
            let path = path_of_part(part, place)?;
            let name = String::from_str(part.alloc, name)?;
            Ok(ReadError::Refused(DefinitionFault::Unknown(path, name)))
        }
    }
}

// Makes the refusal for a fault of a program as a whole.
fn refused_program(part: Part<'_>, fault: ProgramFault) -> Result<ReadError, ReadError>
    ensures { IsRefusal (bad_program (path_of part.entry.path) fault) result }
{
    let path = path_text(part.alloc, part.path)?;
    Ok(ReadError::Refused(DefinitionFault::BadProgram(path, fault)))
}

// Reads the program of an entry whose outline has no fault.
fn well_formed(part: Part<'_>, names: &Names<'_>) -> Result<Program, ReadError>
    requires { IsWellFormed (names_view names.now) (view part.value.now) }
    ensures read { (o : outlines.Outline) → outline_in (names_view names.now) (view part.entry.value.now) ≡ Ok o
        → Gives program_view result (or_bad_program (path_of part.entry.path) (program_of (names_view names.now) o)) }
    ensures known { IfOk result (λ p. HasKnownBlocks names.now.types.now p) }
    ensures shaped { IfOk result (λ p. shape_fault (program_view p) ≡ None) }
{
    match read_program(part.alloc, part.value, names) {
        Ok(program) => Ok(program),
        Err(ProgramError::OutOfMemory) => Err(ReadError::OutOfMemory),
        Err(ProgramError::Refused(fault)) => Err(refused_program(part, fault)?),
    }
}

// Reads the program of an entry, or returns the fault of its outline, which is reported after those of the room and the name.
fn program_ahead<'a>(
    part: Part<'a>,
    names: &Names<'_>,
) -> Result<Result<Program, OutlineFault<'a>>, ReadError>
    ensures read { Gives (seen program_view fault_view) result (read_ahead (path_of part.entry.path) (names_view names.now) (outline_in (names_view names.now) (view part.entry.value.now))) }
    ensures known { IfOk result (λ r. IfOk r (λ p. HasKnownBlocks names.now.types.now p)) }
    ensures shaped { IfOk result (λ r. IfOk r (λ p. shape_fault (program_view p) ≡ None)) }
{
    match check_outline(part.alloc, part.value, names) {
        Ok(()) => {
            let program = well_formed(part, names)?;
            Ok(Ok(program))
        }
        Err(OutlineError::OutOfMemory) => Err(ReadError::OutOfMemory),
        Err(OutlineError::Refused(fault)) => Ok(Err(fault)),
    }
}

// Checks that there is room for another program.
fn check_room(programs: &Programs) -> Result<(), ReadError>
    ensures room { Gives (λ _. tt) result (room_for_program (map plain_program programs.now.entries)) }
    ensures below { IfOk result (λ _. length programs.now.entries < 256) }
{
    if programs.len() >= MOST_PROGRAMS {
        return Err(ReadError::Refused(DefinitionFault::Limit(DefinitionLimit::Programs)));
    }
    Ok(())
}

// Returns whether there is a program of this name.
fn has_program(programs: &Programs, name: &str) -> bool
    requires { AllByRecursion HasOwnName programs.now.entries }
    ensures { result ≡ is_some (place_named (λ p. p.name) (map plain_program programs.now.entries) name.now) }
{
    programs.get_index_of(name).is_some()
}

// Checks that a name is valid and that no program so far has it.
fn check_name(part: Part<'_>, programs: &Programs, name: &str) -> Result<(), ReadError>
    requires { AllByRecursion HasOwnName programs.now.entries }
    ensures name { Gives (λ _. tt) result (new_program (under (path_of part.entry.path) (codes "name")) (map plain_program programs.now.entries) name.now) }
    ensures new { IfOk result (λ _. place_named (λ p. p.name) (map plain_program programs.now.entries) name.now ≡ None) }
{
    if !is_name(name) {
        return Err(bad_shape(part.alloc, part.path, "name")?);
    }
    if has_program(programs, name) {
        return Err(ReadError::Refused(DefinitionFault::Duplicate(path_under(
            part.alloc, part.path, "name",
        )?)));
    }
    Ok(())
}

// Returns the program that was read ahead, or the refusal for the fault of its outline.
fn unless_refused(
    part: Part<'_>,
    ahead: Result<Program, OutlineFault<'_>>,
) -> Result<Program, ReadError>
    ensures read { Gives program_view result (unless_refused (path_of part.entry.path) (seen program_view fault_view ahead.entry)) }
    ensures same { IfOk result (λ p. ahead.entry ≡ Ok p) }
{
    match ahead {
        Ok(program) => Ok(program),
        Err(fault) => Err(refused_outline(part, fault)?),
    }
}

// A program that is not added yet, and its name.
#[derive(Drop)]
struct NewProgram {
    name: String,
    program: Program,
}

// Reads a program that is not in `programs` yet from an entry.
#[tactic(auto, unfolding(definition_format::specs::Denoted::Programs::program_in))]
fn program_in(
    part: Part<'_>,
    names: &Names<'_>,
    programs: &Programs,
) -> Result<NewProgram, ReadError>
    requires { AllByRecursion HasOwnName programs.now.entries }
    ensures read { Gives (λ n. program_view n.program) result (program_in (path_of part.entry.path) (names_view names.now) (map plain_program programs.now.entries) (view part.entry.value.now)) }
    ensures sound { IfOk result (λ n. IsSoundProgram names.now.types.now (n.name, n.program)) }
    ensures named { IfOk result (λ n. HasOwnName (n.name, n.program)) }
    ensures new { IfOk result (λ n. place_named (λ p. p.name) (map plain_program programs.now.entries) (string_bytes n.name) ≡ None) }
    ensures room { IfOk result (λ _. length programs.now.entries < 256) }
{
    part.members()?;
    let ahead = program_ahead(part, names)?;
    check_room(programs)?;
    let name = part.text("name")?;
    check_name(part, programs, name)?;
    let program = unless_refused(part, ahead)?;
    let name = String::from_str(part.alloc, name)?;
    Ok(NewProgram { name, program })
}

// Reads the program of an entry and adds it to those before.
fn read_entry(part: Part<'_>, names: &Names<'_>, programs: &mut Programs) -> Result<(), ReadError>
    requires named { AllByRecursion HasOwnName programs.old.entries }
    requires sound { AllByRecursion (IsSoundProgram names.now.types.now) programs.old.entries }
    ensures read { Leads result (program_at (path_of part.entry.path) (names_view names.now) (map plain_program programs.old.entries) (view part.entry.value.now)) (map plain_program programs.new.entries) }
    ensures named { OnOk result (AllByRecursion HasOwnName programs.new.entries) }
    ensures sound { OnOk result (AllByRecursion (IsSoundProgram names.now.types.now) programs.new.entries) }
    ensures few { OnOk result (length programs.new.entries ≤ 256) }
{
    let new = program_in(part, names, programs)?;
    programs.insert(new.name, new.program)?;
    Ok(())
}

/// Reads the programs of a list. Their kinds may name the types and places in `names`.
///
/// # Errors
///
/// Returns `Refused` with the first fault in document order, or `OutOfMemory` if memory is refused.
pub fn read_programs(list: Entries<'_>, names: &Names<'_>) -> Result<Programs, ReadError>
    ensures read { Gives (λ programs. map plain_program programs.entries) result (each (at_entry (λ path. program_at path (names_view names.now)) list.entry.path.now) 0 [] (items_view list.entry.items.now)) }
    ensures named { IfOk result (λ programs. AllByRecursion HasOwnName programs.entries) }
    ensures sound { IfOk result (λ programs. AllByRecursion (IsSoundProgram names.now.types.now) programs.entries) }
    ensures few { IfOk result (λ programs. length programs.entries ≤ 256) }
{
    let mut programs = IndexMap::new(list.alloc);
    'items: for (index, value) in list.items.iter().enumerate() {
        let path = Path {
            base: list.path,
            index: Some(index),
        };
        let part = Part {
            alloc: list.alloc,
            path,
            value,
        };
        read_entry(part, names, &mut programs)?;
    }
    Ok(programs)
}
