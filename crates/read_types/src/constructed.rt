//! Reads the programs that classes run on their objects once these are constructed.

ghost use Rattle.std.specs.Prelude.{None, Ok, codes};
ghost use Rattle.serde_json.specs.Find.{get};
ghost use Rattle.json_trees.specs.View.{view};
ghost use Rattle.ui_machine.specs.Seq.{read};
ghost use Rattle.definition_format.specs.Refusals.{Gives, Leads};
ghost use Rattle.definition_format.specs.Document.{path_of, under};
ghost use Rattle.definition_format.specs.Denoted.ClassHandlers.{program_at};
ghost use Rattle.definition_format.specs.Denoted.Constructed.{add_program, constructed_at, program_or};

use crate::by_type::set_named;
use definition_format::ReadError;
use json_trees::Value;
use read_parts::document::{Part, unknown_name};
use read_parts::entries::ProgramNames;
use read_parts::names::name_under;
use type_tree::TypeId;
use ui_machine::ProgramId;

const MEMBER: &str = "constructed";

// Returns the program that a value names.
#[tactic(auto, unfolding(definition_format::specs::Denoted::ClassHandlers::program_at))]
fn program_in(
    part: Part<'_>,
    programs: &ProgramNames<'_>,
    value: &Value,
) -> Result<ProgramId, ReadError>
    ensures { Gives (λ n. n) result (program_at (under (path_of part.entry.path) (codes "constructed")) programs.now (view value.now)) }
{
    let name = name_under(part, MEMBER, value)?;
    match programs.number(name) {
        Some(number) => Ok(number),
        None => Err(unknown_name(part, MEMBER, name)?),
    }
}

// Returns the program that the entry of a class names, or `None` if it names none.
#[tactic(auto, unfolding(definition_format::specs::Denoted::Constructed::some_program))]
fn program_of(part: Part<'_>, programs: &ProgramNames<'_>) -> Result<Option<ProgramId>, ReadError>
    ensures { Gives (λ p. p) result (program_or (under (path_of part.entry.path) (codes "constructed")) programs.now (get (codes "constructed") (view part.entry.value.now))) }
{
    let Some(value) = part.value.get(MEMBER) else {
        return Ok(None);
    };
    let program = program_in(part, programs, value)?;
    Ok(Some(program))
}

// Notes the program of a type, if there is one.
fn add_program(
    constructed: &mut Vec<Option<ProgramId>>,
    t: TypeId,
    program: Option<ProgramId>,
) -> Result<(), ReadError>
    ensures { Leads result (Ok (add_program (read None constructed.old.items) t program)) (read None constructed.new.items) }
{
    if let Some(program) = program {
        set_named(constructed, t, program)?;
    }
    Ok(())
}

// Reads the program of a class from its entry.
#[tactic(auto, unfolding(definition_format::specs::Denoted::Constructed::constructed_at))]
pub(crate) fn give_constructed(
    part: Part<'_>,
    programs: &ProgramNames<'_>,
    constructed: &mut Vec<Option<ProgramId>>,
    t: TypeId,
) -> Result<(), ReadError>
    ensures { Leads result (constructed_at (path_of part.entry.path) programs.now t (read None constructed.old.items) (view part.entry.value.now)) (read None constructed.new.items) }
{
    let program = program_of(part, programs)?;
    add_program(constructed, t, program)?;
    Ok(())
}
