//! Checks that all types of a definition share: their names, and the room for them among 256 types.

ghost use Rattle.std.specs.Prelude.{◌≡◌, codes, None, IfOk};
ghost use Rattle.std.specs.List.{list_any};
ghost use Rattle.json_trees.specs.View.{view, items_view};
ghost use Rattle.ui_machine.specs.Seq.{read};
ghost use Rattle.ui_machine.specs.Output.Text.{no_type};
ghost use Rattle.type_tree.specs.Adding.{find_type, name_fault, room_fault};
ghost use Rattle.definition_format.specs.Causes.{cause_view, named_cause};
ghost use Rattle.definition_format.specs.Refusals.{Gives};
ghost use Rattle.definition_format.specs.Document.{path_of, under};
ghost use Rattle.definition_format.specs.Denoted.Entries.{is_called, name_under};
ghost use Rattle.definition_format.specs.Denoted.Types.{is_declared, is_from, room_for_type, new_type_name};

use definition_format::{DefinitionFault, DefinitionLimit, ReadError, TypeCause};
use definitions::types::type_name;
use json_trees::Value;
use read_parts::document::{Part, path_under};
use read_parts::entries::name_under;
use std::alloc::{AllocError, Global};
use type_tree::{TypeFault, TypeId, TypeTree};

// Returns whether an entry, taken by itself, has this name.
fn is_called(entry: &Value, name: &str) -> bool
    ensures { result ≡ is_called (name_under (codes "name") (view entry.now)) name.now }
{
    match name_under(entry, "name") {
        Some(own) => own == name,
        None => false,
    }
}

fn any_called(list: &[Value], name: &str) -> bool
    ensures { result ≡ list_any (λ v. is_called (name_under (codes "name") (view v)) name.now) list.now }
{
    list.iter().any(|entry| is_called(entry, name))
}

// Returns whether one of the entries of a section has this name.
#[tactic(auto, using(crate::proofs::Parents::any_called))]
pub(crate) fn is_declared(list: &[Value], name: &str) -> bool
    ensures { result ≡ is_declared (items_view list.now) name.now }
{
    any_called(list, name)
}

// Checks that the tree has room for another type.
pub(crate) fn check_room(types: &TypeTree) -> Result<(), ReadError>
    ensures room { Gives (λ _. tt) result (room_for_type types.now) }
    ensures fine { IfOk result (λ _. room_fault types.now ≡ None) }
{
    if types.room_fault().is_some() {
        return Err(ReadError::Refused(DefinitionFault::Limit(DefinitionLimit::Types)));
    }
    Ok(())
}

// Returns whether a type was found and belongs to the section whose first type is `first`.
pub(crate) fn is_from(first: usize, found: Option<TypeId>) -> bool
    ensures { result ≡ is_from first found }
{
    match found {
        Some(found) => found.index() >= first,
        None => false,
    }
}

// Converts a fault to its cause, with the names of types in place of their numbers.
pub(crate) fn named_cause(
    alloc: Global,
    types: &TypeTree,
    fault: TypeFault,
) -> Result<TypeCause, AllocError>
    ensures { IfOk result (λ cause. cause_view cause ≡ named_cause types.now fault) }
{
    match fault {
        TypeFault::BadName => Ok(TypeCause::BadName),
        TypeFault::Duplicate => Ok(TypeCause::Duplicate),
        TypeFault::UnknownParent => Ok(TypeCause::UnknownParent),
        TypeFault::FinalParent => Ok(TypeCause::FinalParent),
        TypeFault::Prerequisite(required) => {
            let name = String::from_str(alloc, type_name(types, required))?;
            Ok(TypeCause::Prerequisite(name))
        }
        TypeFault::Limit(limit) => Ok(TypeCause::Limit(limit)),
    }
}

// Checks the name of a type. It is `Duplicate` if a type of the same section has it, and a `BadType` for any other fault.
pub(crate) fn check_type_name(
    part: Part<'_>,
    first: usize,
    types: &TypeTree,
    name: &str,
) -> Result<(), ReadError>
    ensures name { Gives (λ _. tt) result (new_type_name (under (path_of part.entry.path) (codes "name")) first types.now name.now) }
    ensures fine { IfOk result (λ _. name_fault types.now name.now ≡ None) }
{
    if is_from(first, types.find(name)) {
        return Err(ReadError::Refused(DefinitionFault::Duplicate(path_under(
            part.alloc, part.path, "name",
        )?)));
    }
    match types.name_fault(name) {
        None => Ok(()),
        Some(fault) => {
            let path = path_under(part.alloc, part.path, "name")?;
            let cause = named_cause(part.alloc, types, fault)?;
            Err(ReadError::Refused(DefinitionFault::BadType(path, cause)))
        }
    }
}
