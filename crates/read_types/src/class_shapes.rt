//! Reads the shapes that classes name.

ghost use Rattle.std.specs.Prelude.{◌≡◌, None, Ok, Some, codes, is_some, map};
ghost use Rattle.serde_json.specs.Find.{get};
ghost use Rattle.json_trees.specs.View.{view};
ghost use Rattle.ui_machine.specs.Seq.{read};
ghost use Rattle.definition_format.specs.Meaning.{plain_shape};
ghost use Rattle.definition_format.specs.Refusals.{Gives, Leads};
ghost use Rattle.definition_format.specs.Document.{path_of, under};
ghost use Rattle.definition_format.specs.Denoted.Enums.{unless_there};
ghost use Rattle.definition_format.specs.Denoted.Constructed.{add_program};
ghost use Rattle.definition_format.specs.Denoted.Shapes.{is_shaped_by, named_shape, named_shape_or, shaped_at};

use crate::by_type::set_named;
use definition_format::{DefinitionFault, ReadError};
use definitions::shapes::{Shapes, shape_number, shape_of};
use json_trees::Value;
use read_parts::document::{Part, path_under, unknown_name};
use read_parts::names::name_under;
use type_tree::{TypeId, TypeTree};

const MEMBER: &str = "shape";

// Refuses a second shape for a class.
fn check_unshaped(part: Part<'_>, has_shape: bool) -> Result<(), ReadError>
    ensures { Gives (λ _. tt) result (unless_there (under (path_of part.entry.path) (codes "shape")) has_shape) }
{
    if has_shape {
        let path = path_under(part.alloc, part.path, MEMBER)?;
        return Err(ReadError::Refused(DefinitionFault::Duplicate(path)));
    }
    Ok(())
}

// Returns the number of the shape that a value names. Refuses it if the class has one already.
#[tactic(auto, unfolding(definition_format::specs::Denoted::Shapes::named_shape))]
fn named_shape(
    part: Part<'_>,
    shapes: &Shapes,
    has_shape: bool,
    value: &Value,
) -> Result<usize, ReadError>
    ensures { Gives Some result (named_shape (under (path_of part.entry.path) (codes "shape")) (map plain_shape shapes.now.entries) has_shape (view value.now)) }
{
    let name = name_under(part, MEMBER, value)?;
    let Some(number) = shape_of(shapes, name) else {
        return Err(unknown_name(part, MEMBER, name)?);
    };
    check_unshaped(part, has_shape)?;
    Ok(number)
}

// Returns the number of the shape that the entry of a class names, or `None` if it names none.
fn shape_named(part: Part<'_>, shapes: &Shapes, has_shape: bool) -> Result<Option<usize>, ReadError>
    ensures { Gives (λ n. n) result (named_shape_or (under (path_of part.entry.path) (codes "shape")) (map plain_shape shapes.now.entries) has_shape (get (codes "shape") (view part.entry.value.now))) }
{
    let Some(value) = part.value.get(MEMBER) else {
        return Ok(None);
    };
    let number = named_shape(part, shapes, has_shape, value)?;
    Ok(Some(number))
}

// Notes the shape of a type, if there is one.
fn add_shape(
    shaped: &mut Vec<Option<usize>>,
    t: TypeId,
    number: Option<usize>,
) -> Result<(), ReadError>
    ensures { Leads result (Ok (add_program (read None shaped.old.items) t number)) (read None shaped.new.items) }
{
    if let Some(number) = number {
        set_named(shaped, t, number)?;
    }
    Ok(())
}

// Returns whether a type has a shape.
fn is_shaped(types: &TypeTree, shaped: &[Option<usize>], t: TypeId) -> bool
    ensures { result ≡ is_shaped_by types.now (read None shaped.now) t }
{
    shape_number(types, shaped, t).is_some()
}

/// Reads the shape of a class from its entry.
#[tactic(auto, unfolding(definition_format::specs::Denoted::Shapes::shaped_at))]
pub(crate) fn give_shape(
    part: Part<'_>,
    types: &TypeTree,
    shapes: &Shapes,
    shaped: &mut Vec<Option<usize>>,
    t: TypeId,
) -> Result<(), ReadError>
    ensures { Leads result (shaped_at (path_of part.entry.path) types.now (map plain_shape shapes.now.entries) t (read None shaped.old.items) (view part.entry.value.now)) (read None shaped.new.items) }
{
    let has_shape = is_shaped(types, shaped.as_slice(), t);
    let number = shape_named(part, shapes, has_shape)?;
    add_shape(shaped, t, number)?;
    Ok(())
}
