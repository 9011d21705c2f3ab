//! Reads the shapes of a definition, which are the methods that peers are called with.

ghost use Rattle.std.specs.Prelude.{◌≡◌, ◌∷◌, ◌++◌, [], codes, is_some, map, option_and_then, option_map, string_bytes, false, IfOk};
ghost use Rattle.json_trees.specs.View.{view, items_view};
ghost use Rattle.serde_json.specs.Find.{get, as_array, as_str};
ghost use Rattle.ui_machine.specs.Definition.Names.{place_named};
ghost use Rattle.g_values.specs.View.{kind_view};
ghost use Rattle.peer_shapes.specs.MethodViews.{method_view};
ghost use Rattle.definition_format.specs.Meaning.{plain_shape};
ghost use Rattle.definition_format.specs.Refusals.{Gives, Leads, or_refused, shape};
ghost use Rattle.definition_format.specs.Document.{path_of, under, each, at_entry};
ghost use Rattle.definition_format.specs.Denoted.Kinds.{kind_named};
ghost use Rattle.definition_format.specs.Denoted.Names.{unless_taken};
ghost use Rattle.definition_format.specs.Denoted.Shapes.{has_method, method_at, method_in, methods_at, plain_kind_at, plain_param_at, plain_params_at, shape_at, shape_in, shape_number};

use definition_format::{DefinitionFault, ReadError};
use definitions::shapes::{Shapes, shape_of};
use g_values::Kind;
use json_trees::Value;
use peer_shapes::{Method, Shape};
use read_parts::document::{Entries, Part, bad_shape, bad_shape_at, path_under};
use read_parts::kinds::kind_named;
use read_parts::names::is_name;
use read_parts::reads::{Reads, read_each};

const MEMBERS: [&str; 2] = ["name", "methods"];

const MEMBERS_OF_METHOD: [&str; 3] = ["name", "params", "result"];

// Returns the kind that a value names, or `None` if it is not one that peers take and answer.
fn plain_kind_in(value: &Value) -> Option<Kind>
    ensures { option_map kind_view result ≡ option_and_then kind_named (as_str (view value.now)) }
{
    let word = value.as_str()?;
    kind_named(word)
}

// Reads the kind of an entry and adds it to those before.
#[tactic(auto, unfolding(definition_format::specs::Denoted::Shapes::plain_param_at), using(std::proofs::lemmas::List::map_push))]
fn read_param(part: Part<'_>, params: &mut Vec<Kind>) -> Result<(), ReadError>
    ensures { Leads result (plain_param_at (path_of part.entry.path) (map kind_view params.old.items) (view part.entry.value.now)) (map kind_view params.new.items) }
{
    let Some(kind) = plain_kind_in(part.value) else {
        return Err(bad_shape_at(part, None)?);
    };
    params.push(kind)?;
    Ok(())
}

// The reader for the kinds of a method's arguments.
#[derive(Clone, Copy)]
struct ParamEntries;

impl Reads<Vec<Kind>> for ParamEntries {
    ghost use Rattle.std.specs.Prelude.{List, map};
    ghost use Rattle.ui_machine.specs.Definition.Kinds as kinds;
    ghost use Rattle.g_values.specs.View.{kind_view};
    ghost use Rattle.definition_format.specs.Denoted.Shapes.{plain_param_at};

    ghost State = { List kinds.Kind };

    ghost seen = { λ params. map kind_view params.items };

    ghost Unchanged = { Unit {0} };

    ghost kept = { λ params. tt };

    ghost known = { λ r. Unit {0} };

    ghost step = { λ r path params d. plain_param_at path params d };

    fn read(&self, part: Part<'_>, params: &mut Vec<Kind>) -> Result<(), ReadError> {
        read_param(part, params)
    }
}

// Reads the kinds of a list.
fn read_params(list: Entries<'_>) -> Result<Vec<Kind>, ReadError>
    ensures { Gives (λ v. map kind_view v.items) result (each (at_entry plain_param_at list.entry.path.now) 0 [] (items_view list.entry.items.now)) }
{
    let mut params = Vec::new(list.alloc);
    read_each(&ParamEntries, list, &mut params)?;
    Ok(params)
}

// Reads `params`, the kinds of a method's arguments.
#[tactic(auto, unfolding(definition_format::specs::Denoted::Shapes::plain_params_at))]
fn params_of(part: Part<'_>) -> Result<Vec<Kind>, ReadError>
    ensures { Gives (λ v. map kind_view v.items) result (plain_params_at (path_of part.entry.path) (view part.entry.value.now)) }
{
    let items = part.entries("params")?;
    let path = path_under(part.alloc, part.path, "params")?;
    let list = Entries {
        alloc: part.alloc,
        path: path.as_str(),
        items,
    };
    let params = read_params(list)?;
    Ok(params)
}

// Returns the kind that `result` names, or `None` if it is not one that peers answer.
fn result_in(value: &Value) -> Option<Kind>
    ensures { option_map kind_view result ≡ option_and_then kind_named (option_and_then as_str (get (codes "result") (view value.now))) }
{
    let result = value.get("result")?;
    plain_kind_in(result)
}

// Reads `result`, the kind of a method's result.
fn result_of(part: Part<'_>) -> Result<Kind, ReadError>
    ensures { Gives kind_view result (plain_kind_at (under (path_of part.entry.path) (codes "result")) (get (codes "result") (view part.entry.value.now))) }
{
    match result_in(part.value) {
        Some(kind) => Ok(kind),
        None => Err(bad_shape(part.alloc, part.path, "result")?),
    }
}

// Checks that a name is valid and not taken.
fn check_name(part: Part<'_>, name: &str, is_taken: bool) -> Result<(), ReadError>
    ensures name { Gives (λ _. tt) result (unless_taken (under (path_of part.entry.path) (codes "name")) name.now is_taken) }
    ensures new { IfOk result (λ _. is_taken ≡ false) }
{
    if !is_name(name) {
        return Err(bad_shape(part.alloc, part.path, "name")?);
    }
    if is_taken {
        return Err(ReadError::Refused(DefinitionFault::Duplicate(path_under(
            part.alloc, part.path, "name",
        )?)));
    }
    Ok(())
}

// Returns whether a shape has a method of this name.
fn has_method(methods: &Shape, name: &str) -> bool
    ensures { result ≡ has_method methods.now name.now }
{
    methods.find(name).is_some()
}

// Reads a method that is not in `methods` yet from an entry.
#[tactic(auto, unfolding(definition_format::specs::Denoted::Shapes::method_in))]
fn method_in(part: Part<'_>, methods: &Shape) -> Result<Method, ReadError>
    ensures method { Gives method_view result (method_in (path_of part.entry.path) methods.now (view part.entry.value.now)) }
    ensures new { IfOk result (λ m. has_method methods.now (string_bytes m.name) ≡ false) }
{
    let members = part.members()?;
    let name = part.text("name")?;
    check_name(part, name, has_method(methods, name))?;
    let params = params_of(part)?;
    let answer = result_of(part)?;
    part.check_only(members, &MEMBERS_OF_METHOD)?;
    let name = String::from_str(part.alloc, name)?;
    Ok(Method {
        name,
        params,
        result: answer,
    })
}

// Reads the method of an entry and adds it to those before.
#[tactic(auto, unfolding(definition_format::specs::Denoted::Shapes::method_at))]
fn read_method(part: Part<'_>, methods: &mut Shape) -> Result<(), ReadError>
    ensures { Leads result (method_at (path_of part.entry.path) methods.old (view part.entry.value.now)) methods.new }
{
    let method = method_in(part, methods)?;
    methods.add(method)?;
    Ok(())
}

// The reader for the methods of a shape.
#[derive(Clone, Copy)]
struct MethodEntries;

impl Reads<Shape> for MethodEntries {
    ghost use Rattle.std.specs.Prelude.{List};
    ghost use Rattle.ui_machine.specs.Definition.Signals as machine;
    ghost use Rattle.definition_format.specs.Denoted.Shapes.{method_at};

    ghost State = { List machine.Method };

    ghost seen = { λ methods. methods };

    ghost Unchanged = { Unit {0} };

    ghost kept = { λ methods. tt };

    ghost known = { λ r. Unit {0} };

    ghost step = { λ r path methods d. method_at path methods d };

    fn read(&self, part: Part<'_>, methods: &mut Shape) -> Result<(), ReadError> {
        read_method(part, methods)
    }
}

// Reads the methods of a list.
fn read_methods(list: Entries<'_>) -> Result<Shape, ReadError>
    ensures { Gives (λ s. s) result (each (at_entry method_at list.entry.path.now) 0 [] (items_view list.entry.items.now)) }
{
    let mut methods = Shape::new(list.alloc);
    read_each(&MethodEntries, list, &mut methods)?;
    Ok(methods)
}

// Returns the entries of `methods`, or `None` if it is no list.
fn listed_methods(value: &Value) -> Option<&[Value]>
    ensures { option_map (λ s. items_view s.now) result ≡ option_and_then as_array (get (codes "methods") (view value.now)) }
{
    let list = value.get("methods")?;
    let items = list.as_array()?;
    Some(items.as_slice())
}

// Returns the entries of `methods`, which must be a list.
fn method_entries<'a>(part: Part<'a>) -> Result<&'a [Value], ReadError>
    ensures { Gives (λ s. items_view s.now) result (or_refused (shape (under (path_of part.entry.path) (codes "methods"))) (option_and_then as_array (get (codes "methods") (view part.entry.value.now)))) }
{
    match listed_methods(part.value) {
        Some(items) => Ok(items),
        None => Err(bad_shape(part.alloc, part.path, "methods")?),
    }
}

// Reads the methods of a shape.
#[tactic(auto, unfolding(definition_format::specs::Denoted::Shapes::methods_at))]
fn methods_of(part: Part<'_>) -> Result<Shape, ReadError>
    ensures { Gives (λ s. s) result (methods_at (path_of part.entry.path) (view part.entry.value.now)) }
{
    let items = method_entries(part)?;
    let path = path_under(part.alloc, part.path, "methods")?;
    let list = Entries {
        alloc: part.alloc,
        path: path.as_str(),
        items,
    };
    let methods = read_methods(list)?;
    Ok(methods)
}

// Returns whether there is a shape of this name.
fn has_shape(shapes: &Shapes, name: &str) -> bool
    ensures { result ≡ is_some (shape_number (map plain_shape shapes.now.entries) name.now) }
{
    shape_of(shapes, name).is_some()
}

// A shape that is not added yet, and its name.
#[derive(Drop)]
struct NewShape {
    name: String,
    methods: Shape,
}

// Reads a shape that is not in `shapes` yet from an entry.
#[tactic(auto, unfolding(definition_format::specs::Denoted::Shapes::shape_in))]
fn shape_in(part: Part<'_>, shapes: &Shapes) -> Result<NewShape, ReadError>
    ensures read { Gives (λ n. plain_shape (n.name, n.methods)) result (shape_in (path_of part.entry.path) (map plain_shape shapes.now.entries) (view part.entry.value.now)) }
    ensures new { IfOk result (λ n. is_some (shape_number (map plain_shape shapes.now.entries) (string_bytes n.name)) ≡ false) }
{
    let members = part.members()?;
    let name = part.text("name")?;
    check_name(part, name, has_shape(shapes, name))?;
    let methods = methods_of(part)?;
    part.check_only(members, &MEMBERS)?;
    let name = String::from_str(part.alloc, name)?;
    Ok(NewShape { name, methods })
}

// Reads the shape of an entry and adds it to those before.
fn read_shape(part: Part<'_>, shapes: &mut Shapes) -> Result<(), ReadError>
    ensures { Leads result (shape_at (path_of part.entry.path) (map plain_shape shapes.old.entries) (view part.entry.value.now)) (map plain_shape shapes.new.entries) }
{
    let new = shape_in(part, shapes)?;
    shapes.insert(new.name, new.methods)?;
    Ok(())
}

// The reader for the entries of the shapes.
#[derive(Clone, Copy)]
struct ShapeEntries;

impl Reads<Shapes> for ShapeEntries {
    ghost use Rattle.std.specs.Prelude.{List, map};
    ghost use Rattle.ui_machine.specs.Definition.Signals as machine;
    ghost use Rattle.definition_format.specs.Meaning.{plain_shape};
    ghost use Rattle.definition_format.specs.Denoted.Shapes.{shape_at};

    ghost State = { List machine.Shape };

    ghost seen = { λ shapes. map plain_shape shapes.entries };

    ghost Unchanged = { Unit {0} };

    ghost kept = { λ shapes. tt };

    ghost known = { λ r. Unit {0} };

    ghost step = { λ r path shapes d. shape_at path shapes d };

    fn read(&self, part: Part<'_>, shapes: &mut Shapes) -> Result<(), ReadError> {
        read_shape(part, shapes)
    }
}

/// Reads the shapes of a list.
///
/// # Errors
///
/// Returns `Refused` with the first fault in document order, or `OutOfMemory` if memory is refused.
pub fn read_shapes(list: Entries<'_>) -> Result<Shapes, ReadError>
    ensures { Gives (λ v. map plain_shape v.entries) result (each (at_entry shape_at list.entry.path.now) 0 [] (items_view list.entry.items.now)) }
{
    let mut shapes = Shapes::new(list.alloc);
    read_each(&ShapeEntries, list, &mut shapes)?;
    Ok(shapes)
}
