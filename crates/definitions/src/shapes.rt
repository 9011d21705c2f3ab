//! The shapes of a definition by their names, and the shapes of its classes.

ghost use Rattle.std.specs.Prelude.{◌≡◌, ◌<◌, IfSome, None, length, map};
ghost use Rattle.ui_machine.specs.Definition.Names.{place_named};
ghost use Rattle.ui_machine.specs.Seq.{read};
ghost use Rattle.definition_format.specs.Meaning.{plain_shape};
ghost use Rattle.definition_format.specs.Denoted.Shapes.{shape_by};

use indexmap::IndexMap;
use peer_shapes::Shape;
use type_tree::{TypeId, TypeTree};

/// Shapes in document order, by their names.
pub type Shapes = IndexMap<String, Shape>;

/// Returns the number of the shape with this name.
pub fn shape_of(shapes: &Shapes, name: &str) -> Option<usize>
    ensures { result ≡ place_named (λ s. s.name) (map plain_shape shapes.now.entries) name.now }
{
    shapes.get_index_of(name)
}

// Returns the number of the shape at an index, if one is there.
fn shape_at(shaped: &[Option<usize>], place: usize) -> Option<usize>
    ensures { result ≡ read None shaped.now place }
{
    if place < shaped.len() {
        shaped[place]
    } else {
        None
    }
}

/// Returns the number of a class's shape. The class itself names it, or else its nearest ancestor that names one. `shaped` has the shapes
/// that classes name, by class.
pub fn shape_number(types: &TypeTree, shaped: &[Option<usize>], class: TypeId) -> Option<usize>
    ensures { result ≡ shape_by types.now (read None shaped.now) class }
{
    let mut at = class;
    'line: loop {
        if let Some(shape) = shape_at(shaped, at.index()) {
            return Some(shape);
        }
        let Some(parent) = types.parent(at) else {
            return None;
        };
        at = parent;
    }
}
