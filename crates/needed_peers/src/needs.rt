//! The peers that a definition needs of a pool.

ghost use Rattle.std.specs.Prelude.{◌≡◌, ◌++◌, IfOk, OnOk, map, option_map};
ghost use Rattle.ui_machine.specs.Rules.Construction.{nearest_shape};
ghost use Rattle.definitions.specs.EntryView.{entry_view};
ghost use Rattle.law_peers.specs.Needs.{methods_in, needs_at, needs_of};
ghost use Rattle.native_peers.specs.Matching.{need_view};
ghost use Rattle.needed_peers.specs.Needing.{needs_of_kind};

use definitions::{Definition, ObjectEntry};
use native_peers::Need;
use peer_shapes::Shape;
use std::alloc::{AllocError, Global};
use type_tree::TypeId;

// Returns the methods of the shape of a class, if the class has one.
fn shape_of(definition: &Definition, class: TypeId) -> Option<&Shape>
    ensures { option_map (λ s. s.now) result ≡ methods_in definition.now (nearest_shape definition.now class) }
{
    let number = definition.shape_number(class)?;
    definition.shape(number)
}

// Adds the needs of a place.
fn add_place<'a>(
    needs: &mut Vec<Need<'a>>,
    definition: &'a Definition,
    entry: &ObjectEntry<'a>,
) -> Result<(), AllocError>
    ensures { OnOk result (map need_view needs.new.items ≡ map need_view needs.old.items ++ needs_at definition.now (entry_view entry.now)) }
{
    let shape = shape_of(definition, entry.class);
    'names: for name in entry.peers {
        needs.push(Need {
            name: name.as_str(),
            shape,
        })?;
    }
    Ok(())
}

// Adds the needs of all prototypes, or of all objects.
fn add_places<'a>(
    needs: &mut Vec<Need<'a>>,
    definition: &'a Definition,
    is_prototype: bool,
) -> Result<(), AllocError>
    ensures { OnOk result (map need_view needs.new.items ≡ map need_view needs.old.items ++ needs_of_kind definition.now is_prototype definition.now.places) }
{
    'places: for place in 0..definition.place_count() {
        let Some(entry) = definition.object(place) else {
            unreachable!()
        };
        if entry.is_prototype == is_prototype {
            add_place(needs, definition, &entry)?;
        }
    }
    Ok(())
}

/// Returns what a definition needs: the peers that its prototypes name, and then those that its objects name, in document order, each with
/// the methods of its class's shape.
///
/// # Errors
///
/// `AllocError` if memory is refused.
pub fn needs<'a>(alloc: Global, definition: &'a Definition) -> Result<Vec<Need<'a>>, AllocError>
    ensures { IfOk result (λ needs. map need_view needs.items ≡ needs_of definition.now) }
{
    let mut needs = Vec::new(alloc);
    add_places(&mut needs, definition, true)?;
    add_places(&mut needs, definition, false)?;
    Ok(needs)
}
