//! The list of the peers that the host makes for a definition.

ghost use Rattle.std.specs.Prelude.{◌≡◌, ◌++◌, IfOk, OnOk, map};
ghost use Rattle.definitions.specs.EntryView.{entry_view};
ghost use Rattle.host_peers.specs.Stock.{kind_named, kind_of, stock_at, stock_of, stock_of_kind, stock_view};

use definitions::{Definition, ObjectEntry};
use std::alloc::{AllocError, Global};
use type_tree::TypeId;

/// The kind of a peer that the host makes.
#[derive(Clone, Copy, Debug, PartialEq, Eq)]
pub enum StockKind {
    Screen,
    Tally,
}

/// A peer to be made: its name and its kind.
#[derive(Clone, Copy)]
pub struct StockPeer<'a> {
    pub name: &'a str,
    pub kind: StockKind,
}

// Returns the kind of peer for a shape with this name: a screen for `Screen`, a tally for `Tally`, and `None` for other names.
fn kind_named(name: &str) -> Option<StockKind>
    ensures { result ≡ kind_named name.now }
{
    if name == "Screen" {
        Some(StockKind::Screen)
    } else if name == "Tally" {
        Some(StockKind::Tally)
    } else {
        None
    }
}

// Returns the kind of peer for the shape of a class. Returns `None` if the class has no shape, or one with another name.
fn kind_of(definition: &Definition, class: TypeId) -> Option<StockKind>
    ensures { result ≡ kind_of definition.now class }
{
    let number = definition.shape_number(class)?;
    let _shape = definition.shape(number)?;
    kind_named(definition.shape_name(number))
}

// Adds the peers of an object or prototype.
fn add_place<'a>(
    stock: &mut Vec<StockPeer<'a>>,
    definition: &'a Definition,
    entry: &ObjectEntry<'a>,
) -> Result<(), AllocError>
    ensures { OnOk result (map stock_view stock.new.items ≡ map stock_view stock.old.items ++ stock_at definition.now (entry_view entry.now)) }
{
    let Some(kind) = kind_of(definition, entry.class) else {
        return Ok(());
    };
    'names: for name in entry.peers {
        stock.push(StockPeer {
            name: name.as_str(),
            kind,
        })?;
    }
    Ok(())
}

// Adds the peers of all prototypes, or of all objects.
fn add_places<'a>(
    stock: &mut Vec<StockPeer<'a>>,
    definition: &'a Definition,
    is_prototype: bool,
) -> Result<(), AllocError>
    ensures { OnOk result (map stock_view stock.new.items ≡ map stock_view stock.old.items ++ stock_of_kind definition.now is_prototype definition.now.places) }
{
    'places: for place in 0..definition.place_count() {
        let Some(entry) = definition.object(place) else {
            unreachable!()
        };
        if entry.is_prototype == is_prototype {
            add_place(stock, definition, &entry)?;
        }
    }
    Ok(())
}

/// Lists the peers that the host makes for a definition: one for each name of a peer that a prototype names, and then that an object names,
/// in document order. The kind of each is given by the name of its class's shape. No peer is made if the class has no shape, or one with
/// another name.
///
/// # Errors
///
/// `AllocError` if memory is refused.
pub fn stock<'a>(
    alloc: Global,
    definition: &'a Definition,
) -> Result<Vec<StockPeer<'a>>, AllocError>
    ensures { IfOk result (λ stock. map stock_view stock.items ≡ stock_of definition.now) }
{
    let mut stock = Vec::new(alloc);
    add_places(&mut stock, definition, true)?;
    add_places(&mut stock, definition, false)?;
    Ok(stock)
}
