//! The names of the signals of classes, with the numbers that they have in them.

ghost use Rattle.std.specs.Prelude.{◌≡◌, ◌<◌, ◌≤◌, IfOk, IfSome, OnOk, length, take};
ghost use Rattle.ui_machine.specs.Definition.Names.{canonical};
ghost use Rattle.type_tree.specs.Tree.{IsTree};
ghost use Rattle.signal_core.specs.SignalRows.{HasSignals};
ghost use Rattle.name_tables.specs.Names.{number_of};
ghost use Rattle.name_tables.specs.Steps.{AddsAll, HasUpTo};
ghost use Rattle.definitions.specs.ClassNames.{dashed, signal_called};

use name_tables::NameTable;
use signal_core::{SignalRows, SignalTable};
use std::alloc::{AllocError, Global};
use type_tree::{TypeId, TypeTree, has_canonical_bytes};
use ui_machine::SignalId;

/// The longest name with a `_` that is looked up by its canonical spelling, in bytes. The names of a longer one are gone through, which costs
/// no more than a name of this length takes to read.
pub const MOST_SPELLED_BYTES: usize = 4096;

// Adds the names of a class's signals.
fn add_signals(
    names: &mut NameTable,
    types: &TypeTree,
    signals: &SignalTable,
    rows: &SignalRows,
    class: TypeId,
) -> Result<(), AllocError>
    requires rows { HasSignals types.now signals.now.signals rows.now }
    requires known { class < length types.now }
    ensures { OnOk result (AddsAll (number_of names.old) (number_of names.new) class (signal_called types.now signals.now.signals class)) }
{
    // For the proof: the number of signals of a class is limited.
    let _count = rows.count(class);
    let mut number: SignalId = 0;
    loop {
        let Some(signal) = signals.signal_in(rows, types, class, number) else {
            return Ok(());
        };
        names.add(class, signal.name, number)?;
        number += 1;
    }
}

/// Collects the names of the signals of all types, with their numbers.
///
/// # Errors
///
/// `AllocError` if memory is refused.
pub(crate) fn signal_names(
    alloc: Global,
    types: &TypeTree,
    signals: &SignalTable,
    rows: &SignalRows,
) -> Result<NameTable, AllocError>
    requires { HasSignals types.now signals.now.signals rows.now }
    ensures { IfOk result (λ names. HasUpTo (signal_called types.now signals.now.signals) (length types.now) (number_of names)) }
{
    // For the proof: a tree has few types.
    let _root = types.parent(TypeId::new(0));
    let mut names = NameTable::new(alloc);
    'classes: for class in 0..types.len() {
        add_signals(&mut names, types, signals, rows, TypeId::new(class as u16))?;
    }
    Ok(names)
}

/// Returns the number that a name has in a class, in the spelling in which it is given.
pub(crate) fn number_as_given(names: &NameTable, class: TypeId, name: &str) -> Option<u16>
    ensures { result ≡ number_of names.now class name.now }
{
    names.number(class, names.find(name)?)
}

/// Returns the number that a name has in a class, in any spelling. Returns `None` if the name has a `_` and is too long for its canonical
/// spelling to be made here.
pub(crate) fn number_in(names: &NameTable, class: TypeId, name: &str) -> Option<Option<u16>>
    ensures { IfSome result (λ number. number ≡ number_of names.now class (canonical name.now)) }
{
    if has_canonical_bytes(name) {
        return Some(number_as_given(names, class, name));
    }
    if name.len() > MOST_SPELLED_BYTES {
        return None;
    }
    let mut room = [0; MOST_SPELLED_BYTES];
    let spelled = spell(&mut room, name.as_bytes());
    let canonical = std::str::from_utf8(spelled).ok()?;
    Some(number_as_given(names, class, canonical))
}

// Writes the canonical spelling of a name, and returns it.
fn spell<'a>(room: &'a mut [u8], name: &[u8]) -> &'a [u8]
    requires { length name.now ≤ length room.old }
    ensures { result.now ≡ canonical name.now }
{
    'bytes: for at in 0..name.len() {
        room[at] = dashed(name[at]);
    }
    &room[..name.len()]
}

// Returns `-` for `_`, and any other byte unchanged.
fn dashed(byte: u8) -> u8
    ensures { result ≡ dashed byte }
{
    if byte == b'_' { b'-' } else { byte }
}
