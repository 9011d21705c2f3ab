//! The keys of connections. Connections with the same key may be at the same channels.

ghost use Rattle.std.specs.Prelude.{◌≡◌, ◌<◌, option_map, string_bytes};
ghost use Rattle.ui_machine.specs.Definition.Lookups.{slot_of};
ghost use Rattle.bytecode.specs.View.{register_kind_view};
ghost use Rattle.verify_starts.specs.Triggers.{member_key};
ghost use Rattle.verify_channels.specs.Connected.{connection_key, detail_key, place_key, signal_key};
ghost use Rattle.law_typing.specs.Rules.RegisterKinds.{class_at};

use bytecode::RegisterKind;
use type_tree::TypeId;
use ui_machine::{Place, SignalId};
use verify_operands::Lookups;

/// A type or a place, the sort of the connection, and the number of the signal or the slot of the property that the detail names.
pub type Key = (u16, u16, u16);

// Returns the number of a type.
fn number_of(t: TypeId) -> u16
    ensures { result ≡ t }
{
    t.index() as u16
}

// Returns the key of the property that a detail names.
fn property_key(
    lookups: &Lookups<'_>,
    x: u16,
    sort: u16,
    class: TypeId,
    detail: &str,
) -> Option<Key>
    ensures { result ≡ member_key x sort (slot_of lookups.now class detail.now) }
{
    match lookups.slot(class, detail) {
        Some(slot) => Some((x, sort, slot)),
        None => None,
    }
}

// Returns the key of a signal of a class. A detail only matters for `notify`.
fn signal_key(
    lookups: &Lookups<'_>,
    x: u16,
    sort: u16,
    class: TypeId,
    signal: &str,
    detail: &Option<String>,
) -> Option<Key>
    requires { sort < 65535 }
    ensures { result ≡ signal_key lookups.now x sort class signal.now (option_map string_bytes detail.now) }
{
    let Some(number) = lookups.signal_number(class, signal) else {
        return None;
    };
    if number > 0 {
        return Some((x, sort, number));
    }
    let Some(text) = detail else {
        return Some((x, sort, 0));
    };
    property_key(lookups, x, sort + 1, class, text.as_str())
}

// Returns the key of a signal of a place.
fn place_key(
    lookups: &Lookups<'_>,
    place: Place,
    signal: &str,
    detail: &Option<String>,
) -> Option<Key>
    ensures { result ≡ place_key lookups.now place.0 (class_at lookups.now place.0) signal.now (option_map string_bytes detail.now) }
{
    let Some(class) = lookups.class_at(place) else {
        return None;
    };
    signal_key(lookups, place.0, 2, class, signal, detail)
}

/// Returns the key of a connection to objects that a kind covers, or `None` if a name in it is not known.
pub fn connection_key(
    lookups: &Lookups<'_>,
    kind: &RegisterKind,
    signal: &str,
    detail: &Option<String>,
) -> Option<Key>
    ensures { result ≡ connection_key lookups.now (register_kind_view kind.now) signal.now (option_map string_bytes detail.now) }
{
    match *kind {
        RegisterKind::NotNull(t) => { signal_key(lookups, number_of(t), 0, t, signal, detail) }
        RegisterKind::At(place) => place_key(lookups, place, signal, detail),
        _ => None,
    }
}
