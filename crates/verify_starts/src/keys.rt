//! The keys of triggers. Triggers with the same key start the same.

ghost use Rattle.std.specs.Prelude.{◌≡◌, option_map};
ghost use Rattle.bytecode.specs.View.{register_kind_view};
ghost use Rattle.definition_format.specs.Meaning.{place_number};
ghost use Rattle.law_typing.specs.Graph.{number_for};
ghost use Rattle.ui_machine.specs.Definition.Lookups.{slot_of};
ghost use Rattle.ui_machine.specs.Rules.Connections.{signal_number};
ghost use Rattle.law_typing.specs.Rules.RegisterKinds.{class_at};
ghost use Rattle.verify_starts.specs.Triggers.{key_for, making_key, member_key, property_key, signal_key, thaw_key, trigger_view};

use crate::triggers::Trigger;
use bytecode::RegisterKind;
use type_tree::TypeId;
use ui_machine::{Place, SignalId, Slot};
use verify_operands::Lookups;

/// A type or a place, the sort of the trigger, and the slot or number of what is started in the type or in the class of the place.
pub type Key = (u16, u16, u16);

// Returns the number of a type.
fn number_of(t: TypeId) -> u16
    ensures { result ≡ t }
{
    t.index() as u16
}

// Returns the key of a member, if its number is known.
fn member_key(x: u16, sort: u16, number: Option<u16>) -> Option<Key>
    ensures { result ≡ member_key x sort number }
{
    match number {
        Some(number) => Some((x, sort, number)),
        None => None,
    }
}

// Returns the slot of the property with this name of a place.
fn slot_at(lookups: &Lookups<'_>, place: Place, name: &str) -> Option<Slot>
    ensures { result ≡ number_for (λ class. slot_of lookups.now class name.now) (class_at lookups.now place.0) }
{
    match lookups.class_at(place) {
        Some(class) => lookups.slot(class, name),
        None => None,
    }
}

// Returns the number of the signal with this name of a place.
fn signal_at(lookups: &Lookups<'_>, place: Place, name: &str) -> Option<SignalId>
    ensures { result ≡ number_for (λ class. signal_number lookups.now class name.now) (class_at lookups.now place.0) }
{
    match lookups.class_at(place) {
        Some(class) => lookups.signal_number(class, name),
        None => None,
    }
}

/// Returns the key of the property with this name, for the objects that a kind covers.
pub fn property_key(lookups: &Lookups<'_>, kind: &RegisterKind, name: &str) -> Option<Key>
    ensures { result ≡ property_key lookups.now (register_kind_view kind.now) name.now }
{
    match *kind {
        RegisterKind::NotNull(t) => member_key(number_of(t), 0, lookups.slot(t, name)),
        RegisterKind::At(place) => member_key(place.0, 1, slot_at(lookups, place, name)),
        _ => None,
    }
}

/// Returns the key of the signal with this name, for the objects that a kind covers.
pub fn signal_key(lookups: &Lookups<'_>, kind: &RegisterKind, name: &str) -> Option<Key>
    ensures { result ≡ signal_key lookups.now (register_kind_view kind.now) name.now }
{
    match *kind {
        RegisterKind::NotNull(t) => member_key(number_of(t), 2, lookups.signal_number(t, name)),
        RegisterKind::At(place) => member_key(place.0, 3, signal_at(lookups, place, name)),
        _ => None,
    }
}

// Returns the key of an object that is made.
fn making_key(place: Option<Place>) -> Option<Key>
    ensures { result ≡ making_key (place_number place) }
{
    match place {
        Some(place) => Some((place.0, 4, 0)),
        None => None,
    }
}

// Returns the key of a thaw.
fn thaw_key(kind: &RegisterKind) -> Option<Key>
    ensures { result ≡ thaw_key (register_kind_view kind.now) }
{
    match *kind {
        RegisterKind::NotNull(t) => Some((number_of(t), 5, 0)),
        RegisterKind::At(place) => Some((place.0, 6, 0)),
        _ => None,
    }
}

/// Returns the key of a trigger, or `None` if a name in it is not known.
pub fn key_for(lookups: &Lookups<'_>, trigger: &Trigger<'_>) -> Option<Key>
    ensures { result ≡ key_for lookups.now (trigger_view trigger.now) }
{
    match *trigger {
        Trigger::Idle => None,
        Trigger::Property { kind, name } => property_key(lookups, &kind, name),
        Trigger::Signal { kind, name } => signal_key(lookups, &kind, name),
        Trigger::Making(place) => making_key(place),
        Trigger::Thaw(kind) => thaw_key(&kind),
    }
}
