//! Tests of whether the kind of a register fits what is wanted.

ghost use Rattle.std.specs.Prelude.{◌≡◌, ◌||◌, Some, is_some};
ghost use Rattle.g_values.specs.View.{kind_view};
ghost use Rattle.bytecode.specs.View.{register_kind_view};
ghost use Rattle.law_typing.specs.Rules.RegisterKinds.{class_of_kind, class_of_plain, fits, holds_objects, is_at, is_at_or_null, is_of_class, is_plain, kinds_fit};
ghost use Rattle.verify_operands.specs.Views.{kinds_of};

use crate::kinds::{class_of_plain, is_at, is_at_or_null, is_never_null, is_plain};
use crate::lookups::Lookups;
use crate::operands::kind_in;
use bytecode::{Register, RegisterKind};
use g_values::Kind;
use type_tree::TypeId;

/// Returns the class or interface of a register's objects, or `None` if the register does not have objects.
pub fn class_of_kind(lookups: &Lookups<'_>, kind: &RegisterKind) -> Option<TypeId>
    ensures { result ≡ class_of_kind lookups.now (register_kind_view kind.now) }
{
    match *kind {
        RegisterKind::Unset => None,
        RegisterKind::Plain(kind) => class_of_plain(kind),
        RegisterKind::NotNull(t) => Some(t),
        RegisterKind::At(place) => lookups.class_at(place),
        RegisterKind::AtOrNull(place) => lookups.class_at(place),
    }
}

/// Returns whether a register has objects.
pub fn holds_objects(lookups: &Lookups<'_>, kind: &RegisterKind) -> bool
    ensures { result ≡ holds_objects lookups.now (register_kind_view kind.now) }
{
    class_of_kind(lookups, kind).is_some()
}

// Returns whether a register has objects of a type.
fn is_of_class(lookups: &Lookups<'_>, kind: &RegisterKind, t: TypeId) -> bool
    ensures { result ≡ is_of_class lookups.now (register_kind_view kind.now) (Some t) }
{
    match class_of_kind(lookups, kind) {
        Some(class) => lookups.is_a(class, t),
        None => false,
    }
}

// Returns whether a register has objects of the type that a kind of values names.
fn is_of_kind(lookups: &Lookups<'_>, kind: &RegisterKind, wanted: Kind) -> bool
    ensures { result ≡ is_of_class lookups.now (register_kind_view kind.now) (class_of_plain (kind_view wanted)) }
{
    match class_of_plain(wanted) {
        Some(t) => is_of_class(lookups, kind, t),
        None => false,
    }
}

// Returns whether a register may be used where the object at a place or null is wanted.
fn fits_place(kind: &RegisterKind, place: u16) -> bool
    ensures { result ≡ (is_at place (register_kind_view kind.now) || is_at_or_null place (register_kind_view kind.now)) }
{
    is_at(kind, place) || is_at_or_null(kind, place)
}

/// Returns whether a register may be used where this kind of values is wanted.
pub fn fits_plain(lookups: &Lookups<'_>, kind: &RegisterKind, wanted: &Kind) -> bool
    ensures { result ≡ (is_plain (kind_view wanted.now) (register_kind_view kind.now)
        || is_of_class lookups.now (register_kind_view kind.now) (class_of_plain (kind_view wanted.now))) }
{
    is_plain(kind, *wanted) || is_of_kind(lookups, kind, *wanted)
}

/// Returns whether a register of kind `kind` may be used where `wanted` is wanted.
pub fn fits(lookups: &Lookups<'_>, kind: &RegisterKind, wanted: &RegisterKind) -> bool
    ensures { result ≡ fits lookups.now (register_kind_view kind.now) (register_kind_view wanted.now) }
{
    match *wanted {
        RegisterKind::Unset => true,
        RegisterKind::Plain(plain) => fits_plain(lookups, kind, &plain),
        RegisterKind::NotNull(t) => is_never_null(kind) && is_of_class(lookups, kind, t),
        RegisterKind::At(place) => is_at(kind, place.0),
        RegisterKind::AtOrNull(place) => fits_place(kind, place.0),
    }
}

/// Returns whether each register fits the kind that is wanted of it.
pub fn kinds_fit(lookups: &Lookups<'_>, kinds: &[RegisterKind], wanted: &[RegisterKind]) -> bool
    ensures { result ≡ kinds_fit lookups.now (kinds_of kinds.now) (kinds_of wanted.now) }
{
    for number in 0..wanted.len() {
        let kind = kind_in(kinds, Register(number));
        if !fits(lookups, &kind, &wanted[number]) {
            return false;
        }
    }
    true
}
