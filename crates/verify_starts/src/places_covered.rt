//! The places whose objects a register of some kind may hold.

ghost use Rattle.std.specs.Prelude.{◌≡◌, ◌++◌, ◌∷◌, [], IfOk, OnOk};
ghost use Rattle.std.specs.List.{filter};
ghost use Rattle.ui_machine.specs.Definition.Kinds.{plain, some};
ghost use Rattle.g_values.specs.View.{kind_view};
ghost use Rattle.bytecode.specs.View.{register_kind_view};
ghost use Rattle.law_typing.specs.Rules.RegisterKinds.{covers, places};
ghost use Rattle.verify_starts.specs.Covering.{covering, covering_plain};

use bytecode::RegisterKind;
use g_values::Kind;
use std::alloc::{AllocError, Global};
use type_tree::TypeId;
use ui_machine::Place;
use verify_operands::Lookups;
use verify_operands::fits::fits;
use verify_operands::kinds::class_of_plain;

// Returns the kind that covers the same places as a kind of values, with an object that is not null, or unset if it has no objects.
fn covering_plain(kind: Kind) -> RegisterKind
    ensures { register_kind_view result ≡ covering_plain (kind_view kind) }
{
    match kind {
        Kind::Object(t) => RegisterKind::NotNull(t),
        _ => RegisterKind::Unset,
    }
}

/// Returns the kind that covers the same places, with an object that is not null.
pub fn covering(kind: &RegisterKind) -> RegisterKind
    ensures { register_kind_view result ≡ covering (register_kind_view kind.now) }
{
    match *kind {
        RegisterKind::Unset => RegisterKind::Unset,
        RegisterKind::Plain(kind) => covering_plain(kind),
        RegisterKind::NotNull(t) => RegisterKind::NotNull(t),
        RegisterKind::At(place) => RegisterKind::At(place),
        RegisterKind::AtOrNull(place) => RegisterKind::At(place),
    }
}

// Returns whether the object at a place is one of a type.
fn is_of(lookups: &Lookups<'_>, place: Place, t: TypeId) -> bool
    ensures { result ≡ covers lookups.now (some t) place.0 }
{
    fits(lookups, &RegisterKind::At(place), &RegisterKind::NotNull(t))
}

// Returns whether a register with a kind of values may hold the object at a place.
fn is_of_plain(lookups: &Lookups<'_>, place: Place, kind: Kind) -> bool
    ensures { result ≡ covers lookups.now (plain (kind_view kind)) place.0 }
{
    match class_of_plain(kind) {
        Some(t) => is_of(lookups, place, t),
        None => false,
    }
}

/// Returns whether a register of this kind may hold the object at a place.
pub fn is_covered(lookups: &Lookups<'_>, kind: &RegisterKind, place: Place) -> bool
    ensures { result ≡ covers lookups.now (register_kind_view kind.now) place.0 }
{
    match *kind {
        RegisterKind::Unset => false,
        RegisterKind::Plain(kind) => is_of_plain(lookups, place, kind),
        RegisterKind::NotNull(t) => is_of(lookups, place, t),
        RegisterKind::At(c) => c.0 == place.0,
        RegisterKind::AtOrNull(c) => c.0 == place.0,
    }
}

// Adds a place if the kind covers it.
fn add_covered(
    covered: &mut Vec<u32>,
    lookups: &Lookups<'_>,
    kind: &RegisterKind,
    place: Place,
) -> Result<(), AllocError>
    ensures { OnOk result (covered.new.items ≡ covered.old.items ++ filter (covers lookups.now (register_kind_view kind.now)) (place.0 ∷ [])) }
{
    if !is_covered(lookups, kind, place) {
        return Ok(());
    }
    covered.push(u32::from(place.0))?;
    Ok(())
}

/// Returns the places whose objects a register of this kind may hold.
///
/// # Errors
///
/// `AllocError` if memory is refused.
pub fn places_covered(
    alloc: Global,
    lookups: &Lookups<'_>,
    kind: &RegisterKind,
) -> Result<Vec<u32>, AllocError>
    ensures { IfOk result (λ covered. covered.items ≡ places lookups.now (register_kind_view kind.now)) }
{
    let mut covered = Vec::new(alloc);
    for place in 0..lookups.definition().place_count() {
        add_covered(&mut covered, lookups, kind, Place(place as u16))?;
    }
    Ok(covered)
}
