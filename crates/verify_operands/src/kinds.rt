//! Functions on single kinds of registers and of values, which need no definition.

ghost use Rattle.std.specs.Prelude.{◌≡◌, IfOk};
ghost use Rattle.g_values.specs.View.{kind_view};
ghost use Rattle.bytecode.specs.View.{register_kind_view};
ghost use Rattle.ui_machine.specs.Definition.Kinds as kind_words;
ghost use Rattle.ui_machine.specs.Rules.Transform.{same_kind};
ghost use Rattle.ui_machine.specs.Seq.{write};
ghost use Rattle.law_typing.specs.Rules.RegisterKinds.{class_of_plain, is_at, is_at_or_null, is_never_null, is_plain, never_null};
ghost use Rattle.law_typing.specs.Rules.Typing.{is_bool, is_same, is_text, is_whole};
ghost use Rattle.verify_operands.specs.Views.{kinds_of};

use crate::lists::{copy, write};
use bytecode::{Register, RegisterKind};
use g_values::Kind;
use std::alloc::{AllocError, Global};
use type_tree::TypeId;

fn is_enum(kind: Kind, t: TypeId) -> bool
    ensures { result ≡ same_kind (kind_words.enum t) (kind_view kind) }
{
    match kind {
        Kind::Enum(u) => t.index() == u.index(),
        _ => false,
    }
}

fn is_flags(kind: Kind, t: TypeId) -> bool
    ensures { result ≡ same_kind (kind_words.flags t) (kind_view kind) }
{
    match kind {
        Kind::Flags(u) => t.index() == u.index(),
        _ => false,
    }
}

fn is_object(kind: Kind, t: TypeId) -> bool
    ensures { result ≡ same_kind (kind_words.object t) (kind_view kind) }
{
    match kind {
        Kind::Object(u) => t.index() == u.index(),
        _ => false,
    }
}

// Returns whether two kinds of values are the same.
fn is_same_kind(left: Kind, right: Kind) -> bool
    ensures { result ≡ same_kind (kind_view left) (kind_view right) }
{
    match left {
        Kind::Bool => matches!(right, Kind::Bool),
        Kind::Int => matches!(right, Kind::Int),
        Kind::UInt => matches!(right, Kind::UInt),
        Kind::Int64 => matches!(right, Kind::Int64),
        Kind::UInt64 => matches!(right, Kind::UInt64),
        Kind::Text => matches!(right, Kind::Text),
        Kind::Enum(t) => is_enum(right, t),
        Kind::Flags(t) => is_flags(right, t),
        Kind::Object(t) => is_object(right, t),
    }
}

/// Returns the class or interface that a kind of values names, or `None` if it is not one of objects.
pub fn class_of_plain(kind: Kind) -> Option<TypeId>
    ensures { result ≡ class_of_plain (kind_view kind) }
{
    match kind {
        Kind::Object(t) => Some(t),
        _ => None,
    }
}

/// Returns whether a register has this kind of values.
pub fn is_plain(kind: &RegisterKind, wanted: Kind) -> bool
    ensures { result ≡ is_plain (kind_view wanted) (register_kind_view kind.now) }
{
    match *kind {
        RegisterKind::Plain(kind) => is_same_kind(kind, wanted),
        _ => false,
    }
}

/// Returns whether two registers have the same kind of values.
pub fn is_same(left: &RegisterKind, right: &RegisterKind) -> bool
    ensures { result ≡ is_same (register_kind_view left.now) (register_kind_view right.now) }
{
    match *left {
        RegisterKind::Plain(kind) => is_left_of(kind, right),
        _ => false,
    }
}

// Returns whether a register has the kind of values `left`.
fn is_left_of(left: Kind, right: &RegisterKind) -> bool
    ensures { result ≡ is_same (kind_words.plain (kind_view left)) (register_kind_view right.now) }
{
    match *right {
        RegisterKind::Plain(kind) => is_same_kind(left, kind),
        _ => false,
    }
}

// Returns whether a kind is that of truth values.
fn is_truth(kind: Kind) -> bool
    ensures { result ≡ is_bool (kind_words.plain (kind_view kind)) }
{
    matches!(kind, Kind::Bool)
}

// Returns whether a kind is one of whole numbers.
fn is_number(kind: Kind) -> bool
    ensures { result ≡ is_whole (kind_words.plain (kind_view kind)) }
{
    matches!(kind, Kind::Int | Kind::UInt | Kind::Int64 | Kind::UInt64)
}

// Returns whether a kind is that of texts.
fn is_string(kind: Kind) -> bool
    ensures { result ≡ is_text (kind_words.plain (kind_view kind)) }
{
    matches!(kind, Kind::Text)
}

/// Returns whether a register has truth values.
pub fn is_bool(kind: &RegisterKind) -> bool
    ensures { result ≡ is_bool (register_kind_view kind.now) }
{
    match *kind {
        RegisterKind::Plain(kind) => is_truth(kind),
        _ => false,
    }
}

/// Returns whether a register has whole numbers.
pub fn is_whole(kind: &RegisterKind) -> bool
    ensures { result ≡ is_whole (register_kind_view kind.now) }
{
    match *kind {
        RegisterKind::Plain(kind) => is_number(kind),
        _ => false,
    }
}

/// Returns whether a register has texts.
pub fn is_text(kind: &RegisterKind) -> bool
    ensures { result ≡ is_text (register_kind_view kind.now) }
{
    match *kind {
        RegisterKind::Plain(kind) => is_string(kind),
        _ => false,
    }
}

/// Returns whether a register has an object that is never null.
pub fn is_never_null(kind: &RegisterKind) -> bool
    ensures { result ≡ is_never_null (register_kind_view kind.now) }
{
    matches!(*kind, RegisterKind::NotNull(_) | RegisterKind::At(_))
}

// Returns the kind of a register with this kind of values once null is ruled out.
fn never_null_plain(kind: Kind) -> RegisterKind
    ensures { register_kind_view result ≡ never_null (kind_words.plain (kind_view kind)) }
{
    match kind {
        Kind::Object(t) => RegisterKind::NotNull(t),
        _ => RegisterKind::Plain(kind),
    }
}

/// Returns the kind of a register once null is ruled out.
pub fn never_null(kind: RegisterKind) -> RegisterKind
    ensures { register_kind_view result ≡ never_null (register_kind_view kind) }
{
    match kind {
        RegisterKind::Plain(kind) => never_null_plain(kind),
        RegisterKind::AtOrNull(place) => RegisterKind::At(place),
        RegisterKind::Unset | RegisterKind::NotNull(_) | RegisterKind::At(_) => kind,
    }
}

/// Returns whether a register has the object at a place, never null.
pub fn is_at(kind: &RegisterKind, place: u16) -> bool
    ensures { result ≡ is_at place (register_kind_view kind.now) }
{
    match *kind {
        RegisterKind::At(c) => c.0 == place,
        _ => false,
    }
}

/// Returns whether a register has the object at a place or null.
pub fn is_at_or_null(kind: &RegisterKind, place: u16) -> bool
    ensures { result ≡ is_at_or_null place (register_kind_view kind.now) }
{
    match *kind {
        RegisterKind::AtOrNull(c) => c.0 == place,
        _ => false,
    }
}

/// Returns the kinds of registers with `kind` in place of that of the register `to`.
///
/// # Errors
///
/// `AllocError` if memory is refused.
#[tactic(auto, using(crate::proofs::Filled::write_seen))]
pub fn with_register(
    alloc: Global,
    kinds: &[RegisterKind],
    to: Register,
    kind: &RegisterKind,
) -> Result<Vec<RegisterKind>, AllocError>
    ensures { IfOk result (λ written. kinds_of written.items ≡ write kind_words.unset (kinds_of kinds.now) to.0 (register_kind_view kind.now)) }
{
    let mut written = copy(alloc, kinds)?;
    write(&mut written, to.0, *kind, RegisterKind::Unset)?;
    Ok(written)
}
