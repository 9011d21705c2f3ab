//! Comparisons of kinds.

ghost use Rattle.std.specs.Prelude.{◌≡◌, map};
ghost use Rattle.ui_machine.specs.Definition.Kinds as kinds;
ghost use Rattle.ui_machine.specs.Rules.Transform.{same_kind};
ghost use Rattle.g_values.specs.View.{kind_view};
ghost use Rattle.law_peers.specs.Needs.{same_kinds};

use g_values::Kind;
use type_tree::TypeId;

// Returns whether a kind is the enum `t`.
fn is_enum(kind: Kind, t: TypeId) -> bool
    ensures { result ≡ same_kind (kinds.enum t) (kind_view kind) }
{
    match kind {
        Kind::Enum(u) => t.index() == u.index(),
        _ => false,
    }
}

// Returns whether a kind is the flags type `t`.
fn is_flags(kind: Kind, t: TypeId) -> bool
    ensures { result ≡ same_kind (kinds.flags t) (kind_view kind) }
{
    match kind {
        Kind::Flags(u) => t.index() == u.index(),
        _ => false,
    }
}

// Returns whether a kind is for objects of type `t`.
fn is_object(kind: Kind, t: TypeId) -> bool
    ensures { result ≡ same_kind (kinds.object t) (kind_view kind) }
{
    match kind {
        Kind::Object(u) => t.index() == u.index(),
        _ => false,
    }
}

// Returns whether two kinds are the same.
pub(crate) fn is_same_kind(left: Kind, right: Kind) -> bool
    ensures { result ≡ same_kind (kind_view left) (kind_view right) }
{
    match left {
        Kind::Bool => matches!(right, Kind::Bool),
        Kind::Int => matches!(right, Kind::Int),
        Kind::UInt => matches!(right, Kind::UInt),
        Kind::Int64 => matches!(right, Kind::Int64),
        Kind::UInt64 => matches!(right, Kind::UInt64),
        Kind::Text => matches!(right, Kind::Text),
        Kind::Enum(t) => is_enum(right, t),
        Kind::Flags(t) => is_flags(right, t),
        Kind::Object(t) => is_object(right, t),
    }
}

// Returns whether two lists have the same kinds in the same order.
pub(crate) fn is_same_list(left: &[Kind], right: &[Kind]) -> bool
    ensures { result ≡ same_kinds (map kind_view left.now) (map kind_view right.now) }
{
    if left.len() != right.len() {
        return false;
    }
    'kinds: for (k, kind) in left.iter().enumerate() {
        if !is_same_kind(*kind, right[k]) {
            return false;
        }
    }
    true
}
