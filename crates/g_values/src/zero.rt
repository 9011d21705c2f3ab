//! Zero values.

ghost use Rattle.std.specs.Prelude.{◌≡◌};
ghost use Rattle.ui_machine.specs.Rules.Transform.{zero_value};
ghost use Rattle.g_values.specs.View.{kind_view, value_view, value_kind, IsKnown};

use crate::kind::Kind;
use crate::members::first_number;
use crate::value::Value;
use type_tree::TypeTree;

/// Returns the zero value of a kind: false, 0, a null text, the first member of an enum, no bits of a flags type, or a null object.
pub fn zero_of(tree: &TypeTree, kind: Kind) -> Value
    requires { IsKnown tree.now kind }
    ensures value { value_view result ≡ zero_value tree.now (kind_view kind) }
    ensures kind { value_kind result ≡ kind_view kind }
{
    match kind {
        Kind::Bool => Value::Bool(false),
        Kind::Int => Value::Int(0),
        Kind::UInt => Value::UInt(0),
        Kind::Int64 => Value::Int64(0),
        Kind::UInt64 => Value::UInt64(0),
        Kind::Text => Value::Text(None),
        Kind::Enum(t) => Value::Enum(t, first_number(tree.enum_members(t))),
        Kind::Flags(t) => Value::Flags(t, 0),
        Kind::Object(t) => Value::Object(t, None),
    }
}
