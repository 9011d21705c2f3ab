//! Equality of values.

ghost use Rattle.std.specs.Prelude.{◌≡◌, option_map};
ghost use Rattle.std.specs.Rc.{rc_str_bytes};
ghost use Rattle.ui_machine.specs.Definition.Names.{same_name};
ghost use Rattle.ui_machine.specs.Rules.Transform.{same_value, same_text};
ghost use Rattle.g_values.specs.View.{value_view};

use crate::value::Value;
use std::rc::RcStr;

/// Returns whether two values are of one kind and have the same content. Objects are compared by their identity alone, whatever their
/// declared types.
pub fn is_same(left: &Value, right: &Value) -> bool
    ensures { result ≡ same_value (value_view left.now) (value_view right.now) }
{
    match (left, right) {
        (Value::Bool(a), Value::Bool(b)) => a == b,
        (Value::Int(m), Value::Int(n)) => m == n,
        (Value::UInt(m), Value::UInt(n)) => m == n,
        (Value::Int64(m), Value::Int64(n)) => m == n,
        (Value::UInt64(m), Value::UInt64(n)) => m == n,
        (Value::Text(a), Value::Text(b)) => is_same_text(a, b),
        (Value::Enum(t, m), Value::Enum(u, n)) => t == u && m == n,
        (Value::Flags(t, a), Value::Flags(u, b)) => t == u && a == b,
        (Value::Object(_, a), Value::Object(_, b)) => a == b,
        _ => false,
    }
}

// Returns whether two texts are equal or both null.
#[tactic(auto, using(crate::proofs::Texts::same_bytes))]
fn is_same_text(left: &Option<RcStr>, right: &Option<RcStr>) -> bool
    ensures { result ≡ same_text (option_map rc_str_bytes left.now) (option_map rc_str_bytes right.now) }
{
    match (left, right) {
        (Some(a), Some(b)) => a.as_str() == b.as_str(),
        (None, None) => true,
        _ => false,
    }
}
