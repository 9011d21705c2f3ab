//! Comparisons of shapes.

ghost use Rattle.std.specs.Prelude.{◌≡◌, map};
ghost use Rattle.law_peers.specs.Needs.{same_method, same_shape};
ghost use Rattle.g_values.specs.View.{kind_view};
ghost use Rattle.peer_shapes.specs.MethodViews.{method_view};

use crate::kinds::{is_same_kind, is_same_list};
use g_values::Kind;
use peer_shapes::{Method, Shape};

// Returns whether a method has this name and these kinds.
#[tactic(auto, using(g_values::proofs::Texts::same_bytes))]
fn is_method(name: &str, params: &[Kind], answer: Kind, method: &Method) -> bool
    ensures { result ≡ same_method (record { name = name.now; params = map kind_view params.now; result = kind_view answer }) (method_view method.now) }
{
    name == method.name.as_str()
        && is_same_list(params, &method.params)
        && is_same_kind(answer, method.result)
}

/// Returns whether a shape has exactly these methods, in this order.
pub fn is_same_shape(left: &Shape, right: &[Method]) -> bool
    ensures { result ≡ same_shape left.now (map method_view right.now) }
{
    if left.len() != right.len() {
        return false;
    }
    'methods: for (k, method) in right.iter().enumerate() {
        let Some(own) = left.method(k) else {
            return false;
        };
        if !is_method(own.name, own.params, own.result, method) {
            return false;
        }
    }
    true
}
