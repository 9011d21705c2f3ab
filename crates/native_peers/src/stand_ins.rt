//! Placeholders for peers.

ghost use Rattle.std.specs.Prelude.{IsTrue, map};
ghost use Rattle.peer_shapes.specs.MethodViews.{is_plain_shape, method_view};

use peer_shapes::Method;

/// A peer whose calls are all faults, in place of one that the host does not have. An `Option` of it serves a session that has one peer or
/// none.
#[derive(Drop)]
pub struct StandIn {
    pub(crate) name: String,
    pub(crate) methods: Vec<Method>,
    pub(crate) is_callable: bool,
    // The number of calls, which is also the number of faults.
    pub(crate) calls: u64,
    ghost plain: { IsTrue (is_plain_shape (map method_view methods.items)) },
}
