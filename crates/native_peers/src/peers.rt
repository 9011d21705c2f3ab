//! The trait of peers.

ghost use Rattle.std.specs.Prelude.{◌≡◌, IsTrue, map};
ghost use Rattle.g_values.specs.View.{value_view};
ghost use Rattle.ui_machine.specs.State.Peers.{PeerState};
ghost use Rattle.peer_shapes.specs.MethodViews.{is_plain_shape, method_view};
ghost use Rattle.native_peers.specs.Moves.{ArgsFit, Keeps, Relation, SameMoves, answer_of, closed};

use crate::faults::PeerFault;
use g_values::Value;
use peer_shapes::Method;

/// An object of the host. Contracts see its shape, whether it is open, and its calls and faults.
pub trait Peer: Drop {
    /// The state of the peer.
    ghost state: { Self → PeerState };

    /// The relation between a state, a call, the answer to it and the next state. It never changes.
    ghost moves: { Self → Relation };

    /// Returns the methods. All their kinds are plain.
    fn shape(&self) -> &[Method]
        ensures methods { map method_view result.now ≡ (state self.now).shape }
        ensures plain { IsTrue (is_plain_shape (state self.now).shape) };

    /// Returns whether the peer may be called.
    fn is_open(&self) -> bool
        ensures { result ≡ (state self.now).is_open };

    /// Calls the method with this number in the shape, with arguments of the method's kinds. The state changes as the relation says, also
    /// on a fault. Counts the call, and the fault if there is one, and returns a value of the method's result kind. A text has at most
    /// 4,096 bytes.
    ///
    /// # Errors
    ///
    /// Returns `PeerFault` if the peer answers no value.
    fn invoke(&mut self, method: usize, args: &[Value]) -> Result<Value, PeerFault>
        requires open { IsTrue (state self.now).is_open }
        requires args { ArgsFit (state self.now) method (map value_view args.now) }
        ensures moved { moves self.old (state self.old) method (map value_view args.now) (answer_of result) (state self.new) }
        ensures same_moves { SameMoves (moves self.old) (moves self.new) }
        ensures keeps { Keeps method (answer_of result) (state self.old) (state self.new) };

    /// Closes the peer. All else stays as it is.
    fn close(&mut self)
        requires { IsTrue (state self.now).is_open }
        ensures closed { state self.new ≡ closed (state self.old) }
        ensures same_moves { SameMoves (moves self.old) (moves self.new) };

    /// Returns how often the peer was called and how often it faulted, both modulo 2^64.
    fn counts(&self) -> (u64, u64)
        ensures { result ≡ ((state self.now).calls, (state self.now).faults) };
}
