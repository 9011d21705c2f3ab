//! A peer of a pool together with its name.

ghost use Rattle.std.specs.Prelude.{◌≡◌, IsTrue, map};
ghost use Rattle.g_values.specs.View.{value_view};
ghost use Rattle.peer_shapes.specs.MethodViews.{is_plain_shape, method_view};
ghost use Rattle.native_peers.specs.Moves.{ArgsFit, Invokes, SameMoves, answer_of, closed};

use crate::faults::PeerFault;
use crate::peers::Peer;
use g_values::Value;
use peer_shapes::Method;

// A peer of a pool with its name.
#[derive(Drop)]
pub(crate) struct NamedPeer {
    pub(crate) name: String,
    // Above those of the peers before it in the pool.
    pub(crate) serial: u64,
    pub(crate) peer: Box<dyn Peer>,
}

impl NamedPeer {
    // Returns whether the peer may be called.
    pub(crate) fn is_open(&self) -> bool
        ensures { result ≡ (state self.now.peer).is_open }
    {
        self.peer.is_open()
    }

    // Returns the peer's methods.
    pub(crate) fn shape(&self) -> &[Method]
        ensures methods { map method_view result.now ≡ (state self.now.peer).shape }
        ensures plain { IsTrue (is_plain_shape (state self.now.peer).shape) }
    {
        self.peer.shape()
    }

    // Calls a method of the peer.
    pub(crate) fn invoke(&mut self, method: usize, args: &[Value]) -> Result<Value, PeerFault>
        requires open { IsTrue (state self.now.peer).is_open }
        requires args { ArgsFit (state self.now.peer) method (map value_view args.now) }
        ensures name { self.new.name ≡ self.old.name }
        ensures serial { self.new.serial ≡ self.old.serial }
        ensures invokes { Invokes (moves self.old.peer) (moves self.new.peer)
            (state self.old.peer) method (map value_view args.now) (answer_of result) (state self.new.peer) }
    {
        self.peer.invoke(method, args)
    }

    // Closes the peer.
    pub(crate) fn close(&mut self)
        requires { IsTrue (state self.now.peer).is_open }
        ensures name { self.new.name ≡ self.old.name }
        ensures serial { self.new.serial ≡ self.old.serial }
        ensures closed { state self.new.peer ≡ closed (state self.old.peer) }
        ensures same_moves { SameMoves (moves self.old.peer) (moves self.new.peer) }
    {
        self.peer.close();
    }
}
