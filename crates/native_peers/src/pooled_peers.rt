//! The trait by which a session uses its peers.

ghost use Rattle.std.specs.Prelude.{◌≡◌, ◌<◌, IsSomeAnd, IsTrue, List, length, map, slice_get, true};
ghost use Rattle.g_values.specs.View.{value_view};
ghost use Rattle.law_typing.specs.Laws.WellRead.{no_two};
ghost use Rattle.native_peers.specs.Matching.{as_peers, mismatch_of, need_view};
ghost use Rattle.native_peers.specs.Moves.{ArgsFit, answer_of};
ghost use Rattle.native_peers.specs.Pool as pools;
ghost use Rattle.native_peers.specs.Seen.{Asks, ClosesAt, Relations, SameRelations, Seen};
ghost use Rattle.law_peers.specs.Needs.{mismatch_with};
ghost use Rattle.peer_shapes.specs.MethodViews.{is_plain_shape, method_view};
ghost use Rattle.ui_machine.specs.Definition.Names.{same_name};

use crate::faults::{MatchFault, PeerFault};
use crate::needs::Need;
use crate::peers::Peer;
use crate::pools::PeerPool;
use g_values::Value;
use peer_shapes::Method;

/// The peers of a session, each under a distinct name and a number: a [`PeerPool`], or an `Option` of a [`StandIn`](crate::StandIn).
/// Functions that hold a session are generic over them.
pub trait Peers: Drop {
    /// The name and state of each peer, by its number.
    ghost seen: { Self → List Seen };

    /// The relation of each peer, by its number. It never changes.
    ghost relations: { Self → Relations };

    /// Returns the number of peers.
    fn left(&self) -> usize
        ensures count { result ≡ length (seen self.now) }
        ensures apart { no_two same_name (map (λ p. p.name) (seen self.now)) ≡ true };

    /// Returns the name of the k-th peer.
    fn name(&self, k: usize) -> &str
        requires { k < length (seen self.now) }
        ensures { IsSomeAnd (slice_get (seen self.now) k) (λ p. result.now ≡ p.name) };

    /// Returns the methods of the k-th peer. All their kinds are plain.
    fn shape(&self, k: usize) -> &[Method]
        requires { k < length (seen self.now) }
        ensures methods { IsSomeAnd (slice_get (seen self.now) k) (λ p. map method_view result.now ≡ p.state.shape) }
        ensures plain { IsSomeAnd (slice_get (seen self.now) k) (λ p. IsTrue (is_plain_shape p.state.shape)) };

    /// Returns whether the k-th peer may be called.
    fn is_open(&self, k: usize) -> bool
        requires { k < length (seen self.now) }
        ensures { IsSomeAnd (slice_get (seen self.now) k) (λ p. result ≡ p.state.is_open) };

    /// Calls a method of the k-th peer, which is open, with arguments of the method's kinds. All other peers stay as they are.
    ///
    /// # Errors
    ///
    /// Returns `PeerFault` if the peer answers no value.
    fn invoke(&mut self, k: usize, method: usize, args: &[Value]) -> Result<Value, PeerFault>
        requires open { IsSomeAnd (slice_get (seen self.now) k) (λ p. IsTrue p.state.is_open) }
        requires args { IsSomeAnd (slice_get (seen self.now) k) (λ p. ArgsFit p.state method (map value_view args.now)) }
        ensures asks { Asks k (seen self.old) (seen self.new) (relations self.old) method (map value_view args.now) (answer_of result) }
        ensures same { SameRelations (relations self.old) (relations self.new) };

    /// Closes the k-th peer, which is open. All other peers stay as they are.
    fn close(&mut self, k: usize)
        requires { IsSomeAnd (slice_get (seen self.now) k) (λ p. IsTrue p.state.is_open) }
        ensures closes { ClosesAt k (seen self.old) (seen self.new) }
        ensures same { SameRelations (relations self.old) (relations self.new) };

    /// Checks that there are exactly the peers that are needed, open and of the right shapes. Takes no memory.
    ///
    /// # Errors
    ///
    /// Returns `PeerMissing`, `PeerClosed` or `PeerShape`, in this order, for the first need whose peer is missing or wrong, otherwise
    /// `PeerUnused` for the first peer that nothing needs.
    fn matches<'a>(&'a self, needs: &'a [Need<'a>]) -> Result<(), MatchFault<'a>>
        ensures { mismatch_of result ≡ mismatch_with (map need_view needs.now) (as_peers (seen self.now)) };
}

impl Peers for PeerPool {
    ghost seen = { λ pool. pools.seen (λ p. (Peer-box p.peer).state p.peer.value) (pools.entries pool) };

    ghost relations = { λ pool. pools.relations (λ p. (Peer-box p.peer).moves p.peer.value) (pools.entries pool) };

    fn left(&self) -> usize {
        PeerPool::left(self)
    }

    fn name(&self, k: usize) -> &str {
        PeerPool::name(self, k)
    }

    fn shape(&self, k: usize) -> &[Method] {
        PeerPool::shape(self, k)
    }

    fn is_open(&self, k: usize) -> bool {
        PeerPool::is_open(self, k)
    }

    fn invoke(&mut self, k: usize, method: usize, args: &[Value]) -> Result<Value, PeerFault> {
        PeerPool::invoke(self, k, method, args)
    }

    fn close(&mut self, k: usize) {
        PeerPool::close(self, k);
    }

    fn matches<'a>(&'a self, needs: &'a [Need<'a>]) -> Result<(), MatchFault<'a>> {
        PeerPool::matches(self, needs)
    }
}
