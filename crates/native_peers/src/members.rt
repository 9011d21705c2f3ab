//! The operations on a pool: adding, finding, calling, closing and taking its peers.

ghost use Rattle.std.specs.Prelude.{◌≡◌, ◌<◌, ◌↔◌, [], IfErr, IsSome, IsSomeAnd, IsTrue, None, OnErr, OnOk, Some, length, map, option_and_then, option_map, remove, slice_get, string_bytes};
ghost use Rattle.std.specs.Option.{option_map_or};
ghost use Rattle.g_values.specs.View.{value_view};
ghost use Rattle.peer_shapes.specs.MethodViews.{is_plain_shape, method_view};
ghost use Rattle.native_peers.specs.Moves.{ArgsFit, answer_of};
ghost use Rattle.native_peers.specs.Pool.{AppendsOne, entries, number_of, relations, seen};
ghost use Rattle.native_peers.specs.Seen.{Asks, ClosesAt, SameRelations};

use crate::entries::NamedPeer;
use crate::faults::{AddFault, NotAdded, PeerFault};
use crate::peers::Peer;
use crate::pools::PeerPool;
use crate::serials::make_room;
use g_values::Value;
use peer_shapes::Method;
use std::alloc::Global;
use std::collections::BTreeMap;

impl PeerPool {
    /// Creates a pool without peers. Takes no memory.
    pub fn new(alloc: Global) -> Self
        ensures { entries result ≡ [] }
    {
        PeerPool {
            peers: Vec::new(alloc),
            serials: BTreeMap::new(alloc),
        }
    }

    /// Returns the number of peers.
    pub fn left(&self) -> usize
        ensures { result ≡ length (entries self.now) }
    {
        self.peers.len()
    }

    /// Returns the name of the k-th peer.
    pub fn name(&self, k: usize) -> &str
        requires { k < length (entries self.now) }
        ensures { IsSomeAnd (slice_get (entries self.now) k) (λ p. result.now ≡ string_bytes p.name) }
    {
        self.peers[k].name.as_str()
    }

    /// Returns whether the k-th peer may be called.
    pub fn is_open(&self, k: usize) -> bool
        requires { k < length (entries self.now) }
        ensures { IsSomeAnd (slice_get (entries self.now) k) (λ p. result ≡ (state p.peer).is_open) }
    {
        self.peers[k].is_open()
    }

    /// Returns the methods of the k-th peer. All their kinds are plain.
    pub fn shape(&self, k: usize) -> &[Method]
        requires { k < length (entries self.now) }
        ensures methods { IsSomeAnd (slice_get (entries self.now) k) (λ p. map method_view result.now ≡ (state p.peer).shape) }
        ensures plain { IsSomeAnd (slice_get (entries self.now) k) (λ p. IsTrue (is_plain_shape (state p.peer).shape)) }
    {
        self.peers[k].shape()
    }

    /// Calls a method of the k-th peer, which is open, with arguments of the method's kinds. All other peers stay as they are.
    ///
    /// # Errors
    ///
    /// Returns `PeerFault` if the peer answers no value.
    pub fn invoke(&mut self, k: usize, method: usize, args: &[Value]) -> Result<Value, PeerFault>
        requires open { IsSomeAnd (slice_get (entries self.now) k) (λ p. IsTrue (state p.peer).is_open) }
        requires args { IsSomeAnd (slice_get (entries self.now) k) (λ p. ArgsFit (state p.peer) method (map value_view args.now)) }
        ensures asks { Asks k (seen (λ p. state p.peer) (entries self.old)) (seen (λ p. state p.peer) (entries self.new))
            (relations (λ p. moves p.peer) (entries self.old)) method (map value_view args.now) (answer_of result) }
        ensures same { SameRelations (relations (λ p. moves p.peer) (entries self.old)) (relations (λ p. moves p.peer) (entries self.new)) }
    {
        self.peers[k].invoke(method, args)
    }

    /// Closes the k-th peer, which is open. All other peers stay as they are.
    pub fn close(&mut self, k: usize)
        requires { IsSomeAnd (slice_get (entries self.now) k) (λ p. IsTrue (state p.peer).is_open) }
        ensures closes { ClosesAt k (seen (λ p. state p.peer) (entries self.old)) (seen (λ p. state p.peer) (entries self.new)) }
        ensures same { SameRelations (relations (λ p. moves p.peer) (entries self.old)) (relations (λ p. moves p.peer) (entries self.new)) }
    {
        self.peers[k].close();
    }

    /// Returns the number of the peer with this name. Its serial number is looked up in a map, and searched for by halves.
    pub fn find(&self, name: &str) -> Option<usize>
        ensures { result ≡ number_of (entries self.now) name.now }
    {
        let serial = self.serials.get(name)?;
        self.peers
            .binary_search_by_key(
                serial,
                |peer: &NamedPeer| -> u64
                    ensures { result ≡ peer.now.serial }
                { peer.serial },
            )
            .ok()
    }

    /// Adds a peer at the end.
    ///
    /// # Errors
    ///
    /// Returns `DuplicatePeer` if and only if the pool has a peer of this name, otherwise `OutOfMemory` if memory is refused, or if no serial
    /// number is left, which takes 2^64 additions. Both hand the box back.
    pub fn add(&mut self, name: &str, peer: Box<dyn Peer>) -> Result<(), NotAdded>
        ensures ok { OnOk result (AppendsOne (λ p. (string_bytes p.name ≡ name.now) × (p.peer ≡ peer)) (entries self.old) (entries self.new)) }
        ensures fresh { OnOk result (number_of (entries self.old) name.now ≡ None) }
        ensures duplicate { IfErr result (λ e. (e.fault ≡ AddFault.DuplicatePeer) ↔ IsSome (number_of (entries self.old) name.now)) }
        ensures back { IfErr result (λ e. e.peer ≡ peer) }
        ensures err { OnErr result (entries self.new ≡ entries self.old) }
    {
        if self.find(name).is_some() {
            return Err(NotAdded {
                fault: AddFault::DuplicatePeer,
                peer,
            });
        }
        let Ok((name, serial)) = make_room(&mut self.peers, &mut self.serials, name) else {
            return Err(NotAdded {
                fault: AddFault::OutOfMemory,
                peer,
            });
        };
        // `make_room` has reserved the room.
        let Ok(()) = self.peers.push(NamedPeer { name, serial, peer }) else {
            unreachable!()
        };
        Ok(())
    }

    /// Removes the peer with this name from the pool and returns it, or returns `None` if there is none. The peers behind it move up.
    pub fn take(&mut self, name: &str) -> Option<Box<dyn Peer>>
        ensures taken { result ≡ option_map (λ p. p.peer) (option_and_then (slice_get (entries self.old)) (number_of (entries self.old) name.now)) }
        ensures left { entries self.new ≡ option_map_or (remove (entries self.old)) (number_of (entries self.old) name.now) (entries self.old) }
    {
        let k = self.find(name)?;
        let _ = self.serials.remove(name);
        let NamedPeer { peer, .. } = self.peers.remove(k);
        Some(peer)
    }
}
