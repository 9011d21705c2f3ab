//! Checks that a pool has exactly the peers that are needed.

ghost use Rattle.std.specs.Prelude.{◌≡◌, ◌<◌, ◌∷◌, [], IfErr, IfOk, IfSome, IsTrue, None, OnOk, Some, is_some, length, map, option_map, true};
ghost use Rattle.std.specs.List.{list_any, position};
ghost use Rattle.ui_machine.specs.Definition.Names.{same_name};
ghost use Rattle.law_peers.specs.Needs.{first_unused, first_wrong, is_shaped, mismatch_with, peer_named, wrong_with};
ghost use Rattle.peer_shapes.specs.MethodViews.{method_view};
ghost use Rattle.native_peers.specs.Matching.{as_peer, as_peers, mismatch_of, mismatch_view, need_view};
ghost use Rattle.native_peers.specs.Pool.{entries, number_of, seen, seen_one};

use crate::entries::NamedPeer;
use crate::faults::MatchFault;
use crate::needs::Need;
use crate::peers::Peer;
use crate::pools::PeerPool;
use crate::shapes::is_same_shape;
use peer_shapes::{Method, Shape};

// Returns whether these are the methods of the shape that is needed. False if no shape is given.
pub(crate) fn has_shape(needed: Option<&Shape>, methods: &[Method]) -> bool
    ensures { result ≡ is_shaped (option_map (λ s. s.now) needed.entry) (map method_view methods.now) }
{
    match needed {
        Some(shape) => is_same_shape(shape, methods),
        None => false,
    }
}

// Checks that a peer with the name of a need is open and of the right shape.
fn fits<'a>(peer: &NamedPeer, need: &Need<'a>) -> Result<(), MatchFault<'a>>
    ensures { mismatch_of result ≡ wrong_with (need_view need.now) (Some (as_peer (seen_one (state peer.now.peer) peer.now))) }
{
    if !peer.is_open() {
        return Err(MatchFault::PeerClosed(need.name));
    }
    if !has_shape(need.shape, peer.shape()) {
        return Err(MatchFault::PeerShape(need.name));
    }
    Ok(())
}

// Returns whether the need of this number has this name.
fn is_of(needs: &[Need<'_>], number: usize, name: &str) -> bool
    ensures known { IsTrue result → list_any (λ n. same_name n.name.now name.now) needs.now ≡ true }
    ensures bound { IsTrue result → number < length needs.now }
{
    match needs.get(number) {
        Some(need) => need.has_name(name),
        None => false,
    }
}

// Returns whether some need has this name.
pub(crate) fn is_needed(name: &str, needs: &[Need<'_>]) -> bool
    ensures { result ≡ list_any (λ n. same_name n.name.now name.now) needs.now }
{
    needs.iter().any(|need| need.has_name(name))
}

// Returns the number of the first need with this name.
fn first_of(needs: &[Need<'_>], name: &str) -> Option<usize>
    ensures { result ≡ position (λ n. same_name n.name.now name.now) needs.now }
{
    needs.iter().position(|need| need.has_name(name))
}

// Returns the number of a need with this name. Looks at the need of number `likely` first.
fn need_of(name: &str, needs: &[Need<'_>], likely: usize) -> Option<usize>
    ensures known { is_some result ≡ list_any (λ n. same_name n.name.now name.now) needs.now }
    ensures bound { IfSome result (λ number. number < length needs.now) }
{
    if is_of(needs, likely, name) {
        return Some(likely);
    }
    first_of(needs, name)
}

// Returns the number of a need with the name of this peer. Looks at the need of number `likely` first.
//
// # Errors
//
// Returns `PeerUnused` if no need has the name.
fn used<'a>(peer: &'a NamedPeer, needs: &[Need<'_>], likely: usize) -> Result<usize, MatchFault<'a>>
    ensures used { OnOk result (None ≡ first_unused (map need_view needs.now) (as_peer (seen_one (state peer.now.peer) peer.now) ∷ [])) }
    ensures unused { IfErr result (λ fault. Some (mismatch_view fault) ≡ first_unused (map need_view needs.now) (as_peer (seen_one (state peer.now.peer) peer.now) ∷ [])) }
    ensures bound { IfOk result (λ number. number < length needs.now) }
{
    let name = peer.name.as_str();
    match need_of(name, needs, likely) {
        Some(number) => Ok(number),
        None => Err(MatchFault::PeerUnused(name)),
    }
}

impl PeerPool {
    // Returns whether the peer with this number has this name, which no other peer has then.
    fn is_named(&self, number: usize, name: &str) -> bool
        ensures { IsTrue result → number_of (entries self.now) name.now ≡ Some number }
    {
        match self.peers.get(number) {
            Some(peer) => peer.name.as_str() == name,
            None => false,
        }
    }

    // Returns the number of the peer with this name. Looks at the peer with number `likely` first.
    fn find_near(&self, name: &str, likely: usize) -> Option<usize>
        ensures { result ≡ number_of (entries self.now) name.now }
    {
        if self.is_named(likely, name) {
            return Some(likely);
        }
        self.find(name)
    }

    // Checks that the pool has the peer of a need, open and of the right shape. Looks at the peer with number `likely` first.
    fn serves<'a>(&self, need: &Need<'a>, likely: usize) -> Result<(), MatchFault<'a>>
        ensures { mismatch_of result ≡ wrong_with (need_view need.now)
            (peer_named (as_peers (seen (λ p. state p.peer) (entries self.now))) need.now.name.now) }
    {
        match self.find_near(need.name, likely) {
            Some(k) => fits(&self.peers[k], need),
            None => Err(MatchFault::PeerMissing(need.name)),
        }
    }

    // Checks that the pool has the peer of each need, open and of the right shape. Looks for the peer of each need at the number of the need
    // first, so that in a pool that was made from the needs, each is found at once.
    fn serves_all<'a>(&self, needs: &[Need<'a>]) -> Result<(), MatchFault<'a>>
        ensures { mismatch_of result ≡ first_wrong (as_peers (seen (λ p. state p.peer) (entries self.now))) (map need_view needs.now) }
    {
        'needs: for (number, need) in needs.iter().enumerate() {
            self.serves(need, number)?;
        }
        Ok(())
    }

    // Checks that all peers are needed. Looks for each peer at the need behind that of the peer before it first, so that in a pool that was
    // made from the needs, each peer is found at once, also after one was taken out.
    fn used_up<'a>(&'a self, needs: &[Need<'_>]) -> Result<(), MatchFault<'a>>
        ensures { mismatch_of result ≡ first_unused (map need_view needs.now) (as_peers (seen (λ p. state p.peer) (entries self.now))) }
    {
        let mut likely = 0;
        'peers: for peer in &self.peers {
            likely = used(peer, needs, likely)? + 1;
        }
        Ok(())
    }

    /// Checks that the pool has exactly the peers that are needed, open and of the right shapes. Takes no memory.
    ///
    /// # Errors
    ///
    /// Returns `PeerMissing`, `PeerClosed` or `PeerShape`, in this order, for the first need whose peer is missing or wrong, otherwise
    /// `PeerUnused` for the first peer that nothing needs.
    pub fn matches<'a>(&'a self, needs: &'a [Need<'a>]) -> Result<(), MatchFault<'a>>
        ensures { mismatch_of result ≡ mismatch_with (map need_view needs.now) (as_peers (seen (λ p. state p.peer) (entries self.now))) }
    {
        self.serves_all(needs)?;
        self.used_up(needs)
    }
}
