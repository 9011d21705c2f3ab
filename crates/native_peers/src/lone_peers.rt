//! The peers of a session that has one placeholder or none.

ghost use Rattle.std.specs.Prelude.{◌≡◌, ◌∷◌, [], IsTrue, map, string_bytes, true};
ghost use Rattle.ui_machine.specs.Definition.Names.{same_name};
ghost use Rattle.law_peers.specs.Needs.{first_unused, first_wrong, mismatch_with, peer_named, wrong_with};
ghost use Rattle.peer_shapes.specs.MethodViews.{is_plain_shape, method_view};
ghost use Rattle.native_peers.specs.Matching.{as_peer, mismatch_of, need_view};
ghost use Rattle.native_peers.specs.StandIns.{Faults, seen_of, stand_ins};

use crate::faults::{MatchFault, PeerFault};
use crate::mismatches::{has_shape, is_needed};
use crate::needs::Need;
use crate::pooled_peers::Peers;
use crate::stand_ins::StandIn;
use g_values::Value;
use peer_shapes::Method;

impl StandIn {
    /// Creates an open peer that was not called yet. All kinds of its methods are plain.
    pub fn new(name: String, methods: Vec<Method>) -> Self
        requires { IsTrue (is_plain_shape (map method_view methods.items)) }
        ensures { seen_of result ≡ record { name = string_bytes name; state = record { shape = map method_view methods.items; is_open = true; calls = 0; faults = 0; values = [] } } }
    {
        StandIn {
            name,
            methods,
            is_callable: true,
            calls: 0,
        }
    }

    // Returns whether the peer has this name.
    #[tactic(auto, using(g_values::proofs::Texts::same_bytes))]
    fn has_name(&self, name: &str) -> bool
        ensures { result ≡ same_name (string_bytes self.now.name) name.now }
    {
        self.name.as_str() == name
    }

    // Checks that this is the peer of a need, open and of the right shape.
    fn serves<'a>(&self, need: &Need<'a>) -> Result<(), MatchFault<'a>>
        ensures { mismatch_of result ≡ wrong_with (need_view need.now) (peer_named (as_peer (seen_of self.now) ∷ []) need.now.name.now) }
    {
        if !self.has_name(need.name) {
            return Err(MatchFault::PeerMissing(need.name));
        }
        if !self.is_callable {
            return Err(MatchFault::PeerClosed(need.name));
        }
        if !has_shape(need.shape, &self.methods) {
            return Err(MatchFault::PeerShape(need.name));
        }
        Ok(())
    }

    // Checks that this is the peer of each need, open and of the right shape.
    fn serves_all<'a>(&self, needs: &[Need<'a>]) -> Result<(), MatchFault<'a>>
        ensures { mismatch_of result ≡ first_wrong (as_peer (seen_of self.now) ∷ []) (map need_view needs.now) }
    {
        'needs: for need in needs {
            self.serves(need)?;
        }
        Ok(())
    }

    // Checks that some need has the name of this peer.
    fn used<'a>(&'a self, needs: &[Need<'_>]) -> Result<(), MatchFault<'a>>
        ensures { mismatch_of result ≡ first_unused (map need_view needs.now) (as_peer (seen_of self.now) ∷ []) }
    {
        let name = self.name.as_str();
        if is_needed(name, needs) {
            Ok(())
        } else {
            Err(MatchFault::PeerUnused(name))
        }
    }
}

// Checks that there are no needs.
fn none_needed<'a>(needs: &[Need<'a>]) -> Result<(), MatchFault<'a>>
    ensures { mismatch_of result ≡ mismatch_with (map need_view needs.now) [] }
{
    match needs {
        [] => Ok(()),
        [need, ..] => Err(MatchFault::PeerMissing(need.name)),
    }
}

impl Peers for Option<StandIn> {
    ghost seen = { stand_ins };

    ghost relations = { λ _ _. Faults };

    fn left(&self) -> usize {
        match self {
            Some(_) => 1,
            None => 0,
        }
    }

    fn name(&self, _k: usize) -> &str {
        match self {
            Some(peer) => peer.name.as_str(),
            None => unreachable!(),
        }
    }

    fn shape(&self, _k: usize) -> &[Method] {
        match self {
            Some(peer) => &peer.methods,
            None => unreachable!(),
        }
    }

    fn is_open(&self, _k: usize) -> bool {
        match self {
            Some(peer) => peer.is_callable,
            None => unreachable!(),
        }
    }

    fn invoke(&mut self, _k: usize, _method: usize, _args: &[Value]) -> Result<Value, PeerFault> {
        match self {
            Some(peer) => peer.calls = peer.calls.wrapping_add(1),
            None => unreachable!(),
        }
        Err(PeerFault)
    }

    fn close(&mut self, _k: usize) {
        match self {
            Some(peer) => peer.is_callable = false,
            None => unreachable!(),
        }
    }

    fn matches<'a>(&'a self, needs: &'a [Need<'a>]) -> Result<(), MatchFault<'a>> {
        match self {
            Some(peer) => {
                peer.serves_all(needs)?;
                peer.used(needs)
            }
            None => none_needed(needs),
        }
    }
}
