//! A stand-in, which is the only peer of a session.

ghost use Rattle.std.specs.Prelude.{IsSomeAnd, IsTrue, slice_get};
ghost use Rattle.native_peers.specs.StandIns.{stand_ins};

use native_peers::{MatchFault, Need, Peers, Shape, StandIn};
use std::test::Fail;

// Closes the first peer, which is an open stand-in.
fn shut(peers: &mut Option<StandIn>)
    requires { IsSomeAnd (slice_get (stand_ins peers.now) 0) (λ p. IsTrue p.state.is_open) }
{
    peers.close(0);
}

#[test]
fn a_stand_in_is_one_peer(rt: HostRuntime) -> Result<(), Fail> {
    let mut peers = Some(StandIn::new(String::from_str(rt.alloc(), "t")?, Vec::new(rt.alloc())));
    let shape = Shape::new(rt.alloc());
    let need = Need {
        name: "t",
        shape: Some(&shape),
    };
    assert_eq!(rt; peers.left(), 1);
    assert_eq!(rt; peers.matches(&[need]), Ok(()));
    assert_eq!(rt; peers.matches(&[]), Err(MatchFault::PeerUnused("t")));
    shut(&mut peers);
    assert_eq!(rt; peers.matches(&[need]), Err(MatchFault::PeerClosed("t")));
    let nobody: Option<StandIn> = None;
    assert_eq!(rt; nobody.matches(&[need]), Err(MatchFault::PeerMissing("t")));
    Ok(())
}
