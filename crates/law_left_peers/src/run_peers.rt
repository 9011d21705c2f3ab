//! What a run of the program leaves of each peer of the pool that it is lent.

ghost use Rattle.law_left_peers.specs.Runs.RunPeers.{RunsLeave, StopsLeave};
ghost use Rattle.native_peers.specs.Matching.{as_peers};

use native_peers::Peers;

/// Each peer of any pool that a run is lent is left as its replies lead it: the lines `call` and `fault` with its name, among all that were said,
/// say these replies, in their order; and it is closed once at most, with a line, or at the end where an object has got it. Where no memory was
/// found, in an event or in the build, it may have replied once more.
pub fn left<P: Peers>(pool: &P)
    ensures runs { RunsLeave (P.relations pool.now) (as_peers (P.seen pool.now)) }
    ensures stops { StopsLeave (P.relations pool.now) (as_peers (P.seen pool.now)) }
{
    // No two peers of a pool have one name.
    let _count = pool.left();
}
