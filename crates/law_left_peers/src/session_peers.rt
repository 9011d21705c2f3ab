//! What a run leaves of each peer of its pool: its replies lead it on, the lines with its name say them, and it is closed once at most.

ghost use Rattle.law_left_peers.specs.Sessions.FinishedPeers.{PoolsHoldNone, SessionsFinish};
ghost use Rattle.law_left_peers.specs.Sessions.LeftPeers.{BuildBreaksOff, BuildLeaves, CutLeaves, EventLeaves, RunBreaksOff, RunLeaves, WorkedLeft};

use native_peers::Peers;

/// Each peer of a run is left as its replies lead it, which the lines `call` and `fault` with its name say, in their order; and it is closed,
/// with a line of the run or as the session is finished, where an object has got it. This holds of a build and of one event as well, which
/// close nothing without a line.
pub fn left()
    ensures run { RunLeaves }
    ensures build { BuildLeaves }
    ensures event { EventLeaves }
    ensures worked { WorkedLeft }
{}

/// A session that is finished after a run leaves the peers of the machine's end of a session.
pub fn finished()
    ensures none { PoolsHoldNone }
    ensures sessions { SessionsFinish }
{}

/// Each peer of any pool is left so also where no memory was found: in an event, in a run that breaks off in one, and in a build. A peer
/// may have replied once more there, and no line says so.
pub fn broken_off<P: Peers>(_pool: &P)
    ensures cut { CutLeaves (P.relations _pool.now) }
    ensures run { RunBreaksOff (P.relations _pool.now) }
    ensures build { BuildBreaksOff (P.relations _pool.now) }
{}
