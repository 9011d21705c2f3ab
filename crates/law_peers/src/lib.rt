//! The laws on peers: how a run leads each from its first state to its last, that a step which is about none of them is blind to them, and
//! that none reads what a peer counts and keeps.
#![tactic(auto)]

ghost use Rattle.law_peers.specs.Blind.{StepIsBlind, TaskIsBlind, InstructionIsBlind, LeavesPeers, AsksNothing};
ghost use Rattle.law_peers.specs.PeerLaws.{StepLives, ReachesLives, DispatchLives, EventLives, EventsLive, RunLives, HaltLives};
ghost use Rattle.law_peers.specs.PeerLaws.{EachLives, LinesOfReplies, LinesByName, ClosesOnce, UntouchedStays, RunFinishes, FinishCloses};
ghost use Rattle.law_peers.specs.WorkedPeers.{WorkedLife, WorkedBlind};
ghost use Rattle.law_peers.specs.Forgetting.{QuestionForgets, StepForgets};
ghost use Rattle.law_peers.specs.WorkedForgetting.{WorkedForgetting};
ghost use Rattle.law_peers.specs.MatchedPools.{MatchedIsReady, ReadyMatches};
ghost use Rattle.law_peers.specs.NamesApart.{MatchedIsApart};
ghost use Rattle.law_peers.specs.WorkedPools.{WorkedPools};

/// Peers live by their replies alone: each is asked while it is open, in the state that its reply before left, and closed once at most, with
/// a line for each reply and each close, in their order. So it is for each peer; one with no reply and no close is as it was; and as the
/// session is finished what an object has got is closed.
pub fn peers()
    ensures step { StepLives }
    ensures reaches { ReachesLives }
    ensures dispatch { DispatchLives }
    ensures event { EventLives }
    ensures events { EventsLive }
    ensures run { RunLives }
    ensures halt { HaltLives }
    ensures each { EachLives }
    ensures lines { LinesOfReplies }
    ensures by_name { LinesByName }
    ensures once { ClosesOnce }
    ensures untouched { UntouchedStays }
    ensures finishes { RunFinishes }
    ensures closes { FinishCloses }
    ensures worked { WorkedLife }
{}

/// A step that asks, takes and closes no peer leads to the same with other peers, leaves them as they are, and asks nothing.
pub fn blind()
    ensures step { StepIsBlind }
    ensures task { TaskIsBlind }
    ensures instruction { InstructionIsBlind }
    ensures leaves { LeavesPeers }
    ensures asks { AsksNothing }
    ensures worked { WorkedBlind }
{}

/// What a peer counts and keeps is for its replies alone: where it is forgotten of each peer, and in the reply, a step asks the same and leads
/// to the same without it. So a machine may keep of each peer its name, its methods, whether it is open, and who has got it.
pub fn forgetting()
    ensures step { StepForgets }
    ensures question { QuestionForgets }
    ensures worked { WorkedForgetting }
{}

/// A pool that has each peer that the definition needs, open and of its shape, is ready, where no object has got any of them. What is
/// ready, with peers that are needed alone, matches. Where the names have no points, the peers of a pool that matches are kept apart by
/// them.
/// There are worked pools, one of which matches, and one for each mismatch.
pub fn pools()
    ensures ready { MatchedIsReady }
    ensures matched { ReadyMatches }
    ensures apart { MatchedIsApart }
    ensures worked { WorkedPools }
{}
