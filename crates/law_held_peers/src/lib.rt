//! The peers that objects hold: each object's peer is its own, of the shape that its class names, and is closed in the end.
#![tactic(auto)]

ghost use Rattle.law_held_peers.specs.Holders.{StepsKeepHolders, BuildsHoldWell, RequestsHoldWell, SourcesHoldWell, RunsHoldWell};
ghost use Rattle.law_held_peers.specs.Endings.{FinishClosesHeld, PoolIsClosed, RunsCloseHeld, FinishClosesAll, PremisesMetUnheld, BuildsHaltClosed, EventsHaltClosed};
ghost use Rattle.law_held_peers.specs.Questions.{BuildsAskByShape, RequestsAskByShape, SourcesAskByShape};

/// An object that has a peer is its holder, and no other object has it. While a peer is open its holder lives, is not disposed, and has it.
/// Its methods are those of the shape that the object's class names.
pub fn held()
    ensures steps { StepsKeepHolders }
    ensures builds { BuildsHoldWell }
    ensures requests { RequestsHoldWell }
    ensures sources { SourcesHoldWell }
    ensures runs { RunsHoldWell }
{}

/// As a session is finished, after a run or where no memory was found, each peer that an object holds is closed, and no other is.
pub fn ended()
    ensures finish { FinishClosesHeld }
    ensures all { PoolIsClosed }
    ensures runs { RunsCloseHeld }
    ensures closes { FinishClosesAll }
    ensures met { PremisesMetUnheld }
    ensures builds { BuildsHaltClosed }
    ensures events { EventsHaltClosed }
{}

/// What a dispatch asks next is asked of the peer of the object that is called, which is of the shape that the object's class names.
pub fn asked()
    ensures builds { BuildsAskByShape }
    ensures requests { RequestsAskByShape }
    ensures sources { SourcesAskByShape }
{}
