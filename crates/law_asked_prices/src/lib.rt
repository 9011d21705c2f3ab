//! The calls of a dispatch by the peers that are asked: how often peers with the methods of a shape are asked for a method.
#![tactic(auto)]

ghost use Rattle.law_asked_prices.specs.Replies.{EachIsGivenByShape, EachPeerIsWithin, OneShapeIsWithin, PremisesMetAlone, AlikePeersAreWithin, ShapesGiveAll};

/// Each reply that a dispatch takes to a method of a shape was given by a peer that has the methods of the shape. Of peers with just these methods
/// it takes as many replies to one of them as to this method of all shapes with these methods, and no more than its bound by the list of these
/// calls says. Nor does it take more of one peer of the pool by itself.
pub fn given()
    ensures each { EachIsGivenByShape }
    ensures sum { ShapesGiveAll }
    ensures within { AlikePeersAreWithin }
    ensures alone { OneShapeIsWithin }
    ensures met { PremisesMetAlone }
    ensures peers { EachPeerIsWithin }
{}
