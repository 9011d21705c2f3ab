//! The law on frames: what lies higher needs fewer frames, so that no program is in two frames at a time, and nothing is notified, emitted
//! or made twice at a time.
#![tactic(auto)]

ghost use Rattle.law_frames.specs.Counts.{BuildsRunFew, RequestsRunFew, SourcesRunFew};
ghost use Rattle.law_frames.specs.Once.{BuildsAreOnce, RequestsAreOnce, SourcesAreOnce};

/// Throughout each dispatch of an accepted definition, as long as its peers' replies fit, each program is in one frame at most, at each
/// channel one emission at most goes on, and of each place one object at most is under construction.
pub fn frames()
    ensures build { BuildsAreOnce }
    ensures request { RequestsAreOnce }
    ensures source { SourcesAreOnce }
{}

/// So no more programs run at a time than the definition has, and no more constructions go on than that, and one.
pub fn counts()
    ensures build { BuildsRunFew }
    ensures request { RequestsRunFew }
    ensures source { SourcesRunFew }
{}
