//! Slices: how many steps a part of a dispatch makes, of which so many are counted.
#![tactic(auto)]

ghost use Rattle.law_slices.specs.QuietRuns.{CountsRiseByOne, QuietRunsBound};
ghost use Rattle.law_slices.specs.Depths.{DepthIsFound, PartsAreWithinDepth, QuietPartsAreWithinDepth};
ghost use Rattle.law_slices.specs.WorkedParts.{HundredCounted, Numbers, PremisesMet};
ghost use Rattle.law_slices.specs.Parts.{PartsAreWithin, PartsCost, QuietPartsAreWithin};

/// Each step of the machine is uncounted or counts one. So where each run of uncounted steps among some steps is short, there are few steps
/// to each counted one.
pub fn counting()
    ensures one { CountsRiseByOne }
    ensures bound { QuietRunsBound }
{}

/// What a part of a dispatch of an accepted definition costs by any price list, if so many of its steps are counted: these, and no more than
/// the dispatch's bound by the list without counted steps, a number that is computed from the definition alone. So many steps it has, and so
/// few follow on one another of which none is counted.
pub fn parts()
    ensures cost { PartsCost }
    ensures quiet { QuietPartsAreWithin }
    ensures within { PartsAreWithin }
{}

/// A run of uncounted steps is no longer than the depth of the report allows, beside turns and what is made: each task that lies on the agenda
/// goes on once at most.
pub fn depths()
    ensures found { DepthIsFound }
    ensures within { PartsAreWithinDepth }
    ensures quiet { QuietPartsAreWithinDepth }
{}

/// A worked definition, in which a block sets a property very often: its parts are short.
pub fn worked()
    ensures premises { PremisesMet }
    ensures numbers { Numbers }
    ensures hundred { HundredCounted }
{}
