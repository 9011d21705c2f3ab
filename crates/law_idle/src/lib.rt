//! The law over idle channels: signals at which nothing runs, and which no program names. Numbers are reckoned of a graph without them.
#![tactic(auto)]

ghost use Rattle.law_idle.specs.Idle.{OthersAreIdleIn};
ghost use Rattle.law_idle.specs.Resting.{CostsAreAdded, CyclesAreSame, DepthsAreAdded, RanksAreAdded};

/// Nothing runs at the idle channels of a definition, and nothing leads to them. So the numbers of the graph without them, with those of
/// idle channels added, are the numbers of the graph, and its cycles are those of the graph.
pub fn idle()
    ensures idle { OthersAreIdleIn }
    ensures costs { CostsAreAdded }
    ensures depths { DepthsAreAdded }
    ensures ranks { RanksAreAdded }
    ensures cycles { CyclesAreSame }
{}
