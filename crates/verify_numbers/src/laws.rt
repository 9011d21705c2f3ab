//! The law over numbered graphs: numbers that are reckoned node by node are the ranks, costs and depths of a definition's graph, and a cycle of
//! nodes is a cycle of its channels.

ghost use Rattle.verify_numbers.specs.Cycles.{CyclesAreTold, CyclesHaveChannels};
ghost use Rattle.verify_numbers.specs.Tables.{ChainsAreRanks, CostsAreSolved, DepthsAreSolved};

/// Where a graph is sketched by numbers, and the sketch is a graph of nodes, what solves the nodes' rules of costs is the graph's costs, capped.
pub fn costs()
    ensures solved { CostsAreSolved }
{}

/// Where a graph is sketched so, what solves the nodes' rules of depths is the graph's depths.
pub fn depths()
    ensures solved { DepthsAreSolved }
{}

/// Where a graph is sketched so, the longest chains of nodes of channels are the graph's ranks.
pub fn ranks()
    ensures solved { ChainsAreRanks }
{}

/// Each cycle of nodes goes through the node of a channel.
pub fn cycle_channels()
    ensures present { CyclesHaveChannels }
{}

/// A cycle of nodes, from that of a channel on, is one of channels, with what leads from each to the next; no channel is twice in it.
pub fn cycle_links()
    ensures told { CyclesAreTold }
{}
