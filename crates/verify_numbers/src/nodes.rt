//! The nodes of a graph, with their rules.

ghost use Rattle.std.specs.Prelude.{◌≡◌, ◌<◌, ◌≤◌, ◌∷◌, [], true, false, length, OnOk};
ghost use Rattle.verify_numbers.specs.Columns.{linked, no_columns, with_row};

use std::alloc::{AllocError, Global};
use std::marker::Model;
use verify_order::{Dependencies, Rule};

/// The nodes of a graph by number: what each depends on, the rules of its cost and of its depth, and whether it counts in ranks.
#[derive(Drop)]
pub struct Nodes {
    pub(crate) dependencies: Dependencies,
    pub(crate) costs: Vec<Rule>,
    pub(crate) depths: Vec<Rule>,
    pub(crate) counts: Vec<bool>,
}

impl Model for Nodes {
    ghost use Rattle.verify_numbers.specs.Columns.{Columns};

    ghost Value = { Columns };

    ghost view = { λ n. record { graph = n.dependencies; costs = n.costs.items; depths = n.depths.items; counts = n.counts.items } };
}

/// Returns the rule that adds the numbers of what a node depends on, multiplies the sum by `times`, and adds `more`.
pub(crate) fn sum_of(times: u32, more: u64) -> Rule
    ensures { result ≡ record { adds = true; times = times; more = more } }
{
    Rule {
        adds: true,
        times,
        more,
    }
}

/// Returns the rule that takes the greatest number of what a node depends on, multiplies it by `times`, and adds `more`.
pub(crate) fn greatest_of(times: u32, more: u64) -> Rule
    ensures { result ≡ record { adds = false; times = times; more = more } }
{
    Rule {
        adds: false,
        times,
        more,
    }
}

impl Nodes {
    /// Creates a list without nodes. It takes no memory.
    pub fn new(alloc: Global) -> Nodes
        ensures { result ≡ no_columns }
    {
        Nodes {
            dependencies: Dependencies::new(alloc),
            costs: Vec::new(alloc),
            depths: Vec::new(alloc),
            counts: Vec::new(alloc),
        }
    }

    /// Adds a node that depends on nothing so far.
    ///
    /// # Errors
    ///
    /// `AllocError` if memory is refused.
    pub fn add(&mut self, cost: Rule, depth: Rule, counts: bool) -> Result<(), AllocError>
        ensures { OnOk result (self.new ≡ with_row self.old [] cost depth counts) }
    {
        self.dependencies.add_node()?;
        self.costs.push(cost)?;
        self.depths.push(depth)?;
        self.counts.push(counts)?;
        Ok(())
    }

    /// Adds an edge from the node that was added last to the node `to`.
    ///
    /// # Errors
    ///
    /// `AllocError` if memory is refused.
    pub fn link(&mut self, to: u128) -> Result<(), AllocError>
        requires node { 0 < length self.old.graph }
        requires fits { to ≤ 4294967295 }
        ensures { OnOk result (self.new ≡ linked self.old (to ∷ [])) }
    {
        self.dependencies.add_edge(to as u32)?;
        Ok(())
    }
}
