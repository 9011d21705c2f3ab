//! Numbers nodes by rules in one pass over an order of them.

ghost use Rattle.std.specs.Prelude.{◌≡◌, ◌<◌, ◌≤◌, ◌^◌, ℕ, length, min, slice_get, Some, IfOk};
ghost use Rattle.verify_order.specs.Graphs.{IsOrder};
ghost use Rattle.verify_order.specs.Numbers.{AreWithin, LeadInside, Solves, counted, greatest, number_by, of_node, total};

use crate::Dependencies;
use crate::rules::Rule;
use std::alloc::{AllocError, Global};

// Returns the sum of the numbers of some nodes, capped at `most`.
fn total(values: &[u64], nodes: &[u32], most: u64) -> u64
    requires inside { LeadInside nodes.now values.now }
    requires within { AreWithin values.now most }
    requires few { most ≤ 2 ^ 40 }
    ensures { result ≡ min (total (of_node values.now) nodes.now) most }
{
    let mut total = 0;
    for number in 0..nodes.len() {
        let node = nodes[number] as usize;
        total = most.min(total + values[node]);
    }
    total
}

// Returns the greatest of the numbers of some nodes, or 0 if there are none.
fn greatest(values: &[u64], nodes: &[u32]) -> u64
    requires { LeadInside nodes.now values.now }
    ensures { result ≡ greatest (of_node values.now) nodes.now }
{
    let mut greatest = 0;
    for number in 0..nodes.len() {
        let node = nodes[number] as usize;
        greatest = values[node].max(greatest);
    }
    greatest
}

// Returns the sum of the numbers of some nodes or the greatest of them, capped at `most`.
fn counted(adds: bool, values: &[u64], nodes: &[u32], most: u64) -> u64
    requires inside { LeadInside nodes.now values.now }
    requires within { AreWithin values.now most }
    requires few { most ≤ 2 ^ 40 }
    ensures { result ≡ min (counted adds (of_node values.now) nodes.now) most }
{
    if adds {
        return total(values, nodes, most);
    }
    greatest(values, nodes).min(most)
}

// Returns the number that a rule gives a node that depends on these nodes, capped at `most`.
fn number_of(rule: &Rule, values: &[u64], nodes: &[u32], most: u64) -> u64
    requires inside { LeadInside nodes.now values.now }
    requires within { AreWithin values.now most }
    requires few { most ≤ 2 ^ 40 }
    ensures { result ≡ number_by rule.now most (of_node values.now) nodes.now }
{
    let counted = counted(rule.adds, values, nodes, most);
    let number = u128::from(rule.times) * u128::from(counted) + u128::from(rule.more);
    u128::from(most).min(number) as u64
}

// Returns the rule of a node.
fn rule_of(rules: &[Rule], node: usize) -> Rule
    requires { node < length rules.now }
    ensures { slice_get rules.now node ≡ Some result }
{
    rules[node]
}

/// Computes the number of each node by its rule, capped at `most`. In the order, each node must come after those that it depends on.
///
/// # Errors
///
/// `AllocError` if memory is refused.
pub fn numbers(
    alloc: Global,
    rules: &[Rule],
    dependencies: &Dependencies,
    order: &[usize],
    most: u64,
) -> Result<Vec<u64>, AllocError>
    requires count { length rules.now ≡ length dependencies.now }
    requires order { IsOrder dependencies.now order.now }
    requires few { most ≤ 2 ^ 40 }
    ensures { IfOk result (λ values. Solves rules.now most dependencies.now values.items) }
{
    let mut values = vec![in alloc; 0; rules.len()]?;
    for place in 0..order.len() {
        let node = order[place];
        let rule = rule_of(rules, node);
        let nodes = dependencies.edges(node);
        values[node] = number_of(&rule, values.as_slice(), nodes, most);
    }
    Ok(values)
}
