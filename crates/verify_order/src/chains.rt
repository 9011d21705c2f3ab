//! The ranks of nodes: how many nodes that count are on the longest chain that ends in each node.

ghost use Rattle.std.specs.Prelude.{◌≡◌, ◌<◌, ◌≤◌, ℕ, length, replicate, slice_index_or, false, IfOk};
ghost use Rattle.verify_order.specs.Graphs.{IsOrder};
ghost use Rattle.verify_order.specs.Chains.{AreRanks, handed_on, one_if};
ghost use Rattle.verify_order.specs.Numbers.{AreWithin, LeadInside};

use crate::Dependencies;
use std::alloc::{AllocError, Global};

// Raises the numbers of some nodes to `number` where they are less.
fn hand_on(ranks: &mut Vec<u64>, nodes: &[u32], number: u64)
    requires { LeadInside nodes.now ranks.old.items }
    ensures { ranks.new.items ≡ handed_on nodes.now number ranks.old.items }
{
    for place in 0..nodes.len() {
        let node = nodes[place] as usize;
        ranks[node] = ranks[node].max(number);
    }
}

// Returns a list of `count` zeros.
fn zeros(alloc: Global, count: usize) -> Result<Vec<u64>, AllocError>
    ensures { IfOk result (λ zeros. zeros.items ≡ replicate count 0) }
{
    Ok(vec![in alloc; 0; count]?)
}

// Returns 1 for a node that counts, or else 0.
fn one_if(counts: &[bool], node: usize) -> u64
    requires { node < length counts.now }
    ensures { result ≡ one_if (slice_index_or counts.now node false) }
{
    if counts[node] { 1 } else { 0 }
}

/// Returns the rank of each node, which is the number of nodes that count and come before it on the longest chain that ends in it. Each
/// node of a chain depends on the next one. No rank is above the number of nodes.
///
/// # Errors
///
/// `AllocError` if memory is refused.
pub fn ranks(
    alloc: Global,
    counts: &[bool],
    dependencies: &Dependencies,
    order: &[usize],
) -> Result<Vec<u64>, AllocError>
    requires count { length counts.now ≡ length dependencies.now }
    requires order { IsOrder dependencies.now order.now }
    ensures ranked { IfOk result (λ ranks. AreRanks counts.now dependencies.now ranks.items) }
    ensures few { IfOk result (λ ranks. AreWithin ranks.items (length dependencies.now)) }
{
    let mut ranks = zeros(alloc, counts.len())?;
    let count = order.len();
    for behind in 0..count {
        let node = order[count - 1 - behind];
        let number = ranks[node] + one_if(counts, node);
        hand_on(&mut ranks, dependencies.edges(node), number);
    }
    Ok(ranks)
}
