//! A search for an order or a cycle. It goes from a node to the first one that it depends on and that is not done, and so on down. A node
//! is done when all its edges lead to nodes that are done. An edge that leads back to the path closes a cycle.

ghost use Rattle.std.specs.Prelude.{◌≡◌, ◌<◌, ◌≤◌, ◌↔◌, ℕ, length, slice_get, slice_index_or, Some, IsTrue, IfSome, IfNone, IfOk, OnOk, drop};
ghost use Rattle.verify_order.specs.Graphs.{IsCycle, IsGraph};
ghost use Rattle.verify_order.specs.Searches.{AreDone, IsDone, IsLast, IsSearch, at_first, begun_at, done_with, down_to, left, passed_of};

use crate::dependencies::Dependencies;
use std::alloc::{AllocError, Global};
use std::marker::Model;

/// The state of a search.
#[derive(Drop)]
pub(crate) struct Search {
    // For each node, how many of its edges are known to lead to nodes that are done.
    passed: Vec<usize>,
    path: Vec<usize>,
    // For each node on the path, its place there.
    place: Vec<usize>,
    order: Vec<usize>,
    // For each node that is done, its position in the order.
    position: Vec<usize>,
}

impl Model for Search {
    ghost use Rattle.verify_order.specs.Searches.{State, state};

    ghost Value = { State };

    ghost view = { λ s. state s.passed.items s.path.items s.place.items s.order.items s.position.items };
}

impl Search {
    /// Creates a search of `count` nodes, none of which is done.
    pub(crate) fn new(alloc: Global, count: usize) -> Result<Search, AllocError>
        ensures { IfOk result (λ s. s ≡ at_first count) }
    {
        Ok(Search {
            passed: vec![in alloc; 0; count]?,
            path: Vec::new(alloc),
            place: vec![in alloc; 0; count]?,
            order: Vec::new(alloc),
            position: vec![in alloc; 0; count]?,
        })
    }

    /// Returns the nodes on the path.
    pub(crate) fn path(&self) -> &[usize]
        ensures { result.now ≡ self.now.path }
    {
        self.path.as_slice()
    }

    /// Returns the nodes that are done, in order.
    pub(crate) fn into_order(self) -> Vec<usize>
        ensures { result.items ≡ self.order }
    {
        self.order
    }

    /// Goes on until `root` is done and returns `None`, or until an edge leads back to the path and returns the place there that it leads
    /// to.
    pub(crate) fn visit(
        &mut self,
        dependencies: &Dependencies,
        root: usize,
    ) -> Result<Option<usize>, AllocError>
        requires graph { IsGraph dependencies.now }
        requires search { IsSearch dependencies.now self.old }
        requires inside { root < length dependencies.now }
        ensures search { OnOk result (IsSearch dependencies.now self.new) }
        ensures done { IfOk result (λ r. IfNone r (IsDone self.new root)) }
        ensures kept { OnOk result ((n : ℕ) → IsDone self.old n → IsDone self.new n) }
        ensures cycle { IfOk result (λ r. IfSome r (λ place. IsCycle dependencies.now (drop place self.new.path))) }
        ensures within { IfOk result (λ r. IfSome r (λ place. place ≤ length self.new.path)) }
    {
        'steps: while !self.is_done(root) {
            if let Some(place) = self.advance(dependencies, root)? {
                return Ok(Some(place));
            }
        }
        Ok(None)
    }

    // Makes one step at the end of the path, or begins the path at `root`, which is not done, if it is empty.
    fn advance(
        &mut self,
        dependencies: &Dependencies,
        root: usize,
    ) -> Result<Option<usize>, AllocError>
        requires graph { IsGraph dependencies.now }
        requires search { IsSearch dependencies.now self.old }
        requires inside { root < length dependencies.now }
        requires waits { IsDone self.old root → ⊥ }
        ensures search { OnOk result (IsSearch dependencies.now self.new) }
        ensures falls { IfOk result (λ r. IfNone r (left dependencies.now self.new < left dependencies.now self.old)) }
        ensures kept { OnOk result ((n : ℕ) → IsDone self.old n → IsDone self.new n) }
        ensures cycle { IfOk result (λ r. IfSome r (λ place. IsCycle dependencies.now (drop place self.new.path))) }
        ensures within { IfOk result (λ r. IfSome r (λ place. place ≤ length self.new.path)) }
    {
        let Some(node) = last_of(self.path()) else {
            self.begin(root)?;
            return Ok(None);
        };
        self.step(dependencies, node)
    }

    // Makes one step from the last node of the path. The node is done, or the path goes on, or an edge leads back to the path. In the last
    // case it returns the place on the path that the edge leads to.
    fn step(
        &mut self,
        dependencies: &Dependencies,
        node: usize,
    ) -> Result<Option<usize>, AllocError>
        requires graph { IsGraph dependencies.now }
        requires search { IsSearch dependencies.now self.old }
        requires last { IsLast self.old.path node }
        ensures search { OnOk result (IsSearch dependencies.now self.new) }
        ensures falls { IfOk result (λ r. IfNone r (left dependencies.now self.new < left dependencies.now self.old)) }
        ensures kept { OnOk result ((n : ℕ) → IsDone self.old n → IsDone self.new n) }
        ensures cycle { IfOk result (λ r. IfSome r (λ place. IsCycle dependencies.now (drop place self.new.path))) }
        ensures within { IfOk result (λ r. IfSome r (λ place. place ≤ length self.new.path)) }
    {
        let edges = dependencies.edges(node);
        let Some(number) = self.first_waiting(edges, self.passed_count(edges, node)) else {
            self.finish(node)?;
            return Ok(None);
        };
        let to = edges[number] as usize;
        if let Some(place) = self.place_on_path(to) {
            return Ok(Some(place));
        }
        self.go_down(node, number, to)?;
        Ok(None)
    }

    // Returns the index of the first edge, from index `from` on, that leads to a node that is not done.
    fn first_waiting(&self, edges: &[u32], from: usize) -> Option<usize>
        requires inside { (k to : ℕ) → slice_get edges.now k ≡ Some to → to < length self.now.position }
        requires positioned { (k node : ℕ) → slice_get self.now.order k ≡ Some node → slice_get self.now.position node ≡ Some k }
        requires passed { AreDone self.now edges.now from }
        requires few { from ≤ length edges.now }
        ensures found { IfSome result (λ k. k < length edges.now) }
        ensures before { IfSome result (λ k. AreDone self.now edges.now k) }
        ensures waits { IfSome result (λ k. IsDone self.now (slice_index_or edges.now k 0) → ⊥) }
        ensures all { IfNone result (AreDone self.now edges.now (length edges.now)) }
    {
        for number in from..edges.len() {
            let to = edges[number] as usize;
            if !self.is_done(to) {
                return Some(number);
            }
        }
        None
    }

    // Returns whether a node is done.
    fn is_done(&self, node: usize) -> bool
        requires inside { node < length self.now.position }
        requires positioned { (k n : ℕ) → slice_get self.now.order k ≡ Some n → slice_get self.now.position n ≡ Some k }
        ensures { IsTrue result ↔ IsDone self.now node }
    {
        let position = self.position[node];
        position < self.order.len() && self.order[position] == node
    }

    // Returns the place of a node on the path, or `None` if it is not there.
    fn place_on_path(&self, node: usize) -> Option<usize>
        requires inside { node < length self.now.place }
        requires placed { (i n : ℕ) → slice_get self.now.path i ≡ Some n → slice_get self.now.place n ≡ Some i }
        ensures some { IfSome result (λ i. slice_get self.now.path i ≡ Some node) }
        ensures none { IfNone result ((i : ℕ) → slice_get self.now.path i ≡ Some node → ⊥) }
    {
        let place = self.place[node];
        if place < self.path.len() && self.path[place] == node {
            Some(place)
        } else {
            None
        }
    }

    // Returns how many of a node's edges are known to lead to nodes that are done.
    fn passed_count(&self, edges: &[u32], node: usize) -> usize
        requires inside { node < length self.now.passed }
        ensures { result ≡ passed_of self.now edges.now node }
    {
        self.passed[node].min(edges.len())
    }

    // Begins the path at a node.
    fn begin(&mut self, root: usize) -> Result<(), AllocError>
        requires inside { root < length self.old.place }
        ensures { OnOk result (self.new ≡ begun_at self.old root) }
    {
        self.place[root] = self.path.len();
        self.path.push(root)?;
        Ok(())
    }

    // Extends the path by the node `to`, which edge `number` of `node` leads to.
    fn go_down(&mut self, node: usize, number: usize, to: usize) -> Result<(), AllocError>
        requires node { node < length self.old.passed }
        requires inside { to < length self.old.place }
        ensures { OnOk result (self.new ≡ down_to self.old node number to) }
    {
        self.passed[node] = number;
        self.place[to] = self.path.len();
        self.path.push(to)?;
        Ok(())
    }

    // Takes the last node off the path and marks it as done.
    fn finish(&mut self, node: usize) -> Result<(), AllocError>
        requires inside { node < length self.old.position }
        ensures { OnOk result (self.new ≡ done_with self.old node) }
    {
        self.position[node] = self.order.len();
        self.order.push(node)?;
        let _ = self.path.pop();
        Ok(())
    }
}

// Returns the last of some nodes.
fn last_of(nodes: &[usize]) -> Option<usize>
    ensures some { IfSome result (λ node. IsLast nodes.now node) }
    ensures none { IfNone result (length nodes.now ≡ 0) }
{
    if nodes.is_empty() {
        return None;
    }
    Some(nodes[nodes.len() - 1])
}
