//! What is reached from a node.
ghost use Rattle.std.specs.Prelude.{ℕ, ◌≡◌, ◌<◌, ◌^◌, ◌↔◌, true, IsTrue, All, Contains, IfOk, OnOk, length};
ghost use Rattle.std.specs.List.Sorted.{IsStrictlyIncreasing};
ghost use Rattle.cycle_walks.specs.Graph.{row, names};
ghost use Rattle.cycle_walks.specs.Reach.{is_seen, seen_nodes};
ghost use Rattle.cycle_walks.specs.Walks.{OnCycle, Reaches};

use crate::graph::Graph;
use br_path::{Memory, Numbers};
use std::alloc::Global;

/// All nodes to which a walk of one or more steps leads from a node, rising, each once.
///
/// The time is proportional to the nodes, and to the lengths of the rows of those that are reached.
pub fn reached(alloc: Global, graph: &Graph, node: u32) -> Result<Numbers, Memory>
    requires { node < length graph.now }
    ensures rising { IfOk result IsStrictlyIncreasing }
    ensures reached { IfOk result (λ nodes. (other : ℕ) → Contains nodes other ↔ Reaches (names graph.now) node other) }
{
    let seen = seen_from(alloc, graph, node)?;
    Ok(seen_nodes(alloc, seen.as_slice())?)
}

/// Whether a node is on a cycle. The time is that of `reached`.
pub fn leads_back(alloc: Global, graph: &Graph, node: u32) -> Result<bool, Memory>
    requires { node < length graph.now }
    ensures { IfOk result (λ back. IsTrue back ↔ OnCycle (names graph.now) node) }
{
    let seen = seen_from(alloc, graph, node)?;
    Ok(seen[node as usize])
}

/// For each node, whether a walk of one or more steps leads to it from a node.
fn seen_from(alloc: Global, graph: &Graph, node: u32) -> Result<Vec<bool>, Memory>
    requires { node < length graph.now }
    ensures few { length graph.now < 2 ^ 32 }
    ensures sized { IfOk result (λ seen. length seen.items ≡ length graph.now) }
    ensures reached { IfOk result (λ seen. (other : ℕ) → (is_seen seen.items other ≡ true) ↔ Reaches (names graph.now) node other) }
{
    let mut reach = Reach::new(alloc, graph.count())?;
    reach.look(graph, node)?;
    while let Some(next) = reach.todo.pop() {
        reach.look(graph, next)?;
    }
    Ok(reach.seen)
}

/// The nodes that are seen, rising.
fn seen_nodes(alloc: Global, seen: &[bool]) -> Result<Numbers, Memory>
    requires { length seen.now < 2 ^ 32 }
    ensures { IfOk result (λ nodes. nodes ≡ seen_nodes seen.now) }
{
    let mut nodes = Vec::new(alloc);
    for node in 0..seen.len() as u32 {
        if seen[node as usize] {
            nodes.push(node)?;
        }
    }
    Ok(Numbers { items: nodes })
}

/// What is seen so far, and which seen nodes' rows are still to be looked at.
#[derive(Drop)]
struct Reach {
    seen: Vec<bool>,
    todo: Vec<u32>,
}

impl Reach {
    ghost use Rattle.cycle_walks.specs.Reach.{shown, see, see_all, unseen};

    /// Nothing is seen yet.
    fn new(alloc: Global, count: u32) -> Result<Reach, Memory>
        ensures { IfOk result (λ r. shown r ≡ unseen count) }
    {
        Ok(Reach {
            seen: vec![in alloc; false; count as usize]?,
            todo: Vec::new(alloc),
        })
    }

    /// Looks at the row of a node.
    fn look(&mut self, graph: &Graph, node: u32) -> Result<(), Memory>
        requires node { node < length graph.now }
        requires sized { length self.old.seen.items ≡ length graph.now }
        ensures { OnOk result (shown self.new ≡ see_all (shown self.old) (row graph.now node)) }
    {
        self.see_all(graph.row(node))
    }

    /// Sees the nodes of a row.
    fn see_all(&mut self, row: &[u32]) -> Result<(), Memory>
        requires { All (λ node. node < length self.old.seen.items) row.now }
        ensures { OnOk result (shown self.new ≡ see_all (shown self.old) row.now) }
    {
        for node in row {
            self.see(*node)?;
        }
        Ok(())
    }

    /// Sees a node: its row is to be looked at, unless the node was seen before.
    fn see(&mut self, node: u32) -> Result<(), Memory>
        requires { node < length self.old.seen.items }
        ensures { OnOk result (shown self.new ≡ see (shown self.old) node) }
    {
        if !self.seen[node as usize] {
            self.seen[node as usize] = true;
            self.todo.push(node)?;
        }
        Ok(())
    }
}
