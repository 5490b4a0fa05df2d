//! An order of a graph's nodes, or a node on a cycle, by a search in depth.
//!
//! The search keeps the nodes that are open in a path: each was met from the one before it. It looks at the next place
//! in the row of the last of them, from its end to its front. A node there that isn't met is met; one that is open closes a cycle; one that is
//! done is passed. Where its row is looked through, the last node is done, and stands in the order after all that it names.
ghost use Rattle.std.specs.Prelude.{List, [], ℕ, ◌≡◌, ◌<◌, Bool, true, Some, IfOk, OnOk, length};
ghost use Rattle.cycle_walks.specs.Descent.{next_in};
ghost use Rattle.cycle_walks.specs.Graph.{row, IsGraph};
ghost use Rattle.cycle_walks.specs.Order.{IsFound, IsOrder};
ghost use Rattle.cycle_walks.specs.Walks.{OnCycle};

use crate::graph::Graph;
use br_path::{Memory, Numbers};
use std::alloc::Global;

/// What a graph has: an order of its nodes, or a cycle.
#[derive(Debug, Drop)]
pub enum Found {
    /// Each node once, after all that it names.
    Order(Numbers),
    /// A node that is on a cycle.
    Cycle(u32),
}

/// How far the search has come with a node.
#[derive(Clone, Copy)]
enum Mark {
    /// Not met yet.
    Unmet,
    /// On the path; how many of the first places of its row are still to be looked at.
    Open(usize),
    /// In the order, as all are that it leads to.
    Done,
}

/// What the search has met so far.
#[derive(Drop)]
struct Descent {
    marks: Vec<Mark>,
    path: Vec<u32>,
    order: Vec<u32>,
}

/// An order of a graph's nodes, or a node on a cycle.
///
/// The time is proportional to the nodes and the lengths of their rows.
pub fn order(alloc: Global, graph: &Graph) -> Result<Found, Memory>
    ensures found { IfOk result (IsFound graph.now) }
    ensures graph { IsGraph graph.now }
{
    let count = graph.count();
    let mut descent = Descent::new(alloc, count)?;
    for node in 0..count {
        if let Mark::Unmet = descent.mark(node) {
            if let Some(cycle) = descent.descend(graph, node)? {
                return Ok(Found::Cycle(cycle));
            }
        }
    }
    Ok(Found::Order(Numbers {
        items: descent.order,
    }))
}

impl Descent {
    ghost use Rattle.cycle_walks.specs.Descent.{shown, unmet, met, passed, finished, mark_at, top_of, next_in, IsDescent, Steps, Descends};

    /// Nothing is met yet.
    fn new(alloc: Global, count: u32) -> Result<Descent, Memory>
        ensures { IfOk result (λ d. shown d ≡ unmet count) }
    {
        Ok(Descent {
            marks: vec![in alloc; Mark::Unmet; count as usize]?,
            path: Vec::new(alloc),
            order: Vec::new(alloc),
        })
    }

    /// How far the search has come with a node.
    fn mark(&self, node: u32) -> Mark
        requires { node < length self.now.marks.items }
        ensures { result ≡ mark_at (shown self.now).marks node }
    {
        self.marks[node as usize]
    }

    /// The last node of the path.
    fn top(&self) -> Option<u32>
        ensures { result ≡ top_of (shown self.now).path }
    {
        self.path.last().copied()
    }

    /// The last of the places in the row of an open node that are still to be looked at, and the node there.
    fn next(&self, graph: &Graph, node: u32) -> Option<(usize, u32)>
        requires node { node < length self.now.marks.items }
        requires rows { length self.now.marks.items ≡ length graph.now }
        ensures { result ≡ next_in (row graph.now node) (mark_at (shown self.now).marks node) }
    {
        match self.mark(node) {
            Mark::Open(count) => last_of_first(graph.row(node), count),
            _ => None,
        }
    }

    /// Meets a node from the last of the path.
    fn meet(&mut self, graph: &Graph, node: u32) -> Result<(), Memory>
        requires node { node < length self.old.marks.items }
        requires rows { length self.old.marks.items ≡ length graph.now }
        ensures { OnOk result (shown self.new ≡ met (shown self.old) node (length (row graph.now node))) }
    {
        self.path.push(node)?;
        self.marks[node as usize] = Mark::Open(graph.row(node).len());
        Ok(())
    }

    /// Passes a place in the row of an open node.
    fn pass(&mut self, node: u32, place: usize)
        requires { node < length self.old.marks.items }
        ensures { shown self.new ≡ passed (shown self.old) node place }
    {
        self.marks[node as usize] = Mark::Open(place);
    }

    /// Takes the last node off the path and puts it into the order.
    fn finish(&mut self, node: u32) -> Result<(), Memory>
        requires { node < length self.old.marks.items }
        ensures { OnOk result (shown self.new ≡ finished (shown self.old) node) }
    {
        self.order.push(node)?;
        self.marks[node as usize] = Mark::Done;
        let _node = self.path.pop();
        Ok(())
    }

    /// Looks at the next place in the row of the path's last node. The answer is a node on a cycle, where that closes one.
    fn step(&mut self, graph: &Graph, top: u32) -> Result<Option<u32>, Memory>
        requires graph { IsGraph graph.now }
        requires descent { IsDescent graph.now (shown self.old) }
        requires top { top_of (shown self.old).path ≡ Some top }
        ensures { IfOk result (λ found. Steps graph.now (shown self.old) found (shown self.new)) }
    {
        let Some((place, next)) = self.next(graph, top) else {
            self.finish(top)?;
            return Ok(None);
        };
        match self.mark(next) {
            Mark::Unmet => {
                self.meet(graph, next)?;
                Ok(None)
            }
            Mark::Open(_) => Ok(Some(next)),
            Mark::Done => {
                self.pass(top, place);
                Ok(None)
            }
        }
    }

    /// Meets a node and all that it leads to. The answer is a node on a cycle, where the search comes to one.
    fn descend(&mut self, graph: &Graph, node: u32) -> Result<Option<u32>, Memory>
        requires graph { IsGraph graph.now }
        requires descent { IsDescent graph.now (shown self.old) }
        requires node { node < length graph.now }
        requires mark { mark_at (shown self.old).marks node ≡ Mark.Unmet }
        requires path { (shown self.old).path ≡ [] }
        ensures { IfOk result (λ found. Descends graph.now node (shown self.old) found (shown self.new)) }
    {
        self.meet(graph, node)?;
        while let Some(top) = self.top() {
            if let Some(cycle) = self.step(graph, top)? {
                return Ok(Some(cycle));
            }
        }
        Ok(None)
    }
}

/// The last of the first `count` places of a row, and the node there.
fn last_of_first(row: &[u32], count: usize) -> Option<(usize, u32)>
    ensures { result ≡ next_in row.now (Mark.Open count) }
{
    let place = count.checked_sub(1)?;
    let node = row.get(place)?;
    Some((place, *node))
}

/// A graph has an order exactly where none of its nodes is on a cycle.
pub fn orders()
    ensures made { (count : ℕ) (names : ℕ → ℕ → Bool) → ((node other : ℕ) → names node other ≡ true → other < count)
        → ((node : ℕ) → OnCycle names node → ⊥) → (order : List ℕ) × IsOrder count names order }
    ensures none { (count : ℕ) (names : ℕ → ℕ → Bool) (order : List ℕ) → ((node other : ℕ) → names node other ≡ true → other < count)
        → IsOrder count names order → (node : ℕ) → OnCycle names node → ⊥ }
{}
