//! Graphs, by the row of each node.
ghost use Rattle.std.specs.Prelude.{◌≡◌, ◌<◌, ◌≤◌, ◌++◌, [], ◌∷◌, IfOk, OnOk, OnErr, length, replicate, insert, slice_set};
ghost use Rattle.cycle_walks.specs.Graph.{row, IsGraph};

use br_path::{Memory, Numbers};
use std::alloc::Global;
use std::marker::Model;

/// A directed graph: for each node, numbered from 0, the row of the nodes that it names.
///
/// A row has its nodes in the order in which they were put, and a node as often as it was.
#[derive(Debug, Drop)]
pub struct Graph {
    rows: Vec<Numbers>,
}

impl Model for Graph {
    ghost use Rattle.cycle_walks.specs.Graph.{Rows, IsGraph};

    ghost Value = { Rows };

    ghost view = { λ g. g.rows.items };

    ghost invariant = { λ g. IsGraph g.rows.items };
}

impl Graph {
    /// A graph of `count` nodes that name nothing.
    pub fn new(alloc: Global, count: u32) -> Result<Graph, Memory>
        ensures { IfOk result (λ g. g ≡ replicate count []) }
    {
        let mut rows = Vec::with_capacity(alloc, count as usize)?;
        for _ in 0..count {
            rows.push(Numbers {
                items: Vec::new(alloc),
            })?;
        }
        Ok(Graph { rows })
    }

    /// How many nodes there are.
    pub fn count(&self) -> u32
        ensures count { result ≡ length self.now }
        ensures graph { IsGraph self.now }
    {
        self.rows.len() as u32
    }

    /// The nodes that a node names.
    pub fn row(&self, node: u32) -> &[u32]
        requires { node < length self.now }
        ensures row { result.now ≡ row self.now node }
        ensures graph { IsGraph self.now }
    {
        self.rows[node as usize].items.as_slice()
    }

    /// Lets a node name another, at the end of its row. If it is out of memory, the graph is as before.
    pub fn add(&mut self, node: u32, other: u32) -> Result<(), Memory>
        requires node { node < length self.old }
        requires other { other < length self.old }
        ensures ok { OnOk result (self.new ≡ slice_set self.old node (row self.old node ++ other ∷ [])) }
        ensures err { OnErr result (self.new ≡ self.old) }
    {
        self.rows[node as usize].items.push(other)?;
        Ok(())
    }

    /// Lets a node name another, at a place of its row. If it is out of memory, the graph is as before.
    pub fn insert(&mut self, node: u32, place: usize, other: u32) -> Result<(), Memory>
        requires node { node < length self.old }
        requires place { place ≤ length (row self.old node) }
        requires other { other < length self.old }
        ensures ok { OnOk result (self.new ≡ slice_set self.old node (insert (row self.old node) place other)) }
        ensures err { OnErr result (self.new ≡ self.old) }
    {
        self.rows[node as usize].items.insert(place, other)?;
        Ok(())
    }
}
