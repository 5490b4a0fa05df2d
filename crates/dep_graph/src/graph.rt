//! The needs of tasks.
ghost use Rattle.std.specs.Prelude.{ℕ, ◌≡◌, ◌<◌, ◌≤◌, ◌↔◌, [], true, IsTrue, All, Contains, IfOk, IfErr, OnOk, OnErr, length, replicate};
ghost use Rattle.std.specs.List.Sorted.{IsStrictlyIncreasing};
ghost use Rattle.cycle_walks.specs.Graph.{names};
ghost use Rattle.cycle_walks.specs.Walks.{Reaches};
ghost use Rattle.dep_graph.specs.Needs.{needs_of, IsNeeds, IsAdded};

use crate::least_first::least_first;
use br_path::{Memory, Numbers};
use cycle_walks::{least_on_cycle, reached};
use std::alloc::Global;
use std::marker::Model;

/// What each task needs.
#[derive(Debug, Drop)]
pub struct Graph {
    needs: cycle_walks::Graph,
}

impl Model for Graph {
    ghost use Rattle.dep_graph.specs.Needs.{Needs, IsNeeds};

    ghost Value = { Needs };

    ghost view = { λ g. g.needs };

    ghost invariant = { λ g. IsNeeds g.needs };
}

/// Why tasks have no order.
#[derive(Clone, Copy, Debug, PartialEq, Eq)]
pub enum OrderFault {
    /// The least task that leads back to itself by needs.
    CycleAt(u32),
    /// Out of memory.
    Memory,
}

impl From<Memory> for OrderFault {
    ghost use Rattle.dep_graph.specs.declared.graph.OrderFault.TheVariants.{Memory as want_of_memory};

    ghost from_gives = { λ _ fault. fault ≡ want_of_memory };

    fn from(_error: Memory) -> OrderFault {
        OrderFault::Memory
    }
}

impl Graph {
    ghost use Rattle.dep_graph.specs.Order.{IsOrder, IsFault};

    /// So many tasks that need nothing, at most 512.
    pub fn new(alloc: Global, count: u32) -> Result<Graph, Memory>
        requires { count ≤ 512 }
        ensures { IfOk result (λ g. g ≡ replicate count []) }
    {
        Ok(Graph {
            needs: cycle_walks::Graph::new(alloc, count)?,
        })
    }

    /// How many tasks there are.
    pub fn count(&self) -> u32
        ensures count { result ≡ length self.now }
        ensures needs { IsNeeds self.now }
    {
        self.needs.count()
    }

    /// Lets a task need another. Where it does so already, nothing changes, nor if it is out of memory.
    pub fn need(&mut self, task: u32, on: u32) -> Result<(), Memory>
        requires task { task < length self.old }
        requires on { on < length self.old }
        ensures ok { OnOk result (IsAdded self.old task on self.new) }
        ensures again { Contains (needs_of self.old task) on → self.new ≡ self.old }
        ensures err { OnErr result (self.new ≡ self.old) }
    {
        match self.needs.row(task).binary_search(&on) {
            Ok(_) => Ok(()),
            Err(place) => {
                self.needs.insert(task, place, on)?;
                Ok(())
            }
        }
    }

    /// The tasks that a task needs, rising.
    pub fn needs(&self, task: u32) -> &[u32]
        requires { task < length self.now }
        ensures needs { result.now ≡ needs_of self.now task }
        ensures rising { IsStrictlyIncreasing result.now }
        ensures tasks { All (λ need. need < length self.now) result.now }
    {
        self.needs.row(task)
    }

    /// The order in which tasks are taken: again and again the least task whose needs are all taken.
    ///
    /// The time is proportional to the needs and the square of the tasks; where a cycle is, each task up to the
    /// answer costs a search of what it needs.
    pub fn order(&self, alloc: Global) -> Result<Numbers, OrderFault>
        ensures order { IfOk result (IsOrder self.now) }
        ensures fault { IfErr result (IsFault self.now) }
    {
        if let Some(task) = least_on_cycle(alloc, &self.needs)? {
            return Err(OrderFault::CycleAt(task));
        }
        Ok(least_first(alloc, self)?)
    }

    /// All tasks that are reached from a task by one or more needs, rising.
    pub fn recursive(&self, alloc: Global, task: u32) -> Result<Numbers, Memory>
        requires { task < length self.now }
        ensures rising { IfOk result IsStrictlyIncreasing }
        ensures reached { IfOk result (λ tasks. (other : ℕ) → Contains tasks other ↔ Reaches (names self.now) task other) }
    {
        reached(alloc, &self.needs, task)
    }

    /// The tasks that need a task directly, rising.
    pub fn rdepends(&self, alloc: Global, task: u32) -> Result<Numbers, Memory>
        requires { task < length self.now }
        ensures rising { IfOk result IsStrictlyIncreasing }
        ensures users { IfOk result (λ users. (user : ℕ) → Contains users user ↔ Contains (needs_of self.now user) task) }
    {
        let mut users = Vec::new(alloc);
        for user in 0..self.count() {
            if self.is_need(user, task) {
                users.push(user)?;
            }
        }
        Ok(Numbers { items: users })
    }

    /// Whether a task needs another directly.
    fn is_need(&self, task: u32, on: u32) -> bool
        requires { task < length self.now }
        ensures { result ≡ names self.now task on }
    {
        match self.needs(task).binary_search(&on) {
            Ok(_) => true,
            Err(_) => false,
        }
    }
}
