//! The plan of the selected packages.
ghost use Rattle.std.specs.Prelude.{◌≡◌, ◌<◌, ◌↔◌, None, All, IfSome, length, position};
ghost use Rattle.std.specs.List.Sorted.{IsStrictlyIncreasing};
ghost use Rattle.dep_graph.specs.Needs.{IsNeeds, needs_of};
ghost use Rattle.plan_rows.specs.Plan.{HasRow, IsPackage, IsPlan, IsPrepOf};
ghost use Rattle.plan_rows.specs.Rows.{is_of};

use crate::rows::{TaskRow, TaskRows};
use br_path::Numbers;
use dep_graph::Graph;
use std::marker::Model;

/// What is to be done: a row for each task, what the tasks need, and the order in which they are taken.
///
/// There are at most 512 tasks, a prep and a make of each package, in the order of the packages' names. The tasks that a row names
/// are together the needs of its task. No call takes memory.
#[derive(Debug, Drop)]
pub struct Plan {
    rows: TaskRows,
    graph: Graph,
    order: Numbers,
}

impl Model for Plan {
    ghost use Rattle.plan_rows.specs.Plan.{Planned, IsPlan};

    ghost Value = { Planned };

    ghost view = { λ p. record { rows = p.rows; graph = p.graph; order = p.order } };

    ghost invariant = { λ p. IsPlan (record { rows = p.rows; graph = p.graph; order = p.order }) };
}

impl Plan {
    /// The plan of these rows, needs and order, which fit together as those of a plan do.
    pub fn new(rows: TaskRows, graph: Graph, order: Numbers) -> Plan
        requires { IsPlan (record { rows = rows; graph = graph; order = order }) }
        ensures { result ≡ record { rows = rows; graph = graph; order = order } }
    {
        Plan { rows, graph, order }
    }

    /// The rows, in the order of the tasks' numbers.
    pub fn rows(&self) -> &[TaskRow]
        ensures rows { result.now ≡ self.now.rows }
        ensures plan { IsPlan self.now }
    {
        self.rows.items.as_slice()
    }

    /// What the tasks need.
    pub fn graph(&self) -> &Graph
        ensures graph { result.now ≡ self.now.graph }
        ensures plan { IsPlan self.now }
    {
        &self.graph
    }

    /// The tasks in the order in which they are taken: again and again the least whose needs are all taken.
    pub fn order(&self) -> &[u32]
        ensures order { result.now ≡ self.now.order }
        ensures tasks { All (λ task. task < length self.now.rows) result.now }
        ensures plan { IsPlan self.now }
    {
        self.order.items.as_slice()
    }

    /// How many tasks there are.
    pub fn count(&self) -> u32
        ensures count { result ≡ length self.now.rows }
        ensures needs { IsNeeds self.now.graph }
        ensures plan { IsPlan self.now }
    {
        self.graph.count()
    }

    /// The row of a task.
    pub fn row(&self, task: u32) -> &TaskRow
        requires { task < length self.now.rows }
        ensures row { HasRow self.now task result.now }
        ensures plan { IsPlan self.now }
    {
        &self.rows.items[task as usize]
    }

    /// The tasks that a task needs, rising.
    pub fn needs(&self, task: u32) -> &[u32]
        requires { task < length self.now.rows }
        ensures needs { result.now ≡ needs_of self.now.graph task }
        ensures rising { IsStrictlyIncreasing result.now }
        ensures tasks { All (λ need. need < length self.now.rows) result.now }
        ensures plan { IsPlan self.now }
    {
        self.graph.needs(task)
    }

    /// The number of the prep task of the package with this name, if the plan has one.
    ///
    /// The time is proportional to the tasks.
    pub fn find(&self, name: &[u8]) -> Option<u32>
        ensures prep { IfSome result (IsPrepOf self.now name.now) }
        ensures none { (result ≡ None) ↔ ¬ (IsPackage self.now name.now) }
        ensures plan { IsPlan self.now }
    {
        match first_of(self.rows(), name) {
            None => None,
            Some(task) => Some(task as u32),
        }
    }
}

/// The place of the first row that is of the package with this name.
fn first_of(rows: &[TaskRow], name: &[u8]) -> Option<usize>
    ensures { result ≡ position (is_of name.now) rows.now }
{
    rows.iter().position(|row| row.package.as_slice() == name)
}
