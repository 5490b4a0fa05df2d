//! An order of the symbols in which each stands after those that its equation names.
ghost use Rattle.std.specs.Prelude.{◌≡◌, ◌<◌, ◌≤◌, IfOk, IfErr, length};
ghost use Rattle.cycle_walks.specs.Graph.{names};
ghost use Rattle.cycle_walks.specs.Order.{IsOrder};
ghost use Rattle.cycle_walks.specs.Walks.{OnCycle, IsLeast};
ghost use Rattle.kc_solve.specs.Filled.{names_within};
ghost use Rattle.kc_solve.specs.Index.{IsIndex};
ghost use Rattle.kc_solve.specs.Sequence.{IsNameGraph, IsLeastOnCycle, IsCycleFault};

use crate::index::Index;
use crate::naming::graph;
use br_path::{Bytes, Memory, Numbers};
use cycle_walks::{Found, Graph, least_on_cycle, order};
use kc_equations::SolveFault;
use std::alloc::Global;

/// An order of the symbols, by their places, or the least symbol on a cycle.
pub fn order_of_names(alloc: Global, index: &Index) -> Result<Numbers, SolveFault>
    requires { IsIndex index.now }
    ensures ok { IfOk result (IsOrder (length index.now.symbols) (names_within index.now.menu.now index.now.symbols)) }
    ensures err { IfErr result (IsCycleFault index.now.menu.now) }
{
    let graph = graph(alloc, index)?;
    match order(alloc, &graph)? {
        Found::Order(order) => Ok(order),
        Found::Cycle(node) => Err(SolveFault::Cycle(least_symbol(alloc, index, &graph, node)?)),
    }
}

/// The least symbol on a cycle, where the graph of the symbols has this node on one.
fn least_symbol(alloc: Global, index: &Index, graph: &Graph, node: u32) -> Result<Bytes, Memory>
    requires index { IsIndex index.now }
    requires graph { IsNameGraph index.now.menu.now index.now.symbols graph.now }
    requires node { node < length graph.now }
    requires cycle { OnCycle (names graph.now) node }
    ensures { IfOk result (IsLeastOnCycle index.now.menu.now) }
{
    let least = least_node(alloc, graph, node)?;
    Bytes::from_slice(alloc, index.symbols.symbol(least))
}

/// The least node on a cycle of a graph that has this one on a cycle.
fn least_node(alloc: Global, graph: &Graph, node: u32) -> Result<u32, Memory>
    requires cycle { OnCycle (names graph.now) node }
    ensures least { IfOk result (IsLeast (OnCycle (names graph.now))) }
    ensures node { IfOk result (λ least. least ≤ node) }
{
    match least_on_cycle(alloc, graph)? {
        Some(least) => Ok(least),
        None => Ok(node),
    }
}
