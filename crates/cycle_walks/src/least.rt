//! The least node on a cycle.
ghost use Rattle.std.specs.Prelude.{ℕ, IfOk, MatchOption};
ghost use Rattle.cycle_walks.specs.Graph.{names};
ghost use Rattle.cycle_walks.specs.Walks.{OnCycle, IsLeast};

use crate::depth_first::{Found, order};
use crate::graph::Graph;
use crate::reach::leads_back;
use br_path::Memory;
use std::alloc::Global;

/// The least node that is on a cycle; none exactly where no node is.
///
/// Where no node is, the time is that of `order`. Else each node up to the answer costs a search of what it reaches.
pub fn least_on_cycle(alloc: Global, graph: &Graph) -> Result<Option<u32>, Memory>
    ensures { IfOk result (λ least. MatchOption least ((node : ℕ) → ¬ (OnCycle (names graph.now) node)) (IsLeast (OnCycle (names graph.now)))) }
{
    if let Found::Order(_) = order(alloc, graph)? {
        return Ok(None);
    }
    first_on_cycle(alloc, graph)
}

/// The first node that leads back to itself.
fn first_on_cycle(alloc: Global, graph: &Graph) -> Result<Option<u32>, Memory>
    ensures { IfOk result (λ least. MatchOption least ((node : ℕ) → ¬ (OnCycle (names graph.now) node)) (IsLeast (OnCycle (names graph.now)))) }
{
    for node in 0..graph.count() {
        if leads_back(alloc, graph, node)? {
            return Ok(Some(node));
        }
    }
    Ok(None)
}
