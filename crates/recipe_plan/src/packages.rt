//! What packages of a plan depend on.
ghost use Rattle.std.specs.Prelude.{◌≡◌, ◌≢◌, ◌*◌, ◌/◌, ◌<◌, ◌↔◌, ℕ, All, Contains, IfOk, OnOk, length, true};
ghost use Rattle.std.specs.List.Sorted.{IsStrictlyIncreasing};
ghost use Rattle.cycle_walks.specs.Graph.{names};
ghost use Rattle.cycle_walks.specs.Walks.{Reaches};
ghost use Rattle.dep_graph.specs.Needs.{IsNeeds};
ghost use Rattle.plan_rows.specs.declared.rows.Part.TheVariants.{Prep};
ghost use Rattle.plan_rows.specs.Plan.{IsPlan, IsTask};
ghost use Rattle.recipe_plan.specs.Needs.{AreAdded, task_at};
ghost use Rattle.recipe_plan.specs.Packages.{ArePackages, depends_on, place_of_task};

use br_path::{Memory, Numbers};
use dep_graph::Graph;
use plan_rows::Plan;
use std::alloc::Global;

/// The packages that a package depends on by any of its three lists. Packages are named by their prep tasks, here and in the answer, which rises; a
/// package isn't listed for itself.
pub fn depends(alloc: Global, plan: &Plan, prep: u32) -> Result<Numbers, Memory>
    requires { IsTask plan.now Prep prep }
    ensures rising { IfOk result IsStrictlyIncreasing }
    ensures packages { IfOk result (λ tasks. ArePackages prep tasks (λ place other. depends_on plan.now.graph place other ≡ true)) }
    ensures preps { IfOk result (All (IsTask plan.now Prep)) }
{
    let graph = package_graph(alloc, plan)?;
    preps(alloc, graph.needs(prep / 2), prep)
}

/// The packages that a package depends on by one step or more, in the same way.
pub fn recursive_depends(alloc: Global, plan: &Plan, prep: u32) -> Result<Numbers, Memory>
    requires { IsTask plan.now Prep prep }
    ensures rising { IfOk result IsStrictlyIncreasing }
    ensures packages { IfOk result (λ tasks. ArePackages prep tasks (Reaches (depends_on plan.now.graph))) }
    ensures preps { IfOk result (All (IsTask plan.now Prep)) }
{
    let graph = package_graph(alloc, plan)?;
    let places = graph.recursive(alloc, prep / 2)?;
    preps(alloc, places.items.as_slice(), prep)
}

/// The packages that depend on a package, in the same way.
pub fn rdepends(alloc: Global, plan: &Plan, prep: u32) -> Result<Numbers, Memory>
    requires { IsTask plan.now Prep prep }
    ensures rising { IfOk result IsStrictlyIncreasing }
    ensures packages { IfOk result (λ tasks. ArePackages prep tasks (λ place user. depends_on plan.now.graph user place ≡ true)) }
    ensures preps { IfOk result (All (IsTask plan.now Prep)) }
{
    let graph = package_graph(alloc, plan)?;
    let places = graph.rdepends(alloc, prep / 2)?;
    preps(alloc, places.items.as_slice(), prep)
}

/// Which packages, by their places, depend on which.
fn package_graph(alloc: Global, plan: &Plan) -> Result<Graph, Memory>
    ensures plan { IsPlan plan.now }
    ensures needs { IfOk result IsNeeds }
    ensures count { IfOk result (λ graph. 2 * length graph ≡ length plan.now.rows) }
    ensures names { IfOk result (λ graph. (place other : ℕ) → names graph place other ≡ depends_on plan.now.graph place other) }
{
    let count = plan.count();
    let mut graph = Graph::new(alloc, count / 2)?;
    for task in 0..count {
        put_packages(&mut graph, task, plan.needs(task))?;
    }
    prove!(2 * graph.count() == count);
    Ok(graph)
}

/// Lets the package of a task need the packages of what the task needs, except for itself.
fn put_packages(graph: &mut Graph, task: u32, needs: &[u32]) -> Result<(), Memory>
    requires task { task < 2 * length graph.old }
    requires needs { All (λ need. need < 2 * length graph.old) needs.now }
    ensures { OnOk result (AreAdded graph.old (place_of_task task) (λ other. (need : ℕ) × Contains needs.now need × (place_of_task need ≡ other) × (other ≢ place_of_task task)) graph.new) }
{
    for need in needs {
        if need / 2 != task / 2 {
            graph.need(task / 2, need / 2)?;
        }
    }
    Ok(())
}

/// The prep tasks of the packages at these places, except for one of them.
fn preps(alloc: Global, places: &[u32], own: u32) -> Result<Numbers, Memory>
    requires rising { IsStrictlyIncreasing places.now }
    requires few { All (λ place. place < 256) places.now }
    ensures rising { IfOk result IsStrictlyIncreasing }
    ensures preps { IfOk result (λ tasks. (task : ℕ) → Contains tasks task ↔ ((place : ℕ) × Contains places.now place × (task ≡ task_at Prep place) × (task ≢ own))) }
{
    let mut tasks = Vec::new(alloc);
    for place in places {
        if 2 * place != own {
            tasks.push(2 * place)?;
        }
    }
    Ok(Numbers { items: tasks })
}
