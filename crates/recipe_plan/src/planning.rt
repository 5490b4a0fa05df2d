//! The plan of files and values, or their first fault.
ghost use Rattle.std.specs.Prelude.{◌≡◌, ◌≢◌, ◌++◌, ℕ, Ok, Err, IfOk, IfErr};
ghost use Rattle.br_path.specs.Files.{AreSmall};
ghost use Rattle.cycle_walks.specs.Graph.{names};
ghost use Rattle.cycle_walks.specs.Walks.{IsLeast, OnCycle};
ghost use Rattle.dep_graph.specs.Order.{IsOrder};
ghost use Rattle.recipe_set.specs.declared.fault.PlanFault.TheVariants.{Cycle as cycle_fault, Memory as no_memory};
ghost use Rattle.recipe_set.specs.Fault.{HoldsNoMemory};
ghost use Rattle.recipe_plan.specs.Needs.{names_of};
ghost use Rattle.recipe_plan.specs.Planning.{HasNoChoice, IsChoice, IsNaming, IsPlanOf, IsPlanning};

use crate::needs::task_graph;
use crate::rows::all_rows;
use br_path::{Bytes, Files, Memory, Names, Numbers};
use dep_graph::{Graph, OrderFault};
use kc_values::Values;
use mk_expand::Vars;
use plan_rows::{Plan, TaskRows};
use recipe_set::{PlanFault, Recipes, read_recipes};
use selection::{Selection, select_packages};
use std::alloc::Global;

/// The plan of the files at values of the symbols, or their first fault in the order of `PlanFault`.
pub fn plan(alloc: Global, files: &Files, values: &Values) -> Result<Plan, PlanFault>
    requires { AreSmall files.now }
    ensures plan { IfOk result (λ plan. IsPlanning files.now values.now (Ok plan)) }
    ensures fault { IfErr result (λ fault. fault ≢ no_memory → IsPlanning files.now values.now (Err fault)) }
    ensures held { IfErr result HoldsNoMemory }
{
    let choice = choose(alloc, files, values)?;
    plan_of(alloc, &choice.recipes.vars, &choice.selection)
}

/// The names of the tasks, by their numbers, as `zlib:prep` and `zlib:make`, or the first fault that keeps packages from being
/// selected. No text of a step is expanded, and cycles of needs don't matter.
pub fn task_names(alloc: Global, files: &Files, values: &Values) -> Result<Names, PlanFault>
    requires { AreSmall files.now }
    ensures names { IfOk result (λ names. IsNaming files.now values.now (Ok names)) }
    ensures fault { IfErr result (λ fault. fault ≢ no_memory → IsNaming files.now values.now (Err fault)) }
    ensures held { IfErr result HoldsNoMemory }
{
    let choice = choose(alloc, files, values)?;
    Ok(names_of(alloc, &choice.selection)?)
}

/// The recipes, and the packages that are selected.
#[derive(Drop)]
struct Choice {
    recipes: Recipes,
    selection: Selection,
}

/// The recipes of files and the packages that are selected, or why there are none.
fn choose(alloc: Global, files: &Files, values: &Values) -> Result<Choice, PlanFault>
    requires { AreSmall files.now }
    ensures choice { IfOk result (λ choice. IsChoice files.now values.now choice.recipes choice.selection) }
    ensures fault { IfErr result (λ fault. fault ≢ no_memory → HasNoChoice files.now values.now fault) }
    ensures held { IfErr result HoldsNoMemory }
{
    let recipes = read_recipes(alloc, files, values)?;
    let selection = select_packages(alloc, files, values, &recipes)?;
    Ok(Choice { recipes, selection })
}

/// The plan of selected packages, or its first fault.
fn plan_of(alloc: Global, vars: &Vars, selection: &Selection) -> Result<Plan, PlanFault>
    ensures plan { IfOk result (λ plan. IsPlanOf vars.now selection.now (Ok plan)) }
    ensures fault { IfErr result (λ fault. fault ≢ no_memory → IsPlanOf vars.now selection.now (Err fault)) }
    ensures held { IfErr result HoldsNoMemory }
{
    let graph = task_graph(alloc, selection)?;
    let rows = all_rows(alloc, vars, &graph, selection.packages())?;
    let order = order_of(alloc, &graph)?;
    Ok(Plan::new(rows, graph, order))
}

/// The order in which tasks are taken.
fn order_of(alloc: Global, graph: &Graph) -> Result<Numbers, PlanFault>
    ensures order { IfOk result (IsOrder graph.now) }
    ensures fault { IfErr result (λ fault. fault ≢ no_memory → (task : ℕ) × (fault ≡ cycle_fault task) × IsLeast (OnCycle (names graph.now)) task) }
    ensures held { IfErr result HoldsNoMemory }
{
    match graph.order(alloc) {
        Ok(order) => Ok(order),
        Err(OrderFault::CycleAt(task)) => Err(PlanFault::Cycle(task)),
        Err(OrderFault::Memory) => Err(PlanFault::Memory),
    }
}

/// The names of the tasks of selected packages.
fn names_of(alloc: Global, selection: &Selection) -> Result<Names, Memory>
    ensures { IfOk result (λ names. names ≡ names_of selection.now) }
{
    let mut items = Vec::new(alloc);
    for item in selection.packages() {
        items.push(task_name(&item.made.name, b":prep")?)?;
        items.push(task_name(&item.made.name, b":make")?)?;
    }
    Ok(Names { items })
}

/// The name of a made package with an ending.
fn task_name(made: &Bytes, ending: &[u8]) -> Result<Bytes, Memory>
    ensures { IfOk result (λ name. name ≡ made.now ++ ending.now) }
{
    let mut name = made.copy()?;
    name.items.extend_from_slice(ending)?;
    Ok(name)
}
