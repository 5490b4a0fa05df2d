//! What the tasks of the selected packages need.
ghost use Rattle.std.specs.Prelude.{◌≡◌, ◌≢◌, ◌*◌, ◌<◌, ◌≤◌, ◌↔◌, ◌⊎◌, ℕ, Contains, IfOk, OnOk, length};
ghost use Rattle.dep_graph.specs.Needs.{needs_of};
ghost use Rattle.plan_rows.specs.declared.rows.Part.TheVariants.{Prep as PrepPart, Make as MakePart};
ghost use Rattle.recipe_plan.specs.Needs.{AreAdded, AreNeeds, IsTaskOf, MakeNeeds, PrepNeeds, task_at};

use br_path::{Memory, Names};
use dep_graph::Graph;
use plan_rows::Part;
use selection::{Listed, Selection};
use std::alloc::Global;

/// What the tasks of the selected packages need.
pub(crate) fn task_graph(alloc: Global, selection: &Selection) -> Result<Graph, Memory>
    ensures { IfOk result (AreNeeds selection.now) }
{
    let packages = selection.packages();
    let mut graph = Graph::new(alloc, 2 * packages.len() as u32)?;
    for (place, item) in packages.iter().enumerate() {
        put_needs(&mut graph, selection, place as u32, item)?;
    }
    prove!(graph.count() == 2 * packages.len() as u32);
    Ok(graph)
}

/// Lets the two tasks of the package at a place need what they do.
fn put_needs(
    graph: &mut Graph,
    selection: &Selection,
    place: u32,
    item: &Listed,
) -> Result<(), Memory>
    requires count { length graph.old ≡ 2 * length selection.now }
    requires few { length selection.now ≤ 256 }
    requires place { place < length selection.now }
    ensures count { OnOk result (length graph.new ≡ length graph.old) }
    ensures prep { OnOk result ((need : ℕ) → Contains (needs_of graph.new (task_at PrepPart place)) need ↔ (Contains (needs_of graph.old (task_at PrepPart place)) need ⊎ PrepNeeds selection.now item.now need)) }
    ensures make { OnOk result ((need : ℕ) → Contains (needs_of graph.new (task_at MakePart place)) need ↔ (Contains (needs_of graph.old (task_at MakePart place)) need ⊎ MakeNeeds selection.now (task_at PrepPart place) item.now need)) }
    ensures others { OnOk result ((other : ℕ) → other ≢ task_at PrepPart place → other ≢ task_at MakePart place → (need : ℕ) → Contains (needs_of graph.new other) need ↔ Contains (needs_of graph.old other) need) }
{
    let prep = task_at(Part::Prep, place);
    let make = task_at(Part::Make, place);
    graph.need(make, prep)?;
    need_all(graph, selection, prep, Part::Make, &item.extract)?;
    need_all(graph, selection, prep, Part::Prep, &item.patch)?;
    need_all(graph, selection, make, Part::Make, &item.depends)?;
    need_all(graph, selection, make, Part::Make, &item.extract)
}

/// Lets a task need the preps, or the makes, of the packages of these names.
fn need_all(
    graph: &mut Graph,
    selection: &Selection,
    task: u32,
    part: Part,
    names: &Names,
) -> Result<(), Memory>
    requires count { length graph.old ≡ 2 * length selection.now }
    requires few { length selection.now ≤ 256 }
    requires task { task < length graph.old }
    ensures { OnOk result (AreAdded graph.old task (IsTaskOf selection.now part names.now) graph.new) }
{
    for name in &names.items {
        if let Some(place) = selection.place(name.as_slice()) {
            graph.need(task, task_at(part, place))?;
        }
    }
    Ok(())
}

/// The number of the prep, or of the make, of the package at a place.
fn task_at(part: Part, place: u32) -> u32
    requires { place < 256 }
    ensures { result ≡ task_at part place }
{
    match part {
        Part::Prep => 2 * place,
        Part::Make => 2 * place + 1,
    }
}
