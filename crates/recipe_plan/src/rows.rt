//! The rows of the tasks.
ghost use Rattle.std.specs.Prelude.{◌≡◌, ◌+◌, ◌<◌, ◌≤◌, IfOk, filter, length};
ghost use Rattle.dep_graph.specs.Needs.{needs_of};
ghost use Rattle.plan_rows.specs.declared.rows.Part.TheVariants.{Make};
ghost use Rattle.plan_rows.specs.Plan.{own_prep_of};
ghost use Rattle.recipe_plan.specs.Answers.{Gives, Leaves};
ghost use Rattle.recipe_plan.specs.Needs.{AreNeeds};
ghost use Rattle.recipe_plan.specs.Rows.{all_rows, is_make, is_readable, put_rows, put_task, row_of, task_row};
ghost use Rattle.recipe_plan.specs.Owned.{IsOwner};

use crate::steps::task_steps;
use crate::texts::Owner;
use br_path::{Memory, Numbers};
use dep_graph::Graph;
use mk_expand::Vars;
use plan_rows::{Part, StepRows, TaskRow, TaskRows};
use recipe_set::PlanFault;
use selection::Listed;
use std::alloc::Global;

/// The rows of all tasks, or the fault of the first text that has no value.
pub(crate) fn all_rows(
    alloc: Global,
    vars: &Vars,
    graph: &Graph,
    packages: &[Listed],
) -> Result<TaskRows, PlanFault>
    requires { AreNeeds packages.now graph.now }
    ensures { Gives (all_rows vars.now graph.now packages.now) result }
{
    let mut rows = TaskRows {
        items: Vec::new(alloc),
    };
    for item in packages {
        put_rows(alloc, vars, graph, &mut rows, item)?;
    }
    Ok(rows)
}

/// Puts the rows of a package's two tasks after those of the packages before it.
fn put_rows(
    alloc: Global,
    vars: &Vars,
    graph: &Graph,
    rows: &mut TaskRows,
    item: &Listed,
) -> Result<(), PlanFault>
    requires few { length graph.now ≤ 512 }
    requires tasks { length rows.old + 1 < length graph.now }
    ensures { Leaves (put_rows vars.now graph.now rows.old item.now) result rows.new }
{
    let owner = Owner::new(alloc, vars, &item.made)?;
    put_task(alloc, &owner, graph, rows, item, Part::Prep)?;
    put_task(alloc, &owner, graph, rows, item, Part::Make)
}

/// Puts the row of a package's task after those of the tasks before it.
fn put_task(
    alloc: Global,
    owner: &Owner<'_>,
    graph: &Graph,
    rows: &mut TaskRows,
    item: &Listed,
    part: Part,
) -> Result<(), PlanFault>
    requires owner { IsOwner owner.now }
    requires made { owner.now.made.now ≡ item.now.made }
    requires few { length graph.now ≤ 512 }
    requires task { length rows.old < length graph.now }
    requires make { part ≡ Make → 1 ≤ length rows.old }
    ensures { Leaves (put_task owner.now.vars.now graph.now rows.old item.now part) result rows.new }
{
    let task = rows.items.as_slice().len() as u32;
    let row = task_row(alloc, owner, graph, item, part, task)?;
    rows.items.push(row)?;
    Ok(())
}

/// The row of a task with its steps.
fn task_row(
    alloc: Global,
    owner: &Owner<'_>,
    graph: &Graph,
    item: &Listed,
    part: Part,
    task: u32,
) -> Result<TaskRow, PlanFault>
    requires owner { IsOwner owner.now }
    requires made { owner.now.made.now ≡ item.now.made }
    requires task { task < length graph.now }
    requires make { part ≡ Make → 1 ≤ task }
    ensures { Gives (task_row owner.now.vars.now graph.now item.now part task) result }
{
    let steps = task_steps(alloc, owner, part)?;
    Ok(row_of(alloc, item, part, task, graph.needs(task), steps)?)
}

/// The row of a task, by what it needs and by its steps.
fn row_of(
    alloc: Global,
    item: &Listed,
    part: Part,
    task: u32,
    needs: &[u32],
    steps: StepRows,
) -> Result<TaskRow, Memory>
    requires { part ≡ Make → 1 ≤ task }
    ensures { IfOk result (λ row. row ≡ row_of item.now part task needs.now steps) }
{
    Ok(TaskRow {
        package: item.made.name.copy()?,
        folder: item.made.folder.copy()?,
        host: item.made.host,
        part,
        steps,
        fills: makes(alloc, needs)?,
        own_prep: own_prep(part, task),
        readable: readable(alloc, part, needs)?,
    })
}

/// The make tasks among these.
fn makes(alloc: Global, needs: &[u32]) -> Result<Numbers, Memory>
    ensures { IfOk result (λ made. made ≡ filter is_make needs.now) }
{
    let items = needs
        .iter()
        .copied()
        .filter(|need| is_make(*need))
        .collect(alloc)?;
    Ok(Numbers { items })
}

/// The tasks among these whose build trees a task may read.
fn readable(alloc: Global, part: Part, needs: &[u32]) -> Result<Numbers, Memory>
    ensures { IfOk result (λ read. read ≡ filter (is_readable part) needs.now) }
{
    let items = needs
        .iter()
        .copied()
        .filter(|need| is_readable(part, *need))
        .collect(alloc)?;
    Ok(Numbers { items })
}

fn is_readable(part: Part, need: u32) -> bool
    ensures { result ≡ is_readable part need }
{
    match part {
        Part::Prep => !is_make(need),
        Part::Make => false,
    }
}

/// Whether a number is that of a make task.
fn is_make(task: u32) -> bool
    ensures { result ≡ is_make task }
{
    task % 2 != 0
}

/// The prep task of the same package, where this is its make.
fn own_prep(part: Part, task: u32) -> Option<u32>
    requires { part ≡ Make → 1 ≤ task }
    ensures { result ≡ own_prep_of part task }
{
    match part {
        Part::Prep => None,
        Part::Make => Some(task - 1),
    }
}
