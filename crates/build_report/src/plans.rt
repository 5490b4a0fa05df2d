//! The texts of a plan and of packages of it.
ghost use Rattle.std.specs.Prelude.{◌≡◌, ◌<◌, ◌++◌, All, IfOk, OnOk, length};
ghost use Rattle.build_report.specs.Plans as text;

use br_path::{Bytes, Memory, Numbers};
use plan_rows::{Part, Plan};
use std::alloc::{AllocError, Global};

/// The text of a plan: a line for each task, in the order in which they are taken. On it stand the task and those that it
/// needs, which rise by their numbers, with a space between two.
pub fn plan_text(alloc: Global, plan: &Plan) -> Result<Bytes, Memory>
    ensures { IfOk result (λ b. b ≡ text.plan_text plan.now) }
{
    let mut items = Vec::new(alloc);
    for task in plan.order() {
        push_line(&mut items, plan, *task)?;
    }
    Ok(Bytes { items })
}

// Puts the line of a task after others.
fn push_line(items: &mut Vec<u8>, plan: &Plan, task: u32) -> Result<(), AllocError>
    requires { task < length plan.now.rows }
    ensures { OnOk result (items.new.items ≡ items.old.items ++ text.task_line plan.now task) }
{
    push_task(items, plan, task)?;
    push_needs(items, plan, task)?;
    items.push(b'\n')?;
    Ok(())
}

// Puts the tasks that a task needs after it.
fn push_needs(items: &mut Vec<u8>, plan: &Plan, task: u32) -> Result<(), AllocError>
    requires { task < length plan.now.rows }
    ensures { OnOk result (items.new.items ≡ items.old.items ++ text.needs_text plan.now task) }
{
    for need in plan.needs(task) {
        items.push(b' ')?;
        push_task(items, plan, *need)?;
    }
    Ok(())
}

/// Puts a task after a text, and nothing where the plan has no such task.
pub(crate) fn push_task(items: &mut Vec<u8>, plan: &Plan, task: u32) -> Result<(), AllocError>
    ensures { OnOk result (items.new.items ≡ items.old.items ++ text.task_text plan.now task) }
{
    match plan.rows().get(task as usize) {
        Some(row) => {
            items.extend_from_slice(row.package.as_slice())?;
            items.extend_from_slice(part_text(row.part))
        }
        None => Ok(()),
    }
}

fn part_text(part: Part) -> &'static [u8]
    ensures { result.now ≡ text.part_text part }
{
    match part {
        Part::Prep => b":prep",
        Part::Make => b":make",
    }
}

/// The packages of tasks, in their order, a line each.
pub fn names_text(alloc: Global, plan: &Plan, tasks: &Numbers) -> Result<Bytes, Memory>
    requires { All (λ task. task < length plan.now.rows) tasks.now }
    ensures { IfOk result (λ b. b ≡ text.names_text plan.now tasks.now) }
{
    let mut items = Vec::new(alloc);
    for task in &tasks.items {
        push_name(&mut items, plan, *task)?;
    }
    Ok(Bytes { items })
}

// Puts the line of a task's package after others.
fn push_name(items: &mut Vec<u8>, plan: &Plan, task: u32) -> Result<(), AllocError>
    requires { task < length plan.now.rows }
    ensures { OnOk result (items.new.items ≡ items.old.items ++ text.name_line plan.now task) }
{
    items.extend_from_slice(plan.row(task).package.as_slice())?;
    items.push(b'\n')?;
    Ok(())
}
