//! The serial build.
ghost use Rattle.std.specs.Prelude.{◌≡◌, ◌<◌, ℕ, IfOk, false, length};
ghost use Rattle.tree_worlds.specs.Kept.{Keeps};
ghost use Rattle.task_shelves.specs.Labels.{is_among, drawers_on};
ghost use Rattle.task_shelves.specs.Sealed.{IsSealedShelf};
ghost use Rattle.task_shelves.specs.Shelf.{shelf_data};
ghost use Rattle.pkg_steps.specs.Origins.{KeepsEach};
ghost use Rattle.pkg_steps.specs.Outcome.{outcome_of};
ghost use Rattle.serial_build.specs.Serial.{shelves_data, handed_to, serial_build};

use crate::outcomes::Outcomes;
use br_path::Memory;
use pkg_steps::{Commands, OpenGate, TaskRun};
use plan_rows::Plan;
use std::alloc::Global;
use task_shelves::{Shelf, Shelves};
use tree_ops::TreeOps;

/// Runs the tasks of a plan one after another, in the plan's order, and gives their shelves.
///
/// Each task is run from the shelves of its needs. A task with a need that isn't built is skipped. The time is that of the
/// tasks; all shelves are kept.
pub fn run_serially<T: TreeOps, C: Commands<T>>(
    alloc: Global,
    plan: &Plan,
    commands: &C,
) -> Result<Outcomes<T>, Memory>
    requires keeps { KeepsEach Keeps (C.shell commands.now) }
    ensures count { IfOk result (λ o. length o ≡ length plan.now.rows) }
    ensures shelves { IfOk result (λ o. (task : ℕ) → shelves_data T.tree o task ≡ serial_build plan.now (C.shell commands.now) task) }
{
    let mut done = Outcomes::none(alloc, plan.count())?;
    for task in plan.order() {
        let shelf = run_task(alloc, plan, &done, commands, *task)?;
        done.set(*task, shelf);
    }
    Ok(done)
}

/// Runs a task of a plan from the shelves of its needs. No file on a shelf is the task's own.
fn run_task<T: TreeOps, S: Shelves<Tree = T>, C: Commands<T>>(
    alloc: Global,
    plan: &Plan,
    shelves: &S,
    commands: &C,
    task: u32,
) -> Result<Shelf<T>, Memory>
    requires task { task < length plan.now.rows }
    requires count { S.tasks shelves.now ≡ length plan.now.rows }
    requires foreign { (other : ℕ) → is_among (drawers_on (S.shelves shelves.now other)) task ≡ false }
    ensures shelf { IfOk result (λ s. shelf_data T.tree s ≡ outcome_of plan.now (C.shell commands.now) task (handed_to plan.now (S.shelves shelves.now) task)) }
    ensures sealed { IfOk result (IsSealedShelf T.tree T.sealed) }
{
    let mut run = TaskRun::begin(alloc, plan, task)?;
    for need in plan.needs(task) {
        run.need(alloc, shelves.shelf(*need))?;
    }
    run.run(alloc, commands, &OpenGate)
}
