//! The run of a task, when all shelves of its needs were handed in.
ghost use Rattle.std.specs.Prelude.{◌≡◌, ◌++◌, ◌∷◌, [], All, IfOk, List, Ok, true, flat_map, length};
ghost use Rattle.dep_graph.specs.Needs.{needs_of};
ghost use Rattle.plan_rows.specs.declared.rows.Part.TheVariants.{Prep, Make};
ghost use Rattle.tree_worlds.specs.Kept.{Keeps};
ghost use Rattle.tree_worlds.specs.World.{world_data};
ghost use Rattle.task_shelves.specs.Shelf.{ShelfData, shelf_data, Failed};
ghost use Rattle.task_shelves.specs.Sealed.{IsSealedShelf};
ghost use Rattle.task_shelves.specs.Labels.{are_among, drawers_on};
ghost use Rattle.pkg_steps.specs.Lines.{status_at};
ghost use Rattle.pkg_steps.specs.Outcome.{outcome_of, run_in};
ghost use Rattle.pkg_steps.specs.Origins.{KeepsEach};
ghost use Rattle.pkg_steps.specs.Runs.{plan_of, task_of, count_of, IsHeldRun, IsUntouched, HasTaken};
ghost use Rattle.pkg_steps.specs.Stepping.{AreFew};

use crate::commands::Commands;
use crate::gate::Gate;
use crate::shelving::{Began, make_shelf, prep_shelf};
use crate::steps::{StepFault, run_steps};
use crate::task_run::TaskRun;
use br_path::Memory;
use plan_rows::{Part, Step, TaskRow};
use std::alloc::Global;
use task_shelves::{Shelf, Stamps};
use tree_ops::TreeOps;
use tree_worlds::{Reason, World};

impl<'p, T: TreeOps> TaskRun<'p, T> {
    /// Runs the task, and gives its shelf: the outcome of the shelves that were handed in. The trees on it are sealed.
    ///
    /// It passes the gate one time, before the first line and the copy of the source, or before it answers that a
    /// filling was refused or that the task is skipped.
    ///
    /// If no line changes other tasks' files, each file on the new shelf is the task's own, or was on a shelf that
    /// was handed in.
    ///
    /// Beside its lines a make copies the trees that it may be compared with, and looks at each name in them and in
    /// those that it leaves.
    pub fn run<C: Commands<T>, G: Gate>(
        self,
        alloc: Global,
        commands: &C,
        gate: &G,
    ) -> Result<Shelf<T>, Memory>
        requires all { count_of self ≡ length (needs_of (plan_of self).graph (task_of self)) }
        requires held { IsHeldRun T.tree T.sealed self }
        ensures shelf { IfOk result (λ s. (shelves : List ShelfData) → HasTaken T.tree self.entry shelves
            → shelf_data T.tree s ≡ outcome_of (plan_of self.entry) (C.shell commands.now) (task_of self.entry) shelves) }
        ensures sealed { IfOk result (IsSealedShelf T.tree T.sealed) }
        ensures labels { KeepsEach Keeps (C.shell commands.now) → IfOk result (λ s. (shelves : List ShelfData) → HasTaken T.tree self.entry shelves
            → are_among (flat_map drawers_on shelves ++ task_of self.entry ∷ []) (drawers_on (shelf_data T.tree s)) ≡ true) }
    {
        gate.pass(self.task);
        self.finish(alloc, commands)
    }

    fn finish<C: Commands<T>>(self, alloc: Global, commands: &C) -> Result<Shelf<T>, Memory>
        requires held { IsHeldRun T.tree T.sealed self }
        ensures shelf { IfOk result (λ s. (shelves : List ShelfData) → HasTaken T.tree self.entry shelves
            → shelf_data T.tree s ≡ outcome_of (plan_of self.entry) (C.shell commands.now) (task_of self.entry) shelves) }
        ensures sealed { IfOk result (IsSealedShelf T.tree T.sealed) }
    {
        let TaskRun {
            plan,
            task,
            world,
            unbuilt,
            refused,
            ..
        } = self;
        if let Some(by) = unbuilt {
            return Ok(Shelf::Skipped { by });
        }
        if let Some(fault) = refused {
            return Ok(failed(Step::Populate, 0, Reason::Change(fault), no_stamps(alloc)));
        }
        run_row(alloc, plan.row(task), commands, world)
    }
}

/// Runs the steps of a row in a world whose trees are filled.
fn run_row<T: TreeOps, C: Commands<T>>(
    alloc: Global,
    row: &TaskRow,
    commands: &C,
    world: World<T>,
) -> Result<Shelf<T>, Memory>
    requires few { All AreFew row.now.steps }
    requires untouched { IsUntouched T.tree T.sealed world }
    ensures shelf { IfOk result (λ s. shelf_data T.tree s ≡ run_in row.now (C.shell commands.now) (Ok (world_data T.tree world))) }
    ensures sealed { IfOk result (IsSealedShelf T.tree T.sealed) }
{
    match row.part {
        Part::Prep => run_prep(alloc, row, commands, world),
        Part::Make => run_make(alloc, row, commands, world),
    }
}

fn run_prep<T: TreeOps, C: Commands<T>>(
    alloc: Global,
    row: &TaskRow,
    commands: &C,
    world: World<T>,
) -> Result<Shelf<T>, Memory>
    requires few { All AreFew row.now.steps }
    requires part { row.now.part ≡ Prep }
    requires untouched { IsUntouched T.tree T.sealed world }
    ensures shelf { IfOk result (λ s. shelf_data T.tree s ≡ run_in row.now (C.shell commands.now) (Ok (world_data T.tree world))) }
    ensures sealed { IfOk result (IsSealedShelf T.tree T.sealed) }
{
    let mut world = world;
    let mut stamps = no_stamps(alloc);
    let steps = row.steps.items.as_slice();
    match run_steps(alloc, commands, &mut world, steps, &mut stamps) {
        Ok(()) => prep_shelf(alloc, world.trees, stamps),
        Err(StepFault::Memory) => Err(Memory),
        Err(StepFault::Failed { step, line, reason }) => Ok(failed(step, line, reason, stamps)),
    }
}

fn run_make<T: TreeOps, C: Commands<T>>(
    alloc: Global,
    row: &TaskRow,
    commands: &C,
    world: World<T>,
) -> Result<Shelf<T>, Memory>
    requires few { All AreFew row.now.steps }
    requires part { row.now.part ≡ Make }
    requires untouched { IsUntouched T.tree T.sealed world }
    ensures shelf { IfOk result (λ s. shelf_data T.tree s ≡ run_in row.now (C.shell commands.now) (Ok (world_data T.tree world))) }
    ensures sealed { IfOk result (IsSealedShelf T.tree T.sealed) }
{
    let began = Began::of(alloc, &world)?;
    let mut world = world;
    let mut stamps = no_stamps(alloc);
    let steps = row.steps.items.as_slice();
    match run_steps(alloc, commands, &mut world, steps, &mut stamps) {
        Ok(()) => make_shelf(alloc, began, world.trees, stamps),
        Err(StepFault::Memory) => Err(Memory),
        Err(StepFault::Failed { step, line, reason }) => Ok(failed(step, line, reason, stamps)),
    }
}

fn no_stamps(alloc: Global) -> Stamps
    ensures { result ≡ [] }
{
    Stamps {
        items: Vec::new(alloc),
    }
}

/// The shelf of a task that failed at a line of a step.
fn failed<T: TreeOps>(step: Step, line: u32, reason: Reason, stamps: Stamps) -> Shelf<T>
    ensures shelf { shelf_data T.tree result ≡ Failed step line (status_at line reason) reason stamps }
    ensures sealed { IsSealedShelf T.tree T.sealed result }
{
    Shelf::Failed {
        step,
        line,
        status: status_at(line, reason),
        reason,
        stamps,
    }
}

/// The status of a line that failed. Line 0 is the filling of the trees, or the copy of the source.
fn status_at(line: u32, reason: Reason) -> u8
    ensures { result ≡ status_at line reason }
{
    if line == 0 {
        return 1;
    }
    match reason {
        Reason::NotFound => 127,
        Reason::Syntax | Reason::Option => 2,
        _ => 1,
    }
}
