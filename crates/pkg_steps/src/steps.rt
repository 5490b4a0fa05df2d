//! The steps of a task, in their order.
ghost use Rattle.std.specs.Prelude.{◌≡◌, ◌+◌, ◌≤◌, length, All, OnOk};
ghost use Rattle.tree_worlds.specs.HeldWorld.{IsHeldWorld};
ghost use Rattle.tree_worlds.specs.World.{world_data};
ghost use Rattle.pkg_steps.specs.Lines.{front_run, back_run, step_run, steps_run, Runs, stamp_of, with_stamp};
ghost use Rattle.pkg_steps.specs.Stepping.{Progressed, Stepped, AreFew, failed_at};

use crate::commands::Commands;
use crate::lines::{LineFault, run_copy, run_lines};
use br_path::Memory;
use plan_rows::{Step, StepRow};
use std::alloc::Global;
use task_shelves::{Stamp, Stamps};
use tree_ops::TreeOps;
use tree_worlds::{Reason, World};

/// The step that failed, with its line.
#[derive(Clone, Copy)]
pub(crate) enum StepFault {
    Failed {
        step: Step,
        line: u32,
        reason: Reason,
    },
    Memory,
}

impl From<Memory> for StepFault {
    ghost use Rattle.std.specs.Prelude.{◌≡◌};
    ghost use Rattle.pkg_steps.specs.declared.steps.StepFault.TheVariants.{Memory as no_memory};

    ghost from_gives = { λ _ fault. fault ≡ no_memory };

    fn from(_memory: Memory) -> StepFault {
        StepFault::Memory
    }
}

/// Runs steps, up to the first that fails. Each that ends gives its stamp.
pub(crate) fn run_steps<T: TreeOps, C: Commands<T>>(
    alloc: Global,
    commands: &C,
    world: &mut World<T>,
    rows: &[StepRow],
    stamps: &mut Stamps,
) -> Result<(), StepFault>
    requires few { All AreFew rows.now }
    requires held { IsHeldWorld T.tree T.sealed world.old }
    ensures stepped { Stepped (steps_run (C.shell commands.now) rows.now (Runs (world_data T.tree world.old) stamps.old)) result (world_data T.tree world.new) stamps.new }
    ensures held { IsHeldWorld T.tree T.sealed world.new }
{
    for row in rows {
        match run_step(alloc, commands, world, row) {
            Ok(()) => give(stamps, row.step)?,
            Err(fault) => return Err(failed_at(row.step, fault)),
        }
    }
    Ok(())
}

/// Runs a step: the hooks before it, the copy of the source, its commands, the hooks after it.
fn run_step<T: TreeOps, C: Commands<T>>(
    alloc: Global,
    commands: &C,
    world: &mut World<T>,
    row: &StepRow,
) -> Result<(), LineFault>
    requires few { AreFew row.now }
    requires held { IsHeldWorld T.tree T.sealed world.old }
    ensures progress { Progressed (step_run (C.shell commands.now) row.now (world_data T.tree world.old)) result (world_data T.tree world.new) }
    ensures held { IsHeldWorld T.tree T.sealed world.new }
{
    run_front(alloc, commands, world, row)?;
    let first = row.before.items.len() as u32 + 1;
    run_back(alloc, commands, world, row, first)
}

/// Runs the hooks before a step, and copies the source.
fn run_front<T: TreeOps, C: Commands<T>>(
    alloc: Global,
    commands: &C,
    world: &mut World<T>,
    row: &StepRow,
) -> Result<(), LineFault>
    requires few { AreFew row.now }
    requires held { IsHeldWorld T.tree T.sealed world.old }
    ensures progress { Progressed (front_run (C.shell commands.now) row.now (world_data T.tree world.old)) result (world_data T.tree world.new) }
    ensures held { IsHeldWorld T.tree T.sealed world.new }
{
    run_lines(alloc, commands, world, 1, row.before.items.as_slice())?;
    run_copy(alloc, commands, world, row.copy_source)
}

/// Runs the commands of a step, the first of which has this number, and the hooks after it.
fn run_back<T: TreeOps, C: Commands<T>>(
    alloc: Global,
    commands: &C,
    world: &mut World<T>,
    row: &StepRow,
    first: u32,
) -> Result<(), LineFault>
    requires few { first + length row.now.lines + length row.now.after ≤ 4294967295 }
    requires held { IsHeldWorld T.tree T.sealed world.old }
    ensures progress { Progressed (back_run (C.shell commands.now) row.now first (world_data T.tree world.old)) result (world_data T.tree world.new) }
    ensures held { IsHeldWorld T.tree T.sealed world.new }
{
    run_lines(alloc, commands, world, first, row.lines.items.as_slice())?;
    let next = first + row.lines.items.len() as u32;
    run_lines(alloc, commands, world, next, row.after.items.as_slice())
}

/// Gives the stamp of a step.
fn give(stamps: &mut Stamps, step: Step) -> Result<(), Memory>
    ensures { OnOk result (stamps.new ≡ with_stamp stamps.old (stamp_of step)) }
{
    match stamp_of(step) {
        None => Ok(()),
        Some(stamp) => Ok(stamps.items.push(stamp)?),
    }
}

fn stamp_of(step: Step) -> Option<Stamp>
    ensures { result ≡ stamp_of step }
{
    match step {
        Step::Populate => None,
        Step::Extract => Some(Stamp::Extracted),
        Step::Patch => Some(Stamp::Patched),
        Step::Configure => Some(Stamp::Configured),
        Step::Build => Some(Stamp::Built),
        Step::Host => Some(Stamp::HostInstalled),
        Step::Staging => Some(Stamp::StagingInstalled),
        Step::Target => Some(Stamp::TargetInstalled),
    }
}

fn failed_at(step: Step, fault: LineFault) -> StepFault
    ensures { result ≡ failed_at step fault }
{
    match fault {
        LineFault::Memory => StepFault::Memory,
        LineFault::Failed { line, reason } => StepFault::Failed { step, line, reason },
    }
}
